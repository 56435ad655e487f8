ghost use Rattle.std.specs.Prelude.{◌≡◌, ◌++◌, ◌∷◌, [], List, IfOk, OnOk, OnErr};
ghost use Rattle.mg_edge.specs.Edge.{SinkTold};
ghost use Rattle.mg_value.specs.Payload.{Plain};
ghost use Rattle.mg_settled.specs.Settled.{TimedSet};
ghost use Rattle.mg_calc.specs.declared.plan.Plan.{Plan};
ghost use Rattle.mg_answer.specs.Answer.{OutputForm};
ghost use Rattle.mg_answer.specs.Put.{HasPut};
ghost use Rattle.mg_drive.specs.Told.{told_in, IsFewTold};

use mg_answer::OutputText;
use mg_edge::Sink;
use mg_settled::InputSet;
use std::alloc::{AllocError, Global};

/// What tells the sets of a graph's outputs: by their lines, or by a summary at the end.
pub trait Telling: Drop {
    /// The form in which it tells sets.
    ghost form: { OutputForm };

    /// These sets of a plan's outputs were told by it. The output told the first `SinkTold` before that, and tells the second now.
    ghost has_told: { Self → Plan → SinkTold → SinkTold → List (TimedSet Plain) → Type 0 };

    /// Tells one more set.
    fn tell<K: Sink>(&mut self, set: &InputSet, output: &mut K) -> Result<(), AllocError>
        requires { IsFewTold has_told (K.told output.old) self.old }
        ensures put { OnOk result ((plan : Plan) (first : SinkTold) (sets : List (TimedSet Plain)) (timed : TimedSet Plain) → timed.set ≡ set.now
            → has_told self.old plan first (K.told output.old) sets → has_told self.new plan first (K.told output.new) (sets ++ timed ∷ [])) }
        ensures unwritten { OnErr result (K.told output.new ≡ K.told output.old) };

    /// Writes what was told so far, unless it is a summary, which is written at the end.
    fn pass_on<K: Sink>(&mut self, output: &mut K)
        ensures { (plan : Plan) (first : SinkTold) (sets : List (TimedSet Plain))
            → has_told self.old plan first (K.told output.old) sets → has_told self.new plan first (K.told output.new) sets };

    /// Returns the text of all that was told. A part of this text may have been written.
    fn into_text(self, alloc: Global) -> Result<OutputText, AllocError>
        ensures { IfOk result (λ text. (plan : Plan) (first now : SinkTold) (sets : List (TimedSet Plain)) → has_told self plan first now sets
            → HasPut first now text (told_in form plan sets)) };
}
