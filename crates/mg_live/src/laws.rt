//! Laws of rounds that are under way: each function does nothing, and its contract is the law.
ghost use Rattle.std.specs.Prelude.{◌≡◌, ◌∷◌, ◌++◌, List, length, max, reverse};
ghost use Rattle.mg_calc.specs.declared.inputs.Inputs.{Inputs};
ghost use Rattle.mg_calc.specs.declared.plan.Plan.{Plan};
ghost use Rattle.mg_calc.specs.Plan.{IsValidWithFree};
ghost use Rattle.mg_calc.specs.Rules.{Laws};
ghost use Rattle.mg_calc.specs.Equations.{IsJob, IsSolution};
ghost use Rattle.mg_value.specs.Payload.{Plain};
ghost use Rattle.mg_settled.specs.Prefix.{StreamPrefix};
ghost use Rattle.mg_settled.specs.Extension.{IsExtendedBy};
ghost use Rattle.mg_free.specs.declared.plan.FreePlan.{FreePlan};
ghost use Rattle.mg_free.specs.Core.{split_of};
ghost use Rattle.mg_free.specs.Rounds.{Taken, none_taken, core_job, IsRound, AllRounds};
ghost use Rattle.mg_free.specs.Turns.{HasCome};
ghost use Rattle.mg_live.specs.Takes.{MayAllTurn, piece_behind};
ghost use Rattle.mg_live.specs.SoFar.{SoFar, HaveCome, CoreGoesOn};

/// If a round does nothing after the last batch, the rounds so far are all rounds of the run. In the solution of the core the log of
/// each free node is then lawful. The output of each free node is then what its law gives for its log.
pub fn rounds_so_far_are_rounds()
    ensures all { (laws : Laws) (split : FreePlan) (inputs : Inputs) (earlier : List Inputs) (takens : List Taken) → SoFar laws split (inputs ∷ earlier) takens → IsRound laws split inputs takens takens
        → AllRounds laws split (reverse (inputs ∷ earlier)) (none_taken split) takens }
    ensures come { (laws : Laws) (plan : Plan) (inputs : Inputs) (earlier : List Inputs) (takens : List Taken) → IsValidWithFree plan → HaveCome plan (inputs ∷ earlier)
        → SoFar laws (split_of plan) (inputs ∷ earlier) takens → IsRound laws (split_of plan) inputs takens takens → HasCome laws (split_of plan) inputs takens }
{}

/// At each point of a run, the core's inputs so far make a job. After a further round, or a further batch, they make a job again, and
/// its inputs extend those before.
pub fn rounds_go_on()
    ensures job { (laws : Laws) (plan : Plan) (inputs : Inputs) (earlier : List Inputs) (takens : List Taken) → IsValidWithFree plan → HaveCome plan (inputs ∷ earlier) → SoFar laws (split_of plan) (inputs ∷ earlier) takens
        → IsJob (core_job laws (split_of plan) inputs takens) }
    ensures round { (laws : Laws) (plan : Plan) (inputs : Inputs) (earlier : List Inputs) (before after : List Taken) → IsValidWithFree plan → HaveCome plan (inputs ∷ earlier)
        → SoFar laws (split_of plan) (inputs ∷ earlier) before → IsRound laws (split_of plan) inputs before after → CoreGoesOn laws (split_of plan) inputs inputs before after }
    ensures batch { (laws : Laws) (plan : Plan) (inputs more : Inputs) (earlier : List Inputs) (takens : List Taken) → IsValidWithFree plan → HaveCome plan (more ∷ inputs ∷ earlier)
        → SoFar laws (split_of plan) (inputs ∷ earlier) takens → CoreGoesOn laws (split_of plan) inputs more takens takens }
{}

/// In the solution for the core's inputs so far, each free node may have its turn.
pub fn free_nodes_may_have_their_turns()
    ensures { (laws : Laws) (plan : Plan) (inputs : Inputs) (earlier : List Inputs) (takens : List Taken) (streams : List (StreamPrefix Plain)) → IsValidWithFree plan → HaveCome plan (inputs ∷ earlier)
        → SoFar laws (split_of plan) (inputs ∷ earlier) takens → IsSolution (core_job laws (split_of plan) inputs takens) streams → MayAllTurn streams (split_of plan).free takens }
{}

/// A piece that a free node hands on follows the packets that it handed on before. The packets before, and then those of the piece, are
/// the packets of the output as it is now. The higher of the two bounds is the output's bound.
pub fn pieces_go_behind()
    ensures packets { (before after : StreamPrefix Plain) → IsExtendedBy before after → before.packets ++ (piece_behind (length before.packets) after).packets ≡ after.packets }
    ensures bound { (before after : StreamPrefix Plain) → IsExtendedBy before after → max before.bound (piece_behind (length before.packets) after).bound ≡ after.bound }
{}
