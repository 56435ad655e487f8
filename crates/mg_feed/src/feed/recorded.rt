//! How a feed takes the lines of a recorded job.
use super::Feed;
use crate::LineFault;

impl Feed {
    ghost use Rattle.std.specs.Prelude.{◌≡◌, ◌≢◌, [], ◌∷◌, ◌++◌, ℕ, List, None, Some, OnOk, OnErr, IfErr};
    ghost use Rattle.mg_feed.specs.FeedSeen.{seen, fed};
    ghost use Rattle.mg_feed.specs.Recorded.{recorded_refusal, HasRecorded};

    /// Takes the next line of a recorded job, without its line feed, or returns why it isn't good. The line may have any length, and
    /// any number of lines may come before it. A line that isn't taken leaves the feed as it was.
    ///
    /// The feed doesn't count the line. So it takes all its lines by this call, or all by `line` and by reading.
    pub fn recorded_line(&mut self, text: &[u8]) -> Result<(), LineFault>
        ensures good { OnOk result ((lines : List (List ℕ)) → HasRecorded lines (seen self.old)
            → (recorded_refusal (seen self.old).graph lines text.now ≡ None) × HasRecorded (lines ++ text.now ∷ []) (seen self.new)) }
        ensures refused { IfErr result (λ fault. fault ≢ LineFault.OutOfMemory → (lines : List (List ℕ)) → HasRecorded lines (seen self.old)
            → recorded_refusal (seen self.old).graph lines text.now ≡ Some fault) }
        ensures unchanged { OnErr result (seen self.new ≡ seen self.old) }
        ensures graph { (seen self.new).graph ≡ (seen self.old).graph }
        ensures read { (fed self.new).read ≡ (fed self.old).read }
    {
        self.input_buffer
            .words(self.alloc, &mut self.scratch, text)?;
        Ok(())
    }
}
