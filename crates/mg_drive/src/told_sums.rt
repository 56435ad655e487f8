//! Tells sets by adding them to a summary, whose text is made at the end.
ghost use Rattle.mg_answer.specs.Answer.{totals};
ghost use Rattle.mg_drive.specs.Told.{HasSums};

use crate::Telling;
use mg_answer::{OutputSummary, OutputText};
use mg_edge::Sink;
use mg_settled::InputSet;
use std::alloc::{AllocError, Global};

impl Telling for OutputSummary {
    ghost form = { totals };

    ghost has_told = { λ s plan first now sets. HasSums s plan first now sets };

    fn tell<K: Sink>(&mut self, set: &InputSet, output: &mut K) -> Result<(), AllocError> {
        let _ = output;
        self.put_set(set);
        Ok(())
    }

    fn pass_on<K: Sink>(&mut self, output: &mut K) {
        let _ = output;
    }

    fn into_text(self, alloc: Global) -> Result<OutputText, AllocError> {
        let text = self.text(alloc)?;
        Ok(text)
    }
}
