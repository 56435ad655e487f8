//! Tells sets by the lines of an output text, which is written as it grows.
ghost use Rattle.mg_answer.specs.Answer.{packet_lines};
ghost use Rattle.mg_drive.specs.Told.{HasLines};

use crate::Telling;
use mg_answer::OutputText;
use mg_edge::Sink;
use mg_settled::InputSet;
use std::alloc::{AllocError, Global};

impl Telling for OutputText {
    ghost form = { packet_lines };

    ghost has_told = { λ t plan first now sets. HasLines t plan first now sets };

    fn tell<K: Sink>(&mut self, set: &InputSet, output: &mut K) -> Result<(), AllocError> {
        self.put_set(set, output)?;
        Ok(())
    }

    fn pass_on<K: Sink>(&mut self, output: &mut K) {
        self.flush(output);
    }

    fn into_text(self, alloc: Global) -> Result<OutputText, AllocError> {
        let _ = alloc;
        Ok(self)
    }
}
