//! The output text of a run, which is put set by set and written in blocks.
ghost use Rattle.std.specs.Prelude.{◌≡◌, ◌<◌, ◌++◌, [], false, All, length, List, ℕ, IfOk, OnOk, OnErr};
ghost use Rattle.mg_edge.specs.Edge.{SinkTold};
ghost use Rattle.mg_answer.specs.Text.{output_names, set_text};
ghost use Rattle.mg_answer.specs.Put.{nothing_put, HasPut};

use crate::BlockText;
use crate::set_lines::{SetLines, writers_of};
use mg_calc::Plan;
use mg_edge::Sink;
use mg_feed::LineWriter;
use mg_settled::InputSet;
use std::alloc::{AllocError, Global};
use std::marker::Model;

/// The text that a graph's outputs make, on its way to a sink. Sets are put one after the other, and their lines are written in
/// blocks. Once a write has failed nothing more is written.
///
/// `HasPut` of `specs/Put.antt` says what of a text was put, and what a sink took of it.
#[derive(Drop)]
pub struct OutputText {
    writers: Vec<LineWriter>,
    blocks: BlockText,
}

impl Model for OutputText {
    ghost use Rattle.std.specs.Prelude.{◌<◌, ◌^◌, length};
    ghost use Rattle.mg_answer.specs.Put.{TextView};

    ghost Value = { TextView };

    ghost view = { λ t. record { names = t.writers.items; kept = t.blocks.kept; failed = t.blocks.failed } };

    ghost invariant = { λ t. length t.writers.items < 2 ^ 32 };
}

impl OutputText {
    /// Makes a text for the outputs of a plan. Nothing is put into it yet.
    pub fn new(alloc: Global, plan: &Plan) -> Result<OutputText, AllocError>
        requires shown { All (λ s. s < length plan.now.streams) plan.now.outputs }
        ensures { IfOk result (λ t. t ≡ nothing_put (output_names plan.now)) }
    {
        let writers = writers_of(alloc, plan)?;
        Ok(OutputText {
            writers,
            blocks: BlockText::new(alloc),
        })
    }

    /// Makes a text that was put whole. Nothing of it is written yet, and no sets are put after it.
    pub fn whole(alloc: Global, text: Vec<u8>) -> OutputText
        ensures { result ≡ record { names = []; kept = text.items; failed = false } }
    {
        OutputText {
            writers: Vec::new(alloc),
            blocks: BlockText::whole(text),
        }
    }

    /// Makes a text that was put into blocks. A part of the blocks may have been written, and no sets are put after them.
    pub fn of_blocks(alloc: Global, blocks: BlockText) -> OutputText
        ensures { result ≡ record { names = []; kept = blocks.kept; failed = blocks.failed } }
    {
        OutputText {
            writers: Vec::new(alloc),
            blocks,
        }
    }

    /// Puts the lines of a set, and writes the bytes that aren't written yet once there are 64 KiB of them. After a failed write it puts
    /// nothing more. After an `Err` nothing of the set was put: the text and the output are as they were.
    pub fn put_set<K: Sink>(&mut self, set: &InputSet, output: &mut K) -> Result<(), AllocError>
        ensures names { self.new.names ≡ self.old.names }
        ensures put { OnOk result ((first : SinkTold) (text : List ℕ) → HasPut first (K.told output.old) self.old text
            → HasPut first (K.told output.new) self.new (text ++ set_text self.old.names set.now)) }
        ensures unwritten { OnErr result (K.told output.new ≡ K.told output.old) }
        ensures unchanged { OnErr result (self.new ≡ self.old) }
    {
        let lines = SetLines {
            writers: self.writers.as_slice(),
            set,
        };
        self.blocks.put(&lines, output)?;
        Ok(())
    }

    /// Writes the bytes that aren't written yet, unless a write has failed.
    pub fn flush<K: Sink>(&mut self, output: &mut K)
        ensures names { self.new.names ≡ self.old.names }
        ensures put { (first : SinkTold) (text : List ℕ) → HasPut first (K.told output.old) self.old text → HasPut first (K.told output.new) self.new text }
        ensures kept { self.new.failed ≡ false → self.new.kept ≡ [] }
    {
        self.blocks.flush(output);
    }

    /// Returns whether a write has failed.
    pub fn has_failed(&self) -> bool
        ensures { result ≡ self.now.failed }
    {
        self.blocks.has_failed()
    }
}
