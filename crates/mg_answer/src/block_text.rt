//! A text on its way to a sink, which is written in blocks as it grows.
ghost use Rattle.std.specs.Prelude.{◌≡◌, ◌++◌, [], false, List, ℕ, OnOk, OnErr};
ghost use Rattle.mg_edge.specs.Edge.{SinkTold};
ghost use Rattle.mg_answer.specs.Put.{nothing_kept, HasPutIn};
ghost use Rattle.mg_answer.specs.Code.Written.{HandedOn};

use mg_edge::Sink;
use mg_feed::put_all;
use std::alloc::{AllocError, Global};
use std::marker::Model;

// How many bytes of a text are kept before they are written.
const BLOCK: usize = 1 << 16;

/// What can be put at a text's end.
pub trait Puts {
    /// The bytes that a value puts.
    ghost says: { Self → List ℕ };

    /// Puts the value's bytes at a text's end. After an `Err` the text is as it was.
    fn put_at(&self, text: &mut Vec<u8>) -> Result<(), AllocError>
        ensures put { OnOk result (text.new.items ≡ text.old.items ++ says self.now) }
        ensures unchanged { OnErr result (text.new.items ≡ text.old.items) };
}

/// A text that is put part by part. Its bytes are written once there is a block of 64 KiB, so that memory doesn't grow with the
/// text. Once a write has failed nothing more is written.
///
/// `HasPutIn` of `specs/Put.antt` says what of a text was put, and what a sink took of it.
#[derive(Drop)]
pub struct BlockText {
    text: Vec<u8>,
    failed: bool,
}

impl Model for BlockText {
    ghost use Rattle.mg_answer.specs.Put.{BlockView};
    ghost use Rattle.mg_answer.specs.Codes.{block_code};

    ghost Value = { BlockView };

    ghost coded = { block_code };

    ghost view = { λ t. record { kept = t.text.items; failed = t.failed } };
}

impl BlockText {
    /// Makes a text. Nothing is put into it yet.
    pub fn new(alloc: Global) -> BlockText
        ensures { result ≡ nothing_kept }
    {
        BlockText {
            text: Vec::new(alloc),
            failed: false,
        }
    }

    /// Makes a text that was put whole. Nothing of it is written yet.
    pub fn whole(text: Vec<u8>) -> BlockText
        ensures { result ≡ record { kept = text.items; failed = false } }
    {
        BlockText {
            text,
            failed: false,
        }
    }

    /// Puts a part, and writes the bytes that aren't written yet once there are 64 KiB of them. After a failed write it puts nothing more.
    /// After an `Err` nothing of the part was put: the text and the output are as they were.
    pub fn put<P: Puts, K: Sink>(&mut self, part: &P, output: &mut K) -> Result<(), AllocError>
        ensures put { OnOk result ((first : SinkTold) (text : List ℕ) → HasPutIn first (K.told output.old) self.old text
            → HasPutIn first (K.told output.new) self.new (text ++ P.says part.now)) }
        ensures unwritten { OnErr result (K.told output.new ≡ K.told output.old) }
        ensures unchanged { OnErr result (self.new ≡ self.old) }
    {
        if self.failed {
            return Ok(());
        }
        part.put_at(&mut self.text)?;
        self.failed = !hand_on(output, &mut self.text);
        Ok(())
    }

    /// Writes the bytes that aren't written yet, unless a write has failed.
    pub fn flush<K: Sink>(&mut self, output: &mut K)
        ensures put { (first : SinkTold) (text : List ℕ) → HasPutIn first (K.told output.old) self.old text → HasPutIn first (K.told output.new) self.new text }
        ensures kept { self.new.failed ≡ false → self.new.kept ≡ [] }
    {
        if self.failed {
            return;
        }
        self.failed = !put_all(output, &self.text);
        self.text.clear();
    }

    /// Returns whether a write has failed.
    pub fn has_failed(&self) -> bool
        ensures { result ≡ self.now.failed }
    {
        self.failed
    }
}

// Writes a text and empties it, once it has a block of bytes. Returns false if a write failed.
fn hand_on<K: Sink>(output: &mut K, text: &mut Vec<u8>) -> bool
    ensures { HandedOn result (K.told output.old) (K.told output.new) text.old.items text.new.items }
{
    if text.len() < BLOCK {
        return true;
    }
    let all = put_all(output, text);
    text.clear();
    all
}
