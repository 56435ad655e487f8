ghost use Rattle.std.specs.Prelude.{◌≡◌, ℕ, ◌<◌, ◌≤◌, ◌↔◌, length, IfOk, IfErr, Err};
ghost use Rattle.mg_text.specs.Tree.{Fields, depth};
ghost use Rattle.mg_text.specs.Grammar.{Gives};
ghost use Rattle.mg_text.specs.View.{view};
ghost use Rattle.mg_text.specs.Canonical.{AreSpelled};
ghost use Rattle.mg_text.specs.Answer.{max_len, max_depth, IsSyntaxFault, IsTooDeep, IsFault, IsTree, IsFailed};
ghost use Rattle.mg_text.specs.Code.Running.{state_of, spot_of, FileEnds, IsAnswered};
ghost use Rattle.mg_text.specs.Code.Clean.{IsClean};

use crate::fault::TextFault;
use crate::machine::Machine;
use crate::tree::Tree;
use std::alloc::Global;

const MAX_LEN: usize = 4_194_304;

const MAX_DEPTH: usize = 64;

/// The line feed that ends a comment at the end of a file.
const LINE_FEED: u8 = 10;

/// Ends a file of `at` bytes, and returns its tree or its fault.
fn end(alloc: Global, mut machine: Machine, at: u32) -> Result<Tree, TextFault>
    requires { IsClean (spot_of machine.reading machine.name machine.token.items) }
    ensures { FileEnds (state_of machine) at result }
{
    if !machine.step(alloc, LINE_FEED)? {
        return Err(TextFault::Syntax { at });
    }
    match machine.finish(alloc)? {
        Some(tree) => Ok(tree),
        None => Err(TextFault::Syntax { at }),
    }
}

fn read(alloc: Global, bytes: &[u8]) -> Result<Tree, TextFault>
    requires { length bytes.now ≤ max_len }
    ensures { IsAnswered bytes.now result }
{
    let mut machine = Machine::new(alloc);
    let mut i = 0;
    'bytes: while i < bytes.len() {
        let at = i as u32;
        if !machine.step(alloc, bytes[i])? {
            return Err(TextFault::Syntax { at });
        }
        if machine.depth() > MAX_DEPTH {
            return Err(TextFault::TooDeep { at });
        }
        let count = machine.take_plain(bytes.split_at(i + 1).1)?;
        i += 1 + count;
    }
    end(alloc, machine, bytes.len() as u32)
}

/// Reads a file in the text form of protocol buffers, in the profile of docs/TEXT_FORMAT.md, after the Protocol Buffers
/// text format language specification. The time grows with the file's length. The stack doesn't grow with the file's depth.
pub fn parse(alloc: Global, bytes: &[u8]) -> Result<Tree, TextFault>
    // The returned tree is the tree that the grammar gives.
    ensures ok { IfOk result (λ tree. Gives bytes.now (view tree) × (depth (view tree) ≤ max_depth)) }
    ensures spelled { IfOk result (λ tree. AreSpelled (view tree)) }
    ensures fault { IfErr result (IsFault bytes.now) }

    // Each answer is given wherever it is due, unless memory runs out.
    ensures too_long { (result ≡ Err TextFault.TooLong) ↔ (max_len < length bytes.now) }
    ensures tree { (t : Fields) → length bytes.now ≤ max_len → Gives bytes.now t → depth t ≤ max_depth → IsTree t result }
    ensures syntax { (place : ℕ) → length bytes.now ≤ max_len → IsSyntaxFault bytes.now place
        → IsFailed (TextFault.Syntax place) result }
    ensures too_deep { (place : ℕ) → length bytes.now ≤ max_len → IsTooDeep bytes.now place
        → IsFailed (TextFault.TooDeep place) result }
{
    if bytes.len() > MAX_LEN {
        return Err(TextFault::TooLong);
    }
    read(alloc, bytes)
}
