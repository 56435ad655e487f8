ghost use Rattle.std.specs.Prelude.{◌≡◌, ◌++◌, ◌+◌, ◌<◌, ◌≤◌, ◌*◌, ◌^◌, IfOk, OnOk};
ghost use Rattle.std.specs.List.{flat_map};
ghost use Rattle.mg_text.specs.Tree.{Fields, depth};
ghost use Rattle.mg_text.specs.Grammar.{Gives};
ghost use Rattle.mg_text.specs.View.{view, fields_view, value_view, scalar_view};
ghost use Rattle.mg_text.specs.Answer.{max_depth};
ghost use Rattle.mg_text.specs.Canonical.{indent, escape, short_escape, canonical, lines_of, AreSpelled};
ghost use Rattle.mg_text.specs.Code.Printing.{entry_lines, entry_depth, value_text};

use crate::tree::{Field, Scalar, Tree, TreeValue};
use std::alloc::{AllocError, Global};

fn put_indent(out: &mut Vec<u8>, k: usize) -> Result<(), AllocError>
    requires { k < 2 ^ 32 }
    ensures { OnOk result (out.new.items ≡ out.old.items ++ indent k) }
{
    for _i in 0..2 * k {
        out.push(b' ')?;
    }
    Ok(())
}

/// Returns what stands after the backslash in the short escape of a byte, or none if the byte has no short escape.
fn short_escape(b: u8) -> Option<u8>
    ensures { result ≡ short_escape b }
{
    if b == 10 {
        Some(110)
    } else if b == 13 {
        Some(114)
    } else if b == 9 {
        Some(116)
    } else if b == 92 {
        Some(92)
    } else if b == 34 {
        Some(34)
    } else {
        None
    }
}

fn put_byte(out: &mut Vec<u8>, b: u8) -> Result<(), AllocError>
    ensures { OnOk result (out.new.items ≡ out.old.items ++ escape b) }
{
    match short_escape(b) {
        Some(c) => out.extend_from_slice(&[92, c])?,
        None => {
            if b < 32 || b == 127 {
                out.extend_from_slice(&[92, 48 + b / 64, 48 + b / 8 % 8, 48 + b % 8])?;
            } else {
                out.push(b)?;
            }
        }
    }
    Ok(())
}

fn put_string(out: &mut Vec<u8>, bytes: &[u8]) -> Result<(), AllocError>
    ensures { OnOk result (out.new.items ≡ out.old.items ++ flat_map escape bytes.now) }
{
    for b in bytes {
        put_byte(out, *b)?;
    }
    Ok(())
}

fn put_scalar(out: &mut Vec<u8>, scalar: &Scalar) -> Result<(), AllocError>
    ensures { OnOk result (out.new.items ≡ out.old.items ++ value_text (scalar_view scalar.now)) }
{
    match scalar {
        Scalar::Word(text) | Scalar::Number(text) => out.extend_from_slice(text.as_bytes())?,
        Scalar::Quoted(text) => {
            out.push(b'"')?;
            put_string(out, text.as_bytes())?;
            out.push(b'"')?;
        }
    }
    Ok(())
}

/// Writes the beginning of a field's line: its indent and its name.
fn put_name(out: &mut Vec<u8>, field: &Field, k: usize) -> Result<(), AllocError>
    requires { k < 2 ^ 32 }
    ensures { OnOk result (out.new.items ≡ out.old.items ++ indent k ++ field.now.name) }
{
    put_indent(out, k)?;
    out.extend_from_slice(field.name.as_bytes())?;
    Ok(())
}

#[cycle(printing)]
fn put_field(out: &mut Vec<u8>, field: &Field, k: usize) -> Result<(), AllocError>
    requires { k + entry_depth (value_view field.now.value) ≤ max_depth }
    ensures { OnOk result (out.new.items ≡ out.old.items ++ entry_lines k field.now.name (value_view field.now.value)) }
{
    put_name(out, field, k)?;
    match &field.value {
        TreeValue::Scalar(scalar) => {
            out.extend_from_slice(b": ")?;
            put_scalar(out, scalar)?;
            out.push(b'\n')?;
        }
        TreeValue::Message(tree) => {
            out.extend_from_slice(b" {\n")?;
            put_fields(out, tree.as_slice(), k + 1)?;
            put_indent(out, k)?;
            out.extend_from_slice(b"}\n")?;
        }
    }
    Ok(())
}

#[cycle(printing)]
fn put_fields(out: &mut Vec<u8>, fields: &[Field], k: usize) -> Result<(), AllocError>
    requires { k + depth (fields_view fields.now) ≤ max_depth }
    ensures { OnOk result (out.new.items ≡ out.old.items ++ lines_of k (fields_view fields.now)) }
{
    for field in fields {
        put_field(out, field, k)?;
    }
    Ok(())
}

fn written(alloc: Global, tree: &Tree) -> Result<Vec<u8>, AllocError>
    requires { depth (view tree.now) ≤ max_depth }
    ensures { IfOk result (λ text. text.items ≡ canonical (view tree.now)) }
{
    let mut out = Vec::new(alloc);
    put_fields(&mut out, tree.as_slice(), 0)?;
    Ok(out)
}

/// Returns the canonical text: a line for each scalar, and a message's lines between two of its own, indented by two
/// spaces per open message. `parse` reads the tree back from the text, if the text is at most 4,194,304 bytes long.
pub fn print(alloc: Global, tree: &Tree) -> Result<Vec<u8>, AllocError>
    requires spelled { AreSpelled (view tree.now) }
    requires shallow { depth (view tree.now) ≤ max_depth }

    ensures text { IfOk result (λ text. text.items ≡ canonical (view tree.now)) }
    // The grammar gives the text this tree, and no other.
    ensures given { IfOk result (λ text. Gives text.items (view tree.now)) }
    ensures only { IfOk result (λ text. (t : Fields) → Gives text.items t → t ≡ view tree.now) }
{
    written(alloc, tree)
}
