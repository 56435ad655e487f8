//! The options of a node: what is in its `options` and `node_options`, in the order of the text.
ghost use Rattle.std.specs.Prelude.{◌≡◌, ◌++◌, IfOk, IfSome, OnOk, map};
ghost use Rattle.std.specs.List.{list_any};
ghost use Rattle.mg_text.specs.Tree.{none};
ghost use Rattle.mg_text.specs.View.{field_view, fields_view, view};
ghost use Rattle.mg_config.specs.Config as config;

use crate::value::{fields_of_value, has_name};
use mg_text::{Field, Tree, TreeValue};
use std::alloc::{AllocError, Global};

fn is_option(field: &Field) -> bool
    ensures { result ≡ config.is_option (field_view field.now) }
{
    has_name(field, b"options") || has_name(field, b"node_options")
}

fn has_options(fields: &[Field]) -> bool
    ensures { result ≡ list_any (λ field. config.is_option (field_view field)) fields.now }
{
    fields.iter().any(|field| is_option(field))
}

/// Appends copies of fields to a list.
fn append_copies(alloc: Global, out: &mut Vec<Field>, fields: &[Field]) -> Result<(), AllocError>
    ensures { OnOk result (map field_view out.new.items ≡ map field_view out.old.items ++ map field_view fields.now) }
{
    for field in fields {
        out.push(field.try_clone(alloc)?)?;
    }
    Ok(())
}

/// Returns the fields of all options messages of a node, copied into one list.
fn joined_options(alloc: Global, fields: &[Field]) -> Result<Vec<Field>, AllocError>
    ensures { IfOk result (λ options. fields_view options.items ≡ config.options_in (map field_view fields.now)) }
{
    let mut options = Vec::new(alloc);
    for field in fields {
        if !is_option(field) {
            continue;
        }
        append_copies(alloc, &mut options, fields_of_value(&field.value))?;
    }
    Ok(options)
}

/// Returns the only options message of a node, or none if the node hasn't exactly one.
fn only_options(fields: &[Field]) -> Option<&Tree>
    ensures { IfSome result (λ tree. view tree.now ≡ config.options_in (map field_view fields.now)) }
{
    for (i, field) in fields.iter().enumerate() {
        if !is_option(field) {
            continue;
        }
        let TreeValue::Message(tree) = &field.value else {
            return None;
        };
        if has_options(fields.split_at(i + 1).1) {
            return None;
        }
        return Some(tree);
    }
    None
}

/// Returns the options of a node. They are shared with its only options message, and copied if it has several. Without
/// options, the node is one more owner of `no_fields`.
#[tactic(auto, using(crate::proofs::Joined::none_of))]
pub fn options_of(alloc: Global, no_fields: &Tree, fields: &[Field]) -> Result<Tree, AllocError>
    requires { view no_fields.now ≡ none }
    ensures { IfOk result (λ options. view options ≡ config.options_in (map field_view fields.now)) }
{
    if !has_options(fields) {
        return no_fields.try_clone();
    }
    match only_options(fields) {
        Some(tree) => tree.try_clone(),
        None => Tree::new(alloc, joined_options(alloc, fields)?),
    }
}
