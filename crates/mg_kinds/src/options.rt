//! The fields of a node's options message.
ghost use Rattle.std.specs.Prelude.{◌≡◌, ◌++◌, ℕ, List, IfOk, OnOk, map, option_map, option_copied, count_by};
ghost use Rattle.mg_text.specs.View.{field_view, value_view};
ghost use Rattle.mg_config.specs.Number.{is_one_of as among};
ghost use Rattle.mg_config.specs.Values.{has_name as its_name};
ghost use Rattle.mg_kinds.specs.Options as rules;
ghost use Rattle.mg_kinds.specs.Code.Own.{AreOwn};
ghost use Rattle.mg_kinds.specs.Kinds.{names_of};
ghost use Rattle.mg_kinds.specs.Views.{fields_of};

use mg_config::{is, long_number_in_value};
use mg_text::{Field, TreeValue};
use std::alloc::{AllocError, Global};

/// The names of a calculator's options message, as an extension and as the type of an Any.
#[derive(Debug, Drop)]
struct OwnNames {
    extension: String,
    any: String,
}

fn own_names(alloc: Global, calculator: &str) -> Result<OwnNames, AllocError>
    ensures { IfOk result (λ names. AreOwn names calculator.now) }
{
    let extension = format!(in alloc; "[mediapipe.{calculator}Options.ext]")?;
    let any = format!(in alloc; "[type.googleapis.com/mediapipe.{calculator}Options]")?;
    Ok(OwnNames { extension, any })
}

fn is_own(names: &OwnNames, name: &[u8]) -> bool
    ensures { (calculator : List ℕ) → AreOwn names.now calculator → result ≡ rules.is_own calculator name.now }
{
    is(name, names.extension.as_bytes()) || is(name, names.any.as_bytes())
}

/// Returns the fields inside a field that is the calculator's own options message, or none if it isn't.
#[tactic(auto, using(crate::proofs::OwnFields::own_message, crate::proofs::OwnFields::other_name))]
fn own_fields<'a>(names: &OwnNames, field: &'a Field) -> Option<&'a [Field]>
    ensures { (calculator : List ℕ) → AreOwn names.now calculator → option_map (λ list. map field_view list.now) result ≡ rules.own_fields calculator (field_view field.now) }
{
    if !is_own(names, field.name.as_bytes()) {
        return None;
    }
    match &field.value {
        TreeValue::Message(tree) => Some(tree.as_slice()),
        TreeValue::Scalar(_) => None,
    }
}

#[tactic(auto, using(crate::proofs::Lists::one_appended, crate::proofs::Lists::all_appended))]
fn append<'a>(out: &mut Vec<&'a Field>, fields: &'a [Field]) -> Result<(), AllocError>
    ensures { OnOk result (fields_of out.new.items ≡ fields_of out.old.items ++ map field_view fields.now) }
{
    for field in fields {
        out.push(field)?;
    }
    Ok(())
}

/// Returns the options that stand in the fields, or none if a field isn't an options message of the calculator. Most nodes have no such
/// field, and then no name of a message is made.
pub fn options_in<'a>(
    alloc: Global,
    calculator: &str,
    fields: &'a [Field],
) -> Result<Option<Vec<&'a Field>>, AllocError>
    ensures { IfOk result (λ found. option_map (λ list. fields_of list.items) found ≡ rules.calculator_options calculator.now (map field_view fields.now)) }
{
    match fields {
        [] => Ok(Some(Vec::new(alloc))),
        _ => own_options(alloc, calculator, fields),
    }
}

// Returns what `options_in` returns, for any number of fields.
#[tactic(auto, using(crate::proofs::OwnFields::options_step, crate::proofs::OwnFields::options_other, crate::proofs::OwnFields::options_end))]
fn own_options<'a>(
    alloc: Global,
    calculator: &str,
    fields: &'a [Field],
) -> Result<Option<Vec<&'a Field>>, AllocError>
    ensures { IfOk result (λ found. option_map (λ list. fields_of list.items) found ≡ rules.calculator_options calculator.now (map field_view fields.now)) }
{
    let names = own_names(alloc, calculator)?;
    let mut out = Vec::new(alloc);
    for field in fields {
        let Some(own) = own_fields(&names, field) else {
            return Ok(None);
        };
        append(&mut out, own)?;
    }
    Ok(Some(out))
}

#[tactic(auto, using(crate::proofs::Lists::one_here, crate::proofs::Lists::one_skip, crate::proofs::Lists::one_none))]
fn is_one_of(names: &[&str], name: &[u8]) -> bool
    ensures { result ≡ among (names_of names.now) name.now }
{
    for word in names {
        if is(name, word.as_bytes()) {
            return true;
        }
    }
    false
}

/// Returns whether each option has one of these names.
#[tactic(auto, using(crate::proofs::Lists::known_not, crate::proofs::Lists::known_next, crate::proofs::Lists::known_end))]
pub fn are_known(names: &[&str], options: &[&Field]) -> bool
    ensures { result ≡ rules.are_known (names_of names.now) (fields_of options.now) }
{
    for option in options {
        if !is_one_of(names, option.name.as_bytes()) {
            return false;
        }
    }
    true
}

fn has_name(field: &Field, name: &str) -> bool
    ensures { result ≡ its_name name.now (field_view field.now) }
{
    is(field.name.as_bytes(), name.as_bytes())
}

#[tactic(auto, using(crate::proofs::Lists::counted))]
fn count_of(name: &str, options: &[&Field]) -> usize
    ensures { result ≡ count_by (its_name name.now) (fields_of options.now) }
{
    options
        .iter()
        .filter(|option| has_name(option, name))
        .count()
}

/// Returns whether none of these names is the name of two options.
#[tactic(auto, using(crate::proofs::Lists::once_not, crate::proofs::Lists::once_next, crate::proofs::Lists::once_end))]
pub fn are_once(names: &[&str], options: &[&Field]) -> bool
    ensures { result ≡ rules.are_once (names_of names.now) (fields_of options.now) }
{
    for name in names {
        if count_of(name, options) > 1 {
            return false;
        }
    }
    true
}

/// Returns what the first option of a name is set to, if there is one.
#[tactic(auto, using(crate::proofs::Lists::set_here, crate::proofs::Lists::set_skip, crate::proofs::Lists::set_none))]
pub fn set_to<'a>(name: &str, options: &[&'a Field]) -> Option<&'a TreeValue>
    ensures { option_map value_view (option_copied result) ≡ rules.set_to name.now (fields_of options.now) }
{
    for option in options {
        if has_name(option, name) {
            return Some(&option.value);
        }
    }
    None
}

/// Returns the number that an option is set to, or none if it isn't set or its value is no number of 64 signed bits.
pub fn number(name: &str, options: &[&Field]) -> Option<i64>
    ensures { result ≡ rules.number name.now (fields_of options.now) }
{
    long_number_in_value(set_to(name, options)?)
}
