//! What one value says, and the first value of a name among fields.
ghost use Rattle.std.specs.Prelude.{◌≡◌, IfOk, option_copied, option_map, map};
ghost use Rattle.mg_text.specs.View.{value_view, field_view, fields_view};
ghost use Rattle.mg_config.specs.Values as values;
ghost use Rattle.mg_config.specs.Faults as faults;

use crate::number::{long_number_of, number_of, truth_of_number, truth_of_word};
use crate::schema::Shape;
use crate::word::is;
use mg_text::{Field, Scalar, TreeValue};
use mg_value::MgText;
use std::alloc::{AllocError, Global};

/// Whether a value has this shape.
pub fn has_shape(shape: Shape, value: &TreeValue) -> bool
    ensures { result ≡ faults.has_shape shape (value_view value.now) }
{
    match shape {
        Shape::Text => matches!(value, TreeValue::Scalar(Scalar::Quoted(_))),
        Shape::Number => number_in_value(value).is_some(),
        Shape::Truth => truth_in_value(value).is_some(),
        Shape::Options | Shape::Inside(_) => matches!(value, TreeValue::Message(_)),
    }
}

fn number_in_value(value: &TreeValue) -> Option<i32>
    ensures { result ≡ values.number_in_value (value_view value.now) }
{
    match value {
        TreeValue::Scalar(Scalar::Number(text)) => number_of(text.as_bytes()),
        _ => None,
    }
}

/// Returns the number of 64 signed bits that a value spells, or none if it spells none (Protocol
/// Buffers text format: numeric literals).
pub fn long_number_in_value(value: &TreeValue) -> Option<i64>
    ensures { result ≡ values.long_number_in_value (value_view value.now) }
{
    match value {
        TreeValue::Scalar(Scalar::Number(text)) => long_number_of(text.as_bytes()),
        _ => None,
    }
}

/// Returns the truth value that a value spells, or none if it spells none (Protocol Buffers text format: the values of Boolean fields).
pub fn truth_in_value(value: &TreeValue) -> Option<bool>
    ensures { result ≡ values.truth_in_value (value_view value.now) }
{
    match value {
        TreeValue::Scalar(Scalar::Word(text)) => truth_of_word(text.as_bytes()),
        TreeValue::Scalar(Scalar::Number(text)) => truth_of_number(text.as_bytes()),
        _ => None,
    }
}

/// Returns the text of a value, or the empty text if the value is no quoted text.
pub fn lent_text(value: &TreeValue) -> &str
    ensures { result.now ≡ values.text_of_value (value_view value.now) }
{
    match value {
        TreeValue::Scalar(Scalar::Quoted(text)) => text.as_str(),
        _ => "",
    }
}

/// Returns the fields of a value that is a message, or no fields if the value is no message.
pub fn fields_of_value(value: &TreeValue) -> &[Field]
    ensures { fields_view result.now ≡ values.fields_of_value (value_view value.now) }
{
    match value {
        TreeValue::Message(tree) => tree.as_slice(),
        _ => &[],
    }
}

/// Whether a field has this name.
#[inline(always)]
pub fn has_name(field: &Field, name: &[u8]) -> bool
    ensures { result ≡ values.has_name name.now (field_view field.now) }
{
    is(field.name.as_bytes(), name)
}

/// Returns the value of the first field of a name, or none if no field has the name.
#[tactic(auto, using(crate::proofs::Lists::values_here, crate::proofs::Lists::values_skip, crate::proofs::Lists::no_values))]
pub fn first_of<'a>(fields: &'a [Field], name: &[u8]) -> Option<&'a TreeValue>
    ensures { option_map value_view (option_copied result) ≡ values.first (values.values_of name.now (map field_view fields.now)) }
{
    for field in fields {
        if has_name(field, name) {
            return Some(&field.value);
        }
    }
    None
}

/// Returns the text of the first field of a name, or the empty text if there is none.
pub fn lent_text_named<'a>(fields: &'a [Field], name: &[u8]) -> &'a str
    ensures { result.now ≡ values.text_in name.now (map field_view fields.now) }
{
    match first_of(fields, name) {
        Some(value) => lent_text(value),
        None => "",
    }
}

/// Returns a copy of the text of the first field of a name, or the empty text if there is none.
pub fn text_named(alloc: Global, fields: &[Field], name: &[u8]) -> Result<MgText, AllocError>
    ensures { IfOk result (λ text. text ≡ values.text_in name.now (map field_view fields.now)) }
{
    MgText::new(alloc, lent_text_named(fields, name))
}

/// Returns the number of the first field of a name, or 0 if there is no such field or it spells none.
pub fn number_named(fields: &[Field], name: &[u8]) -> i32
    ensures { result ≡ values.number_in name.now (map field_view fields.now) }
{
    match first_of(fields, name) {
        Some(value) => number_in_value(value).unwrap_or(0),
        None => 0,
    }
}

/// Returns the truth value of the first field of a name, or false if there is no such field or it spells none.
pub fn truth_named(fields: &[Field], name: &[u8]) -> bool
    ensures { result ≡ values.truth_in name.now (map field_view fields.now) }
{
    match first_of(fields, name) {
        Some(value) => truth_in_value(value).unwrap_or(false),
        None => false,
    }
}

/// Returns the fields inside the first field of a name, or no fields if there is no such field or it is no message.
pub fn message_named<'a>(fields: &'a [Field], name: &[u8]) -> &'a [Field]
    ensures { fields_view result.now ≡ values.message_in name.now (map field_view fields.now) }
{
    match first_of(fields, name) {
        Some(value) => fields_of_value(value),
        None => &[],
    }
}
