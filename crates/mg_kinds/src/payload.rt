//! Side packets that stand in the graph.
ghost use Rattle.std.specs.Prelude.{◌≡◌, IfOk, option_map, map};
ghost use Rattle.mg_text.specs.View.{field_view, value_view};
ghost use Rattle.mg_value.specs.Payload.{plain, text as text_of};
ghost use Rattle.mg_kinds.specs.Values as values;
ghost use Rattle.mg_kinds.specs.Views.{fields_of, plain_of};

use mg_config::{is, long_number_in_value, truth_in_value};
use mg_text::{Field, Scalar, TreeValue};
use mg_value::{MgText, Payload};
use std::alloc::{AllocError, Global};
use std::sync::Arc;

fn text_in_value(value: &TreeValue) -> Option<&MgText>
    ensures { option_map (λ text. text.now) result ≡ values.text_in_value (value_view value.now) }
{
    match value {
        TreeValue::Scalar(Scalar::Quoted(text)) => Some(text),
        _ => None,
    }
}

fn text_payload(alloc: Global, value: &TreeValue) -> Result<Option<Payload>, AllocError>
    ensures { IfOk result (λ found. option_map plain found ≡ option_map text_of (values.text_in_value (value_view value.now))) }
{
    match text_in_value(value) {
        Some(text) => Ok(Some(Payload::Text(text.try_clone(alloc)?))),
        None => Ok(None),
    }
}

fn payload_of(alloc: Global, field: &Field) -> Result<Option<Payload>, AllocError>
    ensures { IfOk result (λ found. option_map plain found ≡ values.payload_of (field_view field.now)) }
{
    if is(field.name.as_bytes(), b"int_value") {
        Ok(long_number_in_value(&field.value).map(|n| Payload::Int(n)))
    } else if is(field.name.as_bytes(), b"bool_value") {
        Ok(truth_in_value(&field.value).map(|b| Payload::Flag(b)))
    } else if is(field.name.as_bytes(), b"string_value") {
        text_payload(alloc, &field.value)
    } else {
        Ok(None)
    }
}

fn only_payload(alloc: Global, fields: &[Field]) -> Result<Option<Payload>, AllocError>
    ensures { IfOk result (λ found. option_map plain found ≡ values.payload_by (map field_view fields.now)) }
{
    if fields.len() == 1 {
        payload_of(alloc, &fields[0])
    } else {
        Ok(None)
    }
}

fn payload_in(alloc: Global, value: &TreeValue) -> Result<Option<Payload>, AllocError>
    ensures { IfOk result (λ found. option_map plain found ≡ values.payload_in (value_view value.now)) }
{
    match value {
        TreeValue::Message(tree) => only_payload(alloc, tree.as_slice()),
        TreeValue::Scalar(_) => Ok(None),
    }
}

/// Returns the payload that each option's value gives, in order, or none if one of the values gives none.
#[tactic(auto, using(crate::proofs::Payloads::payloads_step, crate::proofs::Payloads::payloads_other, crate::proofs::Payloads::payloads_end))]
pub fn payloads_in(
    alloc: Global,
    options: &[&Field],
) -> Result<Option<Vec<Arc<Payload>>>, AllocError>
    ensures { IfOk result (λ found. option_map (λ payloads. plain_of payloads.items) found ≡ values.payloads_in (map (λ field. field.value) (fields_of options.now))) }
{
    let mut payloads = Vec::new(alloc);
    for option in options {
        let Some(payload) = payload_in(alloc, &option.value)? else {
            return Ok(None);
        };
        payloads.push(Arc::new(alloc, payload)?)?;
    }
    Ok(Some(payloads))
}
