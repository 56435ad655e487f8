//! The faults of fields, in the order of the text.
ghost use Rattle.std.specs.Prelude.{◌≡◌, ◌≢◌, OnOk, IfErr, map, not, ◌&&◌};
ghost use Rattle.mg_text.specs.View.{field_view, fields_view};
ghost use Rattle.std.specs.List.{list_any};
ghost use Rattle.mg_config.specs.Faults as faults;
ghost use Rattle.mg_config.specs.Values as values;
ghost use Rattle.mg_config.specs.Path as paths;
ghost use Rattle.mg_config.specs.Schema.{judged_by};

use crate::fault::ConfigFault;
use crate::path::{step, within};
use crate::schema::{FieldRule, Message, Shape, rule_of};
use crate::value::{has_name, has_shape};
use mg_text::{Field, TreeValue};
use mg_value::MgText;
use std::alloc::Global;

fn stands_in(fields: &[Field], name: &[u8]) -> bool
    ensures { result ≡ list_any (λ field. values.has_name name.now (field_view field)) fields.now }
{
    fields.iter().any(|field| has_name(field, name))
}

/// Whether a field, by its rule, may stand once and stands among the fields before it already.
fn is_again(rule: FieldRule, before: &[Field], name: &[u8]) -> bool
    ensures { result ≡ (not rule.many && list_any (λ field. values.has_name name.now (field_view field)) before.now) }
{
    !rule.many && stands_in(before, name)
}

/// Checks a field itself, without the fields inside it, by the rule of its name and the fields before it.
fn check_own(
    alloc: Global,
    rule: Option<FieldRule>,
    before: &[Field],
    field: &Field,
) -> Result<(), ConfigFault>
    ensures ok { OnOk result (faults.own_fault rule (map field_view before.now) (field_view field.now).name (field_view field.now).value ≡ None) }
    ensures err { IfErr result (λ fault. fault ≢ ConfigFault.OutOfMemory → faults.own_fault rule (map field_view before.now) (field_view field.now).name (field_view field.now).value ≡ Some fault) }
{
    let Some(rule) = rule else {
        return Err(ConfigFault::UnknownField {
            path: field.name.try_clone(alloc)?,
        });
    };
    if !has_shape(rule.shape, &field.value) {
        return Err(ConfigFault::WrongShape {
            path: step(alloc, rule.many, &field.name, before)?,
        });
    }
    if is_again(rule, before, field.name.as_bytes()) {
        return Err(ConfigFault::Repeated {
            path: field.name.try_clone(alloc)?,
        });
    }
    Ok(())
}

/// Returns a fault of the fields inside a field with the field in front of its path, or out of memory.
fn inside(
    alloc: Global,
    many: bool,
    before: &[Field],
    name: &MgText,
    fault: ConfigFault,
) -> ConfigFault
    ensures { result ≢ ConfigFault.OutOfMemory → (fault ≢ ConfigFault.OutOfMemory) × (result ≡ paths.within (paths.step many name.now (map field_view before.now)) fault) }
{
    match step(alloc, many, name, before) {
        Ok(place) => within(alloc, place.as_str(), fault),
        Err(_) => ConfigFault::OutOfMemory,
    }
}

/// Returns whether a field may stand more than once, and what message it is, if its rule has the fields inside it judged.
fn judged(rule: Option<FieldRule>) -> Option<(bool, Message)>
    ensures { result ≡ judged_by rule }
{
    match rule {
        Some(
            FieldRule {
                many,
                shape: Shape::Inside(message),
            },
        ) => Some((many, message)),
        _ => None,
    }
}

/// Checks the fields of a message in the order of the text, each before the fields inside it.
#[tactic(auto, using(crate::proofs::Checked::all_judged))]
pub fn check(alloc: Global, kind: Message, fields: &[Field]) -> Result<(), ConfigFault>
    ensures ok { OnOk result (faults.field_fault kind (fields_view fields.now) ≡ None) }
    ensures err { IfErr result (λ fault. fault ≢ ConfigFault.OutOfMemory → faults.field_fault kind (fields_view fields.now) ≡ Some fault) }
{
    for (i, field) in fields.iter().enumerate() {
        let before = &fields[..i];
        let rule = rule_of(kind, field.name.as_bytes());
        check_own(alloc, rule, before, field)?;
        let TreeValue::Message(tree) = &field.value else {
            continue;
        };
        let Some((many, message)) = judged(rule) else {
            continue;
        };
        if let Err(fault) = check(alloc, message, tree.as_slice()) {
            return Err(inside(alloc, many, before, &field.name, fault));
        }
    }
    Ok(())
}
