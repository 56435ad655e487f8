//! The check that each node has a calculator.
ghost use Rattle.std.specs.Prelude.{◌≡◌, ◌≢◌, [], None, Some, OnOk, IfErr, IfOk, map, codes};
ghost use Rattle.std.specs.Str.{bytes_eq};
ghost use Rattle.mg_text.specs.View.{field_view};
ghost use Rattle.mg_config.specs.Values.{messages_in, text_in};
ghost use Rattle.mg_config.specs.Faults as faults;

use crate::fault::ConfigFault;
use crate::path::{below, numbered};
use crate::value::{fields_of_value, has_name, lent_text_named};
use mg_text::Field;
use mg_value::MgText;
use std::alloc::{AllocError, Global};

fn lacks_calculator(node: &[Field]) -> bool
    ensures { result ≡ bytes_eq (text_in (codes "calculator") (map field_view node.now)) [] }
{
    lent_text_named(node, b"calculator").as_bytes().is_empty()
}

fn calculator_path(alloc: Global, k: usize) -> Result<MgText, AllocError>
    ensures { IfOk result (λ path. path ≡ faults.calculator_path k) }
{
    let calculator = MgText::new(alloc, "calculator")?;
    let node = numbered(alloc, "node", k)?;
    below(alloc, node.as_str(), calculator)
}

/// Refuses the first node whose calculator is absent or empty.
pub fn check_calculators(alloc: Global, fields: &[Field]) -> Result<(), ConfigFault>
    ensures ok { OnOk result (faults.calculator_fault 0 (messages_in (codes "node") (map field_view fields.now)) ≡ None) }
    ensures err { IfErr result (λ fault. fault ≢ ConfigFault.OutOfMemory → faults.calculator_fault 0 (messages_in (codes "node") (map field_view fields.now)) ≡ Some fault) }
{
    let mut k: usize = 0;
    for field in fields {
        if !has_name(field, b"node") {
            continue;
        }
        if lacks_calculator(fields_of_value(&field.value)) {
            return Err(ConfigFault::WrongShape {
                path: calculator_path(alloc, k)?,
            });
        }
        k += 1;
    }
    Ok(())
}
