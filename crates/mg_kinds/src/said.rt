//! What the options of a computation say.
ghost use Rattle.std.specs.Prelude.{◌≡◌, IfOk, map, option_copied, option_map};
ghost use Rattle.mg_text.specs.View.{value_view};
ghost use Rattle.mg_calc.specs.Row.{said};
ghost use Rattle.mg_kinds.specs.Kinds.{names_of, said_by, settings_of};
ghost use Rattle.mg_kinds.specs.Options.{set_to as its_value};
ghost use Rattle.mg_kinds.specs.Views.{fields_of};

use crate::options::set_to;
use crate::value::word_in;
use mg_calc::Setting;
use mg_config::long_number_in_value;
use mg_text::{Field, TreeValue};
use std::alloc::{AllocError, Global};

fn setting_of<'a>(value: Option<&'a TreeValue>) -> Setting<'a>
    ensures { said result ≡ said_by (option_map value_view (option_copied value.entry)) }
{
    match value {
        None => Setting {
            number: None,
            word: b"",
        },
        Some(value) => Setting {
            number: long_number_in_value(value),
            word: word_in(value),
        },
    }
}

fn setting_named<'a>(name: &str, options: &[&'a Field]) -> Setting<'a>
    ensures { said result ≡ said_by (its_value name.now (fields_of options.now)) }
{
    setting_of(set_to(name, options))
}

/// Returns what the options of these names say, in this order.
#[tactic(auto, using(crate::proofs::Lists::one_said, crate::proofs::Lists::all_said))]
pub fn settings_in<'a>(
    alloc: Global,
    names: &[&str],
    options: &[&'a Field],
) -> Result<Vec<Setting<'a>>, AllocError>
    ensures { IfOk result (λ settings. map said settings.items ≡ settings_of (names_of names.now) (fields_of options.now)) }
{
    let mut settings = Vec::new(alloc);
    for name in names {
        settings.push(setting_named(name, options))?;
    }
    Ok(settings)
}
