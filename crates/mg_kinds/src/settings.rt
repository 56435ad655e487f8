ghost use Rattle.std.specs.Prelude.{◌≡◌, IfOk, option_map};
ghost use Rattle.mg_config.specs.Config.{node_view};
ghost use Rattle.mg_config.specs.Values.{entries};
ghost use Rattle.mg_kinds.specs.Kinds as laws;
ghost use Rattle.mg_kinds.specs.Options as rules;
ghost use Rattle.mg_kinds.specs.SettingsView.{settings_view};
ghost use Rattle.mg_kinds.specs.Views.{fields_of, plain_of};

use crate::kind::{CalculatorKind, all_options, lanes_of, single_options};
use crate::law::law_with;
use crate::options::{are_known, are_once, options_in};
use crate::payload::payloads_in;
use mg_calc::Law;
use mg_config::NodeConfig;
use mg_text::Field;
use mg_value::Payload;
use std::alloc::{AllocError, Global};
use std::sync::Arc;

/// What the options of a node set: its law, and the payloads of the side packets that it writes.
#[derive(Debug, Drop)]
pub struct Settings {
    pub law: Law,
    pub constants: Vec<Arc<Payload>>,
}

/// Returns whether a calculator has all of these options, and no option that may be set only once is set twice.
fn are_options(kind: CalculatorKind, options: &[&Field]) -> bool
    ensures { result ≡ laws.are_options kind (fields_of options.now) }
{
    are_known(all_options(kind), options) && are_once(single_options(kind), options)
}

/// Returns the payloads of the side packets that a calculator writes, or none if the options don't set just those.
fn constants_with(
    alloc: Global,
    kind: CalculatorKind,
    node: &NodeConfig,
    options: &[&Field],
) -> Result<Option<Vec<Arc<Payload>>>, AllocError>
    ensures { IfOk result (λ found. option_map (λ payloads. plain_of payloads.items) found ≡ laws.constants_with kind (node_view node.now) (fields_of options.now)) }
{
    match kind {
        CalculatorKind::Constants => {
            if options.len() != lanes_of(kind, node) as usize {
                return Ok(None);
            }
            payloads_in(alloc, options)
        }
        _ => Ok(Some(Vec::new(alloc))),
    }
}

fn settings_with(
    alloc: Global,
    kind: CalculatorKind,
    node: &NodeConfig,
    options: &[&Field],
) -> Result<Option<Settings>, AllocError>
    ensures { IfOk result (λ found. option_map settings_view found ≡ laws.settings_with kind (node_view node.now) (fields_of options.now)) }
{
    if !are_options(kind, options) {
        return Ok(None);
    }
    let Some(law) = law_with(alloc, kind, node, options)? else {
        return Ok(None);
    };
    let Some(constants) = constants_with(alloc, kind, node, options)? else {
        return Ok(None);
    };
    Ok(Some(Settings { law, constants }))
}

fn node_options<'a>(
    alloc: Global,
    node: &'a NodeConfig,
) -> Result<Option<Vec<&'a Field>>, AllocError>
    ensures { IfOk result (λ found. option_map (λ list. fields_of list.items) found ≡ rules.calculator_options (node_view node.now).calculator (entries (node_view node.now).options)) }
{
    options_in(alloc, node.calculator.as_str(), node.options.as_slice())
}

/// Returns what the options of a node set, or none if they aren't options of its calculator.
pub fn kind_settings(
    alloc: Global,
    kind: CalculatorKind,
    node: &NodeConfig,
) -> Result<Option<Settings>, AllocError>
    ensures { IfOk result (λ found. option_map settings_view found ≡ laws.kind_settings kind (node_view node.now)) }
{
    let Some(options) = node_options(alloc, node)? else {
        return Ok(None);
    };
    settings_with(alloc, kind, node, options.as_slice())
}

/// Returns whether a node has no options, but perhaps empty options messages of its calculator.
pub fn has_no_options(alloc: Global, node: &NodeConfig) -> Result<bool, AllocError>
    ensures { IfOk result (λ none. none ≡ laws.has_no_options (node_view node.now)) }
{
    match node_options(alloc, node)? {
        Some(options) => Ok(options.is_empty()),
        None => Ok(false),
    }
}
