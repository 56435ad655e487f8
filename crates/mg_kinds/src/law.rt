//! The law of a calculator at a node, by the node's ports and options.
ghost use Rattle.std.specs.Prelude.{◌≡◌, IfOk};
ghost use Rattle.mg_config.specs.Config.{node_view};
ghost use Rattle.mg_kinds.specs.Kinds as laws;
ghost use Rattle.mg_kinds.specs.Views.{fields_of};

use crate::kind::{CalculatorKind, clones_of, disallows, lanes_of, moment_of};
use crate::options::{number, set_to};
use crate::said::settings_in;
use crate::tag::Tag;
use crate::value::{
    call_count, flight_limit, is_asynchronous, keep_in, positive, timestamp_number,
};
use mg_calc::{Computation, ComputationKind, Law};
use mg_config::{NodeConfig, is, truth_in_value};
use mg_text::Field;
use mg_time::Timestamp;
use std::alloc::{AllocError, Global};

/// Returns the timestamp that an output tag of a SidePacketToStreamCalculator stands for.
fn time_of(tag: Tag) -> Timestamp
    ensures { result ≡ laws.time_of tag }
{
    match tag {
        Tag::AtPreStream => Timestamp::PRE_STREAM,
        Tag::AtZero => Timestamp::of_range(0).unwrap(),
        _ => Timestamp::POST_STREAM,
    }
}

fn truth_or_false(name: &str, options: &[&Field]) -> Option<bool>
    ensures { result ≡ laws.truth_or_false name.now (fields_of options.now) }
{
    match set_to(name, options) {
        None => Some(false),
        Some(value) => truth_in_value(value),
    }
}

fn positive_or_one(name: &str, options: &[&Field]) -> Option<i64>
    ensures { result ≡ laws.positive_or_one name.now (fields_of options.now) }
{
    match set_to(name, options) {
        None => Some(1),
        Some(value) => positive(value),
    }
}

fn timestamp_or_zero(name: &str, options: &[&Field]) -> Option<i64>
    ensures { result ≡ laws.timestamp_or_zero name.now (fields_of options.now) }
{
    match set_to(name, options) {
        None => Some(0),
        Some(value) => timestamp_number(value),
    }
}

fn gate_law(node: &NodeConfig, options: &[&Field]) -> Option<Law>
    ensures { result ≡ laws.gate_law (node_view node.now) (fields_of options.now) }
{
    let empty_as_allow = truth_or_false("empty_packets_as_allow", options)?;
    Some(Law::Gate {
        lanes: lanes_of(CalculatorKind::Gate, node),
        disallow: disallows(node),
        empty_as_allow,
    })
}

fn thins(options: &[&Field]) -> bool
    ensures { result ≡ laws.thins (fields_of options.now) }
{
    match set_to("thinner_type", options) {
        None => true,
        Some(value) => is_asynchronous(value),
    }
}

fn thinner_law(options: &[&Field]) -> Option<Law>
    ensures { result ≡ laws.thinner_law (fields_of options.now) }
{
    if !thins(options) {
        return None;
    }
    let period = positive_or_one("period", options)?;
    Some(Law::Thin { period })
}

fn compute_law(
    alloc: Global,
    kind: ComputationKind,
    node: &NodeConfig,
    options: &[&Field],
) -> Result<Option<Law>, AllocError>
    ensures { IfOk result (λ law. law ≡ laws.compute_law kind (node_view node.now) (fields_of options.now)) }
{
    let settings = settings_in(alloc, kind.options(), options)?;
    let Some(formula) = kind.formula(settings.as_slice()) else {
        return Ok(None);
    };
    let wiring = kind.wiring();
    Ok(Some(Law::Compute(Computation {
        formula,
        lanes: lanes_of(CalculatorKind::Compute(kind), node),
        takes: wiring.takes,
        gives: wiring.gives,
    })))
}

fn filter_law(options: &[&Field]) -> Option<Law>
    ensures { result ≡ laws.filter_law_of (fields_of options.now) }
{
    let keep = keep_in(set_to("keep", options)?)?;
    let raise = truth_or_false("raise_bound", options)?;
    Some(Law::Filter { keep, raise })
}

fn shift_law(options: &[&Field]) -> Option<Law>
    ensures { result ≡ laws.shift_law (fields_of options.now) }
{
    let offset = number("offset", options)?;
    Some(Law::Shift { offset })
}

fn counting_law(options: &[&Field]) -> Option<Law>
    ensures { result ≡ laws.counting_law (fields_of options.now) }
{
    let count = call_count(set_to("count", options)?)?;
    let start = timestamp_or_zero("start", options)?;
    let step = positive_or_one("step", options)?;
    Some(Law::Count { count, start, step })
}

fn flight_or_one(name: &str, options: &[&Field]) -> Option<u32>
    ensures { result ≡ laws.flight_or_one name.now (fields_of options.now) }
{
    match set_to(name, options) {
        None => Some(1),
        Some(value) => flight_limit(value),
    }
}

fn limiter_law(options: &[&Field]) -> Option<Law>
    ensures { result ≡ laws.limiter_law (fields_of options.now) }
{
    let most = flight_or_one("max_in_flight", options)?;
    Some(Law::Limiter { most })
}

fn begin_law(node: &NodeConfig, options: &[&Field]) -> Option<Law>
    ensures { result ≡ laws.begin_law (node_view node.now) (fields_of options.now) }
{
    let always_end = truth_or_false("always_end", options)?;
    Some(Law::BeginLoop {
        clones: clones_of(node),
        always_end,
    })
}

fn end_law(options: &[&Field]) -> Option<Law>
    ensures { result ≡ laws.end_law (fields_of options.now) }
{
    let empty_as_bound = truth_or_false("empty_as_bound", options)?;
    Some(Law::EndLoop { empty_as_bound })
}

fn merge_law(node: &NodeConfig) -> Law
    ensures { result ≡ laws.merge_law (node_view node.now) }
{
    let lanes = lanes_of(CalculatorKind::Merge, node);
    if is(node.handler.as_bytes(), b"ImmediateInputStreamHandler") {
        Law::FirstCome { lanes }
    } else {
        Law::Merge { lanes }
    }
}

/// Returns the law of a calculator at a node with these options, or none if the options don't set it.
pub fn law_with(
    alloc: Global,
    kind: CalculatorKind,
    node: &NodeConfig,
    options: &[&Field],
) -> Result<Option<Law>, AllocError>
    ensures { IfOk result (λ law. law ≡ laws.law_with kind (node_view node.now) (fields_of options.now)) }
{
    let lanes = lanes_of(kind, node);
    match kind {
        CalculatorKind::Compute(kind) => compute_law(alloc, kind, node, options),
        CalculatorKind::PassThrough => Ok(Some(Law::Pass)),
        CalculatorKind::Gate => Ok(gate_law(node, options)),
        CalculatorKind::Mux => Ok(Some(Law::Mux { lanes })),
        CalculatorKind::Cloner => Ok(Some(Law::Cloner { lanes })),
        CalculatorKind::Merge => Ok(Some(merge_law(node))),
        CalculatorKind::Thinner => Ok(thinner_law(options)),
        CalculatorKind::Filter => Ok(filter_law(options)),
        CalculatorKind::Shift => Ok(shift_law(options)),
        CalculatorKind::Counting => Ok(counting_law(options)),
        CalculatorKind::SideToStream => Ok(Some(Law::SideOnce {
            at: time_of(moment_of(node)),
        })),
        CalculatorKind::Constants => Ok(Some(Law::Constants)),
        CalculatorKind::Loopback => Ok(Some(Law::Loopback)),
        CalculatorKind::FlowLimiter => Ok(limiter_law(options)),
        CalculatorKind::BeginLoop => Ok(begin_law(node, options)),
        CalculatorKind::EndLoop => Ok(end_law(options)),
    }
}
