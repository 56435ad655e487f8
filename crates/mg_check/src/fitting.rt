//! What a node gets from its calculator: its ports, its settings, its input policy, and its shape.
ghost use Rattle.std.specs.Prelude.{◌≡◌, IfOk, option_map};
ghost use Rattle.mg_config.specs.Config.{node_view};
ghost use Rattle.mg_kinds.specs.SettingsView.{settings_view};
ghost use Rattle.mg_check.specs.Fitting as rules;

use crate::node_kind::NodeKind;
use mg_calc::{Law, OuterShape, Shape, TryClone};
use mg_config::{NodeConfig, is};
use mg_kinds::{Ports, Settings, has_just, has_no_options, kind_ports, kind_settings, shape_of};
use mg_value::Policy;
use std::alloc::{AllocError, Global};

fn may_be_outer(law: &Law) -> bool
    ensures { result ≡ rules.may_be_outer law.now }
{
    match law {
        Law::Count { .. } => false,
        Law::SideOnce { .. } => false,
        Law::Constants => false,
        Law::Loopback => false,
        Law::FirstCome { .. } => false,
        Law::Limiter { .. } => false,
        _ => true,
    }
}

fn fits_outer(node: &NodeConfig, outer: &OuterShape) -> bool
    ensures { result ≡ rules.fits_outer (node_view node.now) outer.now }
{
    may_be_outer(&outer.law)
        && has_just(&node.inputs, &outer.shape.inputs)
        && has_just(&node.outputs, &outer.shape.outputs)
        && has_just(&node.input_sides, &outer.shape.sides)
        && node.output_sides.is_empty()
}

fn outer_ports(
    alloc: Global,
    node: &NodeConfig,
    outer: &OuterShape,
) -> Result<Option<Ports>, AllocError>
    ensures { IfOk result (λ found. found ≡ rules.outer_ports (node_view node.now) outer.now) }
{
    if !fits_outer(node, outer) {
        return Ok(None);
    }
    let inputs = outer.shape.inputs.try_clone(alloc)?;
    let outputs = outer.shape.outputs.try_clone(alloc)?;
    let sides = outer.shape.sides.try_clone(alloc)?;
    Ok(Some(Ports {
        inputs,
        outputs,
        sides,
    }))
}

/// Returns the ports that a calculator has at a node, or none if the node's streams and side packets don't fit the calculator.
pub fn node_ports(
    alloc: Global,
    outers: &[OuterShape],
    node: &NodeConfig,
    kind: NodeKind,
) -> Result<Option<Ports>, AllocError>
    ensures { IfOk result (λ found. found ≡ rules.node_ports outers.now (node_view node.now) kind) }
{
    match kind {
        NodeKind::BuiltIn(kind) => kind_ports(alloc, kind, node),
        NodeKind::Outer(number) => match outers.get(number as usize) {
            Some(outer) => outer_ports(alloc, node, outer),
            None => Ok(None),
        },
    }
}

fn outer_settings(
    alloc: Global,
    node: &NodeConfig,
    outer: &OuterShape,
) -> Result<Option<Settings>, AllocError>
    ensures { IfOk result (λ found. option_map settings_view found ≡ rules.outer_settings (node_view node.now) outer.now) }
{
    if !has_no_options(alloc, node)? {
        return Ok(None);
    }
    let law = outer.law.try_clone(alloc)?;
    Ok(Some(Settings {
        law,
        constants: Vec::new(alloc),
    }))
}

/// Returns the law and the side packets that the options of a node set, or none if they aren't options of its calculator.
pub fn node_settings(
    alloc: Global,
    outers: &[OuterShape],
    node: &NodeConfig,
    kind: NodeKind,
) -> Result<Option<Settings>, AllocError>
    ensures { IfOk result (λ found. option_map settings_view found ≡ rules.node_settings outers.now (node_view node.now) kind) }
{
    match kind {
        NodeKind::BuiltIn(kind) => kind_settings(alloc, kind, node),
        NodeKind::Outer(number) => match outers.get(number as usize) {
            Some(outer) => outer_settings(alloc, node, outer),
            None => Ok(None),
        },
    }
}

fn own_policy(law: &Law) -> Policy
    ensures { result ≡ rules.own_policy law.now }
{
    match law {
        Law::Mux { .. } => Policy::Mux,
        _ => Policy::Default,
    }
}

fn mux_policy(law: &Law) -> Option<Policy>
    ensures { result ≡ rules.mux_policy law.now }
{
    match law {
        Law::Mux { .. } => Some(Policy::Mux),
        _ => None,
    }
}

fn default_policy(law: &Law) -> Option<Policy>
    ensures { result ≡ rules.default_policy law.now }
{
    match law {
        Law::Limiter { .. } => None,
        _ => Some(Policy::Default),
    }
}

fn immediate_policy(law: &Law) -> Option<Policy>
    ensures { result ≡ rules.immediate_policy law.now }
{
    match law {
        Law::FirstCome { .. } => Some(Policy::Default),
        Law::Limiter { .. } => Some(Policy::Default),
        _ => None,
    }
}

/// Returns the input policy that a node with this law has by the name of its handler, or none if it can't have that
/// policy. Without a name it has the policy of its law.
pub fn policy_of(law: &Law, handler: &[u8]) -> Option<Policy>
    ensures { result ≡ rules.policy_of law.now handler.now }
{
    if is(handler, b"") {
        Some(own_policy(law))
    } else if is(handler, b"DefaultInputStreamHandler") {
        default_policy(law)
    } else if is(handler, b"MuxInputStreamHandler") {
        mux_policy(law)
    } else if is(handler, b"ImmediateInputStreamHandler") {
        immediate_policy(law)
    } else {
        None
    }
}

/// Returns the shape of a node's calculator, or none if there is no such user-supplied calculator.
pub fn node_shape(
    alloc: Global,
    outers: &[OuterShape],
    node: &NodeConfig,
    kind: NodeKind,
    ports: Ports,
    law: &Law,
) -> Result<Option<Shape>, AllocError>
    ensures { IfOk result (λ made. made ≡ rules.node_shape outers.now (node_view node.now) kind ports law.now) }
{
    match kind {
        NodeKind::BuiltIn(_) => Ok(Some(shape_of(alloc, &node.calculator, ports, law)?)),
        NodeKind::Outer(number) => match outers.get(number as usize) {
            Some(outer) => Ok(Some(outer.shape.try_clone(alloc)?)),
            None => Ok(None),
        },
    }
}
