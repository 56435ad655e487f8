//! The draft of one node, or what is wrong with it.
ghost use Rattle.std.specs.Prelude.{◌≡◌, ◌==◌, ◌&&◌, IfOk, not, option_map};
ghost use Rattle.std.specs.Str.{bytes_eq};
ghost use Rattle.std.specs.List.{list_any};
ghost use Rattle.mg_config.specs.Config.{node_view};
ghost use Rattle.mg_kinds.specs.SettingsView.{settings_view};
ghost use Rattle.mg_check.specs.Drafts as rules;
ghost use Rattle.mg_check.specs.DraftView.{draft_view};
ghost use Rattle.mg_check.specs.Fitting.{node_shape as its_shape};
ghost use Rattle.mg_check.specs.Code.Choices.{chosen_at};
ghost use Rattle.mg_check.specs.Code.Judged.{Judges};

use crate::draft::Draft;
use crate::fitting::{node_ports, node_settings, node_shape, policy_of};
use crate::node_kind::NodeKind;
use crate::port_texts::port_texts;
use mg_calc::{Law, OuterShape};
use mg_config::{Mark, NodeConfig, is};
use mg_kinds::{Ports, Settings};
use mg_value::{MgText, Policy};
use std::alloc::{AllocError, Global};

/// What is wrong with a node by itself.
#[derive(Clone, Copy, Debug, PartialEq, Eq)]
pub enum Wrong {
    /// The node's streams or side packets don't fit its calculator.
    Ports,
    /// The node's options aren't those of its calculator.
    Options,
    /// The node asks for an input policy that it can't have.
    Policy,
}

/// What a node is that fits its calculator: who does its work, its ports, what its options set, and its input policy.
struct Fitted {
    kind: NodeKind,
    ports: Ports,
    settings: Settings,
    policy: Policy,
}

fn label_of(alloc: Global, node: &NodeConfig) -> Result<MgText, AllocError>
    ensures { IfOk result (λ label. label ≡ rules.label_of (node_view node.now)) }
{
    if is(node.name.as_bytes(), b"") {
        node.calculator.try_clone(alloc)
    } else {
        node.name.try_clone(alloc)
    }
}

fn up_to_64(most: i32) -> u32
    ensures { result ≡ rules.up_to_64 most }
{
    if most < 1 {
        1
    } else if most > 64 {
        64
    } else {
        most as u32
    }
}

fn flight_of(box_number: Option<u32>, stateless: bool, most: i32) -> u32
    ensures { result ≡ rules.flight_of box_number stateless most }
{
    if box_number.is_none() && stateless {
        up_to_64(most)
    } else {
        1
    }
}

fn box_of(kind: NodeKind) -> Option<u32>
    ensures { result ≡ rules.box_of kind }
{
    match kind {
        NodeKind::BuiltIn(_) => None,
        NodeKind::Outer(number) => Some(number),
    }
}

fn is_at_tag(word: &[u8], mark: &Mark) -> bool
    ensures { result ≡ (bytes_eq mark.now.tag word.now && (mark.now.index == 0)) }
{
    is(mark.tag.as_bytes(), word) && mark.index == 0
}

fn may_be_back(law: &Law, mark: &Mark) -> bool
    ensures { result ≡ rules.may_be_back law.now mark.now }
{
    match law {
        Law::Loopback => is_at_tag(b"LOOP", mark),
        Law::Limiter { .. } => is_at_tag(b"FINISHED", mark),
        _ => false,
    }
}

fn back_port(law: &Law) -> u32
    ensures { result ≡ rules.back_port law.now }
{
    match law {
        Law::Limiter { .. } => 1,
        _ => 0,
    }
}

fn is_back(law: &Law, marks: &[Mark]) -> bool
    ensures { result ≡ list_any (rules.may_be_back law.now) marks.now }
{
    marks.iter().any(|mark| may_be_back(law, mark))
}

fn back_of(law: &Law, marks: &[Mark]) -> Option<u32>
    ensures { result ≡ rules.back_of law.now marks.now }
{
    if is_back(law, marks) {
        Some(back_port(law))
    } else {
        None
    }
}

fn is_misplaced(law: &Law, marks: &[Mark]) -> bool
    ensures { result ≡ list_any (λ mark. not (rules.may_be_back law.now mark)) marks.now }
{
    marks.iter().any(|mark| !may_be_back(law, mark))
}

fn drafted<'a>(
    alloc: Global,
    outers: &[OuterShape],
    node: &'a NodeConfig,
    fitted: Fitted,
) -> Result<Option<Draft<'a>>, AllocError>
    ensures { IfOk result (λ draft. option_map draft_view draft ≡ option_map (rules.draft_with (node_view node.now) fitted.kind fitted.ports (settings_view fitted.settings) fitted.policy) (its_shape outers.now (node_view node.now) fitted.kind fitted.ports fitted.settings.law)) }
{
    let Fitted {
        kind,
        ports,
        settings,
        policy,
    } = fitted;
    let texts = port_texts(alloc, node, &ports)?;
    let label = label_of(alloc, node)?;
    let Some(shape) = node_shape(alloc, outers, node, kind, ports, &settings.law)? else {
        return Ok(None);
    };
    let box_number = box_of(kind);
    let in_flight = flight_of(box_number, shape.stateless, node.max_in_flight);
    let back = back_of(&settings.law, node.back_marks.as_slice());
    let misplaced = is_misplaced(&settings.law, node.back_marks.as_slice());
    Ok(Some(Draft {
        label,
        law: settings.law,
        shape,
        inputs: texts.inputs,
        outputs: texts.outputs,
        sides: texts.sides,
        side_outputs: texts.side_outputs,
        constants: settings.constants,
        in_flight,
        box_number,
        policy,
        back,
        misplaced,
    }))
}

/// Returns the draft of a node, or what is wrong with it; the outer error is out of memory.
pub fn judged<'a>(
    alloc: Global,
    outers: &[OuterShape],
    node: &'a NodeConfig,
    kind: NodeKind,
) -> Result<Result<Draft<'a>, Wrong>, AllocError>
    ensures { IfOk result (λ answer. Judges outers.now (chosen_at (node_view node.now) kind) answer) }
{
    let Some(ports) = node_ports(alloc, outers, node, kind)? else {
        return Ok(Err(Wrong::Ports));
    };
    let Some(settings) = node_settings(alloc, outers, node, kind)? else {
        return Ok(Err(Wrong::Options));
    };
    let Some(policy) = policy_of(&settings.law, node.handler.as_bytes()) else {
        return Ok(Err(Wrong::Policy));
    };
    let fitted = Fitted {
        kind,
        ports,
        settings,
        policy,
    };
    match drafted(alloc, outers, node, fitted)? {
        Some(draft) => Ok(Ok(draft)),
        None => unreachable!(),
    }
}
