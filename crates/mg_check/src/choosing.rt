//! The choice of a calculator for each node: a built-in one or a user-supplied one.
ghost use Rattle.std.specs.Prelude.{◌≡◌, ◌≢◌, ◌++◌, ◌∷◌, [], None, Some, IfOk, IfErr, OnOk, List, map};
ghost use Rattle.mg_config.specs.Config.{node_view, NodeView};
ghost use Rattle.mg_kinds.specs.Kinds.{kind_at as its_kind};
ghost use Rattle.mg_calc.specs.declared.shape.OuterShape.{OuterShape as Outers};
ghost use Rattle.mg_check.specs.Choosing as rules;
ghost use Rattle.mg_check.specs.Code.Choices.{IsStock, IsWanted, AreChosen, choices_view, too_few_of, short_in};

use crate::fault::CheckFault;
use crate::groups::Groups;
use crate::node_kind::NodeKind;
use mg_calc::OuterShape;
use mg_config::NodeConfig;
use mg_kinds::kind_at;
use std::alloc::{AllocError, Global};

/// A node, and the calculator that works at it.
#[derive(Clone, Copy)]
pub struct Choice<'a> {
    pub node: &'a NodeConfig,
    pub kind: NodeKind,
}

/// The nodes for which there is a calculator, each with its calculator, and the places of the nodes that name each calculator.
#[derive(Drop)]
pub struct Choices<'a> {
    pub list: Vec<Choice<'a>>,
    pub wanted: Groups,
}

/// Returns a place as a number of 32 bits, or out of memory if the place is too large. There is no memory for a list with such a place.
pub fn number_of(place: usize) -> Result<u32, AllocError>
    ensures { IfOk result (λ number. number ≡ place) }
{
    if place < 1 << 32 {
        Ok(place as u32)
    } else {
        Err(AllocError)
    }
}

/// Returns the numbers of the user-supplied calculators, by their names.
pub fn stock_of(alloc: Global, outers: &[OuterShape]) -> Result<Groups, AllocError>
    ensures { IfOk result (λ stock. IsStock stock outers.now) }
{
    let mut stock = Groups::new(alloc);
    for (place, outer) in outers.iter().enumerate() {
        stock.add(alloc, outer.shape.name.as_bytes(), number_of(place)?)?;
    }
    Ok(stock)
}

fn kind_for(node: &NodeConfig, numbers: &[u32], taken: usize) -> Option<NodeKind>
    ensures { result ≡ rules.kind_by (its_kind (node_view node.now)) numbers.now taken }
{
    match kind_at(node) {
        Some(kind) => Some(NodeKind::BuiltIn(kind)),
        None => match numbers.get(taken) {
            Some(number) => Some(NodeKind::Outer(*number)),
            None => None,
        },
    }
}

fn push_choice<'a>(
    list: &mut Vec<Choice<'a>>,
    node: &'a NodeConfig,
    kind: Option<NodeKind>,
) -> Result<(), AllocError>
    ensures { OnOk result (choices_view list.new.items ≡ choices_view list.old.items ++ rules.with_kind kind (node_view node.now) []) }
{
    if let Some(kind) = kind {
        list.push(Choice { node, kind })?;
    }
    Ok(())
}

// Counts a node among those that want a user-supplied calculator of its name, if it has no built-in one.
fn count_node(
    alloc: Global,
    wanted: &mut Groups,
    node: &NodeConfig,
    place: usize,
) -> Result<(), AllocError>
    ensures { OnOk result ((before : List NodeView) → IsWanted wanted.old before → IsWanted wanted.new (before ++ node_view node.now ∷ [])) }
{
    if kind_at(node).is_none() {
        wanted.add(alloc, node.calculator.as_bytes(), number_of(place)?)?;
    }
    Ok(())
}

/// Chooses a calculator for each node: its built-in calculator, or else the next user-supplied calculator of the name that it asks for.
pub fn choices_of<'a>(
    alloc: Global,
    nodes: &'a [NodeConfig],
    stock: &Groups,
) -> Result<Choices<'a>, AllocError>
    ensures { IfOk result (λ choices. AreChosen choices stock.now (map node_view nodes.now)) }
{
    let mut list = Vec::new(alloc);
    let mut wanted = Groups::new(alloc);
    for (place, node) in nodes.iter().enumerate() {
        let name = node.calculator.as_bytes();
        let kind = kind_for(node, stock.get(name), wanted.get(name).len());
        push_choice(&mut list, node, kind)?;
        count_node(alloc, &mut wanted, node, place)?;
    }
    Ok(Choices { list, wanted })
}

fn is_unknown(node: &NodeConfig, stock: &Groups) -> bool
    ensures { (outers : List Outers) → IsStock stock.now outers → result ≡ rules.is_unknown outers (node_view node.now) }
{
    let name = node.calculator.as_bytes();
    kind_at(node).is_none() && stock.get(name).is_empty()
}

/// Refuses the first node whose calculator is neither built in nor user-supplied.
pub fn check_known(nodes: &[NodeConfig], stock: &Groups) -> Result<(), CheckFault>
    ensures ok { OnOk result ((outers : List Outers) → IsStock stock.now outers → rules.unknown_calculator outers (map node_view nodes.now) ≡ None) }
    ensures err { IfErr result (λ fault. fault ≢ CheckFault.OutOfMemory → (outers : List Outers) → IsStock stock.now outers → rules.unknown_calculator outers (map node_view nodes.now) ≡ Some fault) }
{
    for (place, node) in nodes.iter().enumerate() {
        if is_unknown(node, stock) {
            return Err(CheckFault::UnknownCalculator {
                node: number_of(place)?,
            });
        }
    }
    Ok(())
}

fn is_short(node: &NodeConfig, stock: &Groups, wanted: &Groups) -> bool
    ensures { (outers : List Outers) (nodes : List NodeView) → IsStock stock.now outers → IsWanted wanted.now nodes → result ≡ rules.is_short outers nodes (node_view node.now) }
{
    let name = node.calculator.as_bytes();
    kind_at(node).is_none() && stock.get(name).len() < wanted.get(name).len()
}

fn too_few(
    alloc: Global,
    node: &NodeConfig,
    stock: &Groups,
    wanted: &Groups,
) -> Result<CheckFault, AllocError>
    ensures { IfOk result (λ fault. (outers : List Outers) (nodes : List NodeView) → IsStock stock.now outers → IsWanted wanted.now nodes → fault ≡ too_few_of outers nodes (node_view node.now)) }
{
    let name = node.calculator.as_bytes();
    let has = number_of(stock.get(name).len())?;
    let needs = number_of(wanted.get(name).len())?;
    Ok(CheckFault::NoMoreBoxes {
        name: node.calculator.try_clone(alloc)?,
        has,
        needs,
    })
}

/// Refuses the first node whose calculator more nodes want than there are user-supplied calculators of its name.
pub fn check_boxes(
    alloc: Global,
    nodes: &[NodeConfig],
    stock: &Groups,
    wanted: &Groups,
) -> Result<(), CheckFault>
    ensures ok { OnOk result ((outers : List Outers) (all : List NodeView) → IsStock stock.now outers → IsWanted wanted.now all → short_in outers all (map node_view nodes.now) ≡ None) }
    ensures err { IfErr result (λ fault. fault ≢ CheckFault.OutOfMemory → (outers : List Outers) (all : List NodeView) → IsStock stock.now outers → IsWanted wanted.now all → short_in outers all (map node_view nodes.now) ≡ Some fault) }
{
    for node in nodes {
        if is_short(node, stock, wanted) {
            return Err(too_few(alloc, node, stock, wanted)?);
        }
    }
    Ok(())
}
