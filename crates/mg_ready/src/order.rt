//! An order of nodes, with the place of each.
ghost use Rattle.std.specs.Prelude.{◌≡◌, ◌≢◌, ℕ, ◌^◌, ◌<◌, All, AllPairs, Contains, length, IfOk, Some, slice_get, slice_index};
ghost use Rattle.mg_ready.specs.Code.Table.{IsTable};

use mg_value::NumberList;
use std::alloc::{AllocError, Global};
use std::marker::Model;

/// An order of nodes in which no node stands twice, with the place of each. It keeps a table with a place for each number up to the
/// greatest of a node.
#[derive(Drop)]
pub struct Order {
    nodes: Vec<u32>,
    places: Vec<u32>,
}

impl Model for Order {
    ghost use Rattle.std.specs.Prelude.{List, ℕ};
    ghost use Rattle.mg_ready.specs.Code.Table.{IsKept};

    ghost Value = { List ℕ };

    ghost view = { λ o. o.nodes.items };

    ghost invariant = { λ o. IsKept o.nodes.items o.places.items };
}

// Returns how long a table has to be for a place at each of these numbers.
fn table_len(order: &[u32]) -> usize
    ensures { All (λ node. node < result) order.now }
{
    let mut len = 0;
    for node in order {
        len = len.max(*node as usize + 1);
    }
    len
}

// Returns a table of `len` zeros.
fn zeros(alloc: Global, len: usize) -> Result<Vec<u32>, AllocError>
    ensures { IfOk result (λ v. length v.items ≡ len) }
{
    vec![in alloc; 0; len]
}

// Returns a table with the place of each node of an order, by the node's number.
fn places_of(alloc: Global, order: &[u32]) -> Result<Vec<u32>, AllocError>
    requires few { length order.now < 2 ^ 32 }
    requires distinct { AllPairs (λ a b. a ≢ b) order.now }
    ensures { IfOk result (λ v. IsTable order.now v.items) }
{
    let mut places = zeros(alloc, table_len(order))?;
    for (place, node) in order.iter().enumerate() {
        places[*node as usize] = place as u32;
    }
    Ok(places)
}

impl Order {
    /// Returns the order of these nodes, which are all different.
    pub fn new(alloc: Global, order: &NumberList) -> Result<Order, AllocError>
        requires { AllPairs (λ a b. a ≢ b) order.now }
        ensures { IfOk result (λ o. o ≡ order.now) }
    {
        let _count = order.len();
        let places = places_of(alloc, order.as_slice())?;
        let nodes = order.as_slice().to_vec(alloc)?;
        Ok(Order { nodes, places })
    }

    /// Returns how many nodes the order has.
    pub fn len(&self) -> u32
        ensures { result ≡ length self.now }
    {
        self.nodes.len() as u32
    }

    /// Returns the place of a node of the order, counted from 0.
    pub fn place_of(&self, node: u32) -> u32
        requires { Contains self.now node }
        ensures at { slice_get self.now result ≡ Some node }
        ensures only { (place : ℕ) → place < length self.now → slice_index self.now place ≡ node → place ≡ result }
    {
        self.places[node as usize]
    }

    /// Returns the node at a place, counted from 0.
    pub fn node_at(&self, place: u32) -> u32
        requires { place < length self.now }
        ensures at { slice_get self.now place ≡ Some result }
        ensures only { (other : ℕ) → other < length self.now → slice_index self.now other ≡ result → other ≡ place }
    {
        self.nodes[place as usize]
    }
}
