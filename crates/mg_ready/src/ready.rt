ghost use Rattle.std.specs.Prelude.{◌≡◌, ◌≢◌, ◌<◌, AllPairs, Contains, count_by, IfOk, IfSome, IfNone};
ghost use Rattle.mg_ready.specs.Ready.{none_ready, IsIn, IsEmpty, IsHighest, ChangesOnly};

use crate::order::Order;
use crate::places::Places;
use mg_value::NumberList;
use std::alloc::{AllocError, Global};
use std::marker::Model;

/// A set of nodes that may run. The one that stands last in an order goes first (MediaPipe, Synchronization). A call looks at no more than
/// a bucket of 32 places, and `take` at a word for each 2,048 nodes. Only `new` takes memory: it keeps a table with a place for each number
/// up to the greatest of a node.
#[derive(Drop)]
pub struct Ready {
    order: Order,
    places: Places,
}

impl Model for Ready {
    ghost use Rattle.std.specs.Prelude.{◌≡◌, length};
    ghost use Rattle.mg_ready.specs.Ready.{ReadyNodes};

    ghost Value = { ReadyNodes };

    ghost view = { λ r. record { order = r.order; is_in = r.places } };

    ghost invariant = { λ r. length r.places ≡ length r.order };
}

impl Ready {
    /// Returns an empty set of nodes with this order, in which no node stands twice.
    pub fn new(alloc: Global, order: &NumberList) -> Result<Ready, AllocError>
        requires { AllPairs (λ a b. a ≢ b) order.now }
        ensures { IfOk result (λ r. r ≡ none_ready order.now) }
    {
        let order = Order::new(alloc, order)?;
        let places = Places::new(alloc, order.len())?;
        Ok(Ready { order, places })
    }

    /// Puts a node of the order into the set. A node that is in stays in.
    #[inline(never)]
    pub fn put(&mut self, node: u32)
        requires { Contains self.old.order node }
        ensures put { IsIn self.new node }
        ensures only { ChangesOnly self.old self.new node }
    {
        let place = self.order.place_of(node);
        if !self.places.contains(place) {
            self.places.insert(place);
        }
    }

    /// Takes out the node of the highest priority, the last one in the order, or returns `None` if the set is empty.
    pub fn take(&mut self) -> Option<u32>
        ensures order { self.new.order ≡ self.old.order }
        ensures none { IfNone result (IsEmpty self.old) }
        ensures unchanged { IfNone result (self.new ≡ self.old) }
        ensures highest { IfSome result (λ node. IsHighest self.old node) }
        ensures taken { IfSome result (λ node. ¬ IsIn self.new node) }
        ensures only { IfSome result (λ node. ChangesOnly self.old self.new node) }
        ensures fewer { IfSome result (λ _. count_by (λ b. b) self.new.is_in < count_by (λ b. b) self.old.is_in) }
    {
        let place = self.places.last()?;
        self.places.remove(place);
        Some(self.order.node_at(place))
    }

    /// Takes a node of the order out of the set, if it is in.
    pub fn drop_node(&mut self, node: u32)
        requires { Contains self.old.order node }
        ensures dropped { ¬ IsIn self.new node }
        ensures only { ChangesOnly self.old self.new node }
    {
        let place = self.order.place_of(node);
        if self.places.contains(place) {
            self.places.remove(place);
        }
    }
}
