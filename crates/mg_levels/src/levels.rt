ghost use Rattle.std.specs.Prelude.{◌≡◌, ◌≢◌, ℕ, ◌+◌, ◌<◌, ◌≤◌, ◌^◌, ◌/◌, [], if◌then◌else◌, AllPairs, Contains, IfOk, IfSome, MatchBool, MatchOption, length, map, sum, vec_capacity};
ghost use Rattle.crossbeam_queue.specs.Passes.{ruled_capacity};

use crate::level::{Queue, node_in, put_at};
use crate::making::{BUCKET, Made, make_levels};
use crate::rows::{drain_all, take_last};
use crate::seat::LevelSeat;
use mg_ready::Order;
use mg_value::NumberList;
use std::alloc::{AllocError, Global};
use std::sync::Wait;

/// The nodes that are left in the levels at the end, in no order.
pub type LeftList = NumberList;

/// Queues of nodes that may run, for threads that share them. There is one queue for each 32 places of an order of nodes
/// (MediaPipe, Synchronization: a later node goes first). A queue has room for four entries for each of its nodes.
#[derive(Drop)]
pub struct Levels {
    order: Order,
    pub(crate) queues: Vec<Queue>,
    // An empty list with room for all that may be left at the end.
    left: Vec<u32>,
    ghost levels: { length queues.items ≡ (length order + 31) / 32 },
    ghost empty: { left.items ≡ [] },
    ghost roomy: { sum (map ruled_capacity queues.items) ≤ vec_capacity left },
    ghost few: { sum (map ruled_capacity queues.items) < 2 ^ 32 },
}

impl Levels {
    ghost use Rattle.mg_levels.specs.Balance.{whole};
    ghost use Rattle.mg_levels.specs.Places.{once, times, taken_once, FoundEmptyFrom};
    ghost use Rattle.mg_levels.specs.Levels.{order_of, HasRooms, IsSeatOf, portion_of, HasDoneNothing, puts_of, takes_of, fulls_of, empties_of, FoundFullAt, TookNode, hands_of};

    /// Makes the levels of an order in which no node stands twice, all empty, and a seat that has the whole portion, 2^32.
    pub fn new(alloc: Global, order: &NumberList) -> Result<(Levels, LevelSeat), AllocError>
        requires { AllPairs (λ a b. a ≢ b) order.now }
        ensures order { IfOk result (λ r. order_of r.0 ≡ order.now) }
        ensures rooms { IfOk result (λ r. HasRooms r.0) }
        ensures seat { IfOk result (λ r. IsSeatOf r.0 r.1 × (portion_of r.1 ≡ whole) × HasDoneNothing r.1) }
    {
        let order = Order::new(alloc, order)?;
        let Made {
            queues,
            hands,
            room,
        } = make_levels(alloc, order.len())?;
        if room >= 1 << 32 {
            return Err(AllocError);
        }
        let left = Vec::with_capacity(alloc, room)?;
        let levels = Levels {
            order,
            queues,
            left,
        };
        let seat = LevelSeat {
            hands,
            portion: 1 << 32,
        };
        Ok((levels, seat))
    }

    /// Puts a node of the order into its level, after the nodes that are there, unless the level is full. Returns whether it
    /// did.
    pub fn put<R: Wait>(&self, rt: &R, seat: &mut LevelSeat, node: u32) -> bool
        requires of { IsSeatOf self.now seat.old }
        requires node { Contains (order_of self.now) node }
        ensures of { IsSeatOf self.now seat.new × (portion_of seat.new ≡ portion_of seat.old) }
        ensures puts { (n : ℕ) → puts_of (order_of self.now) n seat.new ≡ puts_of (order_of self.now) n seat.old + (if result then once n node else 0) }
        ensures takes { (n : ℕ) → takes_of (order_of self.now) n seat.new ≡ takes_of (order_of self.now) n seat.old }
        ensures empties { empties_of seat.new ≡ empties_of seat.old }
        ensures full { MatchBool result (fulls_of seat.new ≡ fulls_of seat.old) (FoundFullAt self.now node seat.old seat.new) }
    {
        let place = self.order.place_of(node);
        let level = (place / BUCKET) as usize;
        put_at(rt, &self.queues[level], &mut seat.hands[level], place)
    }

    /// Takes a node out of the last level that isn't empty: the node that was put in first. Returns `None` if each level was
    /// found empty.
    pub fn take<R: Wait>(&self, rt: &R, seat: &mut LevelSeat) -> Option<u32>
        requires of { IsSeatOf self.now seat.old }
        ensures of { IsSeatOf self.now seat.new × (portion_of seat.new ≡ portion_of seat.old) }
        ensures node { IfSome result (λ node. Contains (order_of self.now) node) }
        ensures takes { (n : ℕ) → takes_of (order_of self.now) n seat.new ≡ takes_of (order_of self.now) n seat.old + taken_once result n }
        ensures puts { (n : ℕ) → puts_of (order_of self.now) n seat.new ≡ puts_of (order_of self.now) n seat.old }
        ensures fulls { fulls_of seat.new ≡ fulls_of seat.old }
        ensures empty { MatchOption result (FoundEmptyFrom 0 (hands_of seat.old) (hands_of seat.new)) (λ node. TookNode (order_of self.now) node seat.old seat.new) }
    {
        let place = take_last(rt, &self.queues, &mut seat.hands)?;
        Some(node_in(&self.order, place))
    }

    /// Returns the nodes that are left, once every other seat was joined into this one.
    pub fn close<R: Wait>(self, rt: &R, seat: LevelSeat) -> LeftList
        requires of { IsSeatOf self seat }
        requires whole { portion_of seat ≡ whole }
        ensures { (n : ℕ) → puts_of (order_of self) n seat ≡ takes_of (order_of self) n seat + times n result }
    {
        let Levels {
            order,
            queues,
            mut left,
        } = self;
        let LevelSeat { hands, .. } = seat;
        drain_all(rt, &queues, hands, &order, &mut left);
        match NumberList::from_vec(left) {
            Ok(left) => left,
            Err(_) => unreachable!(),
        }
    }
}
