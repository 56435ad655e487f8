ghost use Rattle.std.specs.Prelude.{◌≡◌, ◌<◌, ◌≤◌, ◌+◌, ◌^◌, ◌-◌, ℕ, min, [], IfSome, None};
ghost use Rattle.mg_turns.specs.Code.Plays.{Idle};
ghost use Rattle.mg_turns.specs.Sights.{kept_after, handed, joined};
ghost use Rattle.mg_turns.specs.Standings.{KnowsToo};

use crate::part::Part;
use crate::rule::{Amount, Both, Cut};
use crate::shared::SharedNet;
use crate::view::View;
use mg_calc::NodeCalculator;
use std::marker::Brand;

pub(crate) type Seat<C> = atomic_table::Seat<Option<Part<C>>, View>;

/// A seat: what a thread calls a shared net with. Between two calls it has no turn.
#[derive(Drop)]
pub struct NetSeat<C: NodeCalculator> {
    pub(crate) seat: Seat<C>,
    pub(crate) portion: u64,
    pub(crate) misses: u64,
    ghost idle: { Idle seat.me },
    ghost counted: { portion ≡ seat.me.0.portion },
    ghost missed: { misses ≡ min seat.me.0.misses (2 ^ 64 - 1) },
}

/// One more than a count, at most `u64::MAX`.
pub(crate) fn one_more(count: u64) -> u64
    ensures { (n : ℕ) → count ≡ min n (2 ^ 64 - 1) → result ≡ min (n + 1) (2 ^ 64 - 1) }
{
    count.saturating_add(1)
}

// Hands over a part of a seat's portion to a new seat. The call picks how much, as `N`.
fn cut<C: NodeCalculator, N: Amount>(
    net: &SharedNet<C>,
    seat: &mut Seat<C>,
    _portion: u64,
) -> Seat<C>
    requires { (_portion ≡ N.amount) × (seat.old.table_id ≡ net.now.table.shared.table_id) × (0 < N.amount) × (N.amount < seat.old.me.0.portion) }
    ensures seat { (seat.new.table_id ≡ seat.old.table_id) × (seat.new.me ≡ (kept_after N.amount seat.old.me.0, seat.old.me.1)) }
    ensures new { (result.table_id ≡ seat.old.table_id) × (result.me ≡ (handed N.amount seat.old.me.0, [])) }
{
    net.table.shared.split_seat::<Cut<N>>(seat)
}

impl<C: NodeCalculator> NetSeat<C> {
    ghost use Rattle.mg_turns.specs.Calls.{IsSeatOf, view_of};

    /// How often this seat found a word held, at most `u64::MAX`.
    pub fn misses(&self) -> u64
        ensures { result ≡ min (view_of self.now).misses (2 ^ 64 - 1) }
    {
        self.misses
    }

    /// This seat's portion of the whole, which is 2^32.
    pub fn portion(&self) -> u64
        ensures { result ≡ (view_of self.now).portion }
    {
        self.portion
    }

    /// Hands over `portion` of this seat's portion to a new seat, which knows what this one knows and has no work. Some must stay here.
    pub fn split(&mut self, net: &SharedNet<C>, portion: u64) -> NetSeat<C>
        requires of { IsSeatOf net.now self.old }
        requires portion { (0 < portion) × (portion < (view_of self.old).portion) }
        ensures seat { IsSeatOf net.now self.new × (view_of self.new ≡ kept_after portion (view_of self.old)) }
        ensures new { IsSeatOf net.now result × (view_of result ≡ handed portion (view_of self.old)) }
    {
        let cut = cut::<C, Brand>(net, &mut self.seat, portion);
        self.portion -= portion;
        NetSeat {
            seat: cut,
            portion,
            misses: 0,
        }
    }

    /// Takes over the other seat's portion, its work, and what it knows. No more than one of the two may have a work.
    pub fn join(&mut self, net: &SharedNet<C>, other: NetSeat<C>)
        requires of { IsSeatOf net.now self.old × IsSeatOf net.now other }
        requires portions { (view_of self.old).portion + (view_of other).portion ≤ 2 ^ 32 }
        requires work { IfSome (view_of other).work (λ _. (view_of self.old).work ≡ None) }
        ensures joined { IsSeatOf net.now self.new × (view_of self.new ≡ joined (view_of self.old) (view_of other)) }

        // The seat knows afterwards what either of the two knew.
        ensures knows { KnowsToo (view_of self.old) (view_of self.new) × KnowsToo (view_of other) (view_of self.new) }
    {
        let NetSeat {
            seat: from,
            portion,
            ..
        } = other;
        net.table.shared.join_seat::<Both>(&mut self.seat, from);
        self.portion += portion;
    }
}
