// What a thread has done at a level, and the rule by which all threads use it.

use crossbeam_queue::protocol::{Join, Lesson, Outcome, Protocol, Split};
use std::collections::LinkedList;
use std::marker::{Brand, PhantomData};

// What a thread has of a level: a portion of the whole, and the places that it put in and took out. No value of it is made.
pub struct Share {
    pub portion: u64,
    pub put: LinkedList<u32>,
    pub taken: LinkedList<u32>,
}

// The rule of a level: what was put in is what was taken out and what is there.
pub struct Balance;

impl Protocol<u32, Share> for Balance {
    ghost use Rattle.std.specs.Prelude.{[]};
    ghost use Rattle.mg_levels.specs.Balance.{share, whole, Balanced};

    ghost holds = { Balanced };

    ghost first = { share whole [] [] };
}

/// A place is put in, or the level is full.
pub struct Puts;

impl Outcome<u32, Share> for Puts {
    ghost use Rattle.std.specs.Prelude.{◌≡◌};
    ghost use Rattle.mg_levels.specs.Balance.{with_put};

    ghost then = { λ v x w. w ≡ with_put v x };
}

impl Lesson<u32, Share> for Puts {
    ghost use Rattle.mg_levels.specs.Balance.{Knows};

    ghost fact = { Knows };
}

/// A place is taken out, or the level is empty.
pub struct Takes;

impl Outcome<u32, Share> for Takes {
    ghost use Rattle.std.specs.Prelude.{◌≡◌};
    ghost use Rattle.mg_levels.specs.Balance.{with_taken};

    ghost then = { λ v x w. w ≡ with_taken v x };
}

impl Lesson<u32, Share> for Takes {
    ghost use Rattle.mg_levels.specs.Balance.{Knows};

    ghost fact = { Knows };
}

/// An amount of a portion that is handed over, which a call picks.
pub trait Amount {
    ghost use Rattle.std.specs.Prelude.{ℕ};

    ghost amount: { ℕ };
}

impl Amount for Brand {
    ghost amount = { 0 };
}

// Handing over an amount of a portion.
pub struct Cut<N: Amount> {
    of: PhantomData<N>,
}

impl<N: Amount> Split<Share> for Cut<N> {
    ghost use Rattle.std.specs.Prelude.{[]};
    ghost use Rattle.mg_levels.specs.Balance.{share, kept_of};

    ghost left = { kept_of N.amount };

    ghost right = { λ v. share N.amount [] [] };
}

// Making one share of two.
pub struct Both;

impl Join<Share> for Both {
    ghost use Rattle.std.specs.Prelude.{[]};
    ghost use Rattle.mg_levels.specs.Balance.{share, both};

    ghost both = { both };

    ghost spent = { share 0 [] [] };
}
