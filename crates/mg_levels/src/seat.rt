ghost use Rattle.std.specs.Prelude.{◌≡◌, ◌+◌, ◌-◌, ◌<◌, ◌≤◌, IfOk, IfErr, length, replicate};
ghost use Rattle.mg_levels.specs.Code.Rows.{portions_in};

use crate::hand::Hand;
use crate::levels::Levels;
use crate::rows::{cut_all, join_all};
use std::alloc::{AllocError, Global};

/// What a thread calls the levels with: a portion, and what it has done at each level.
#[derive(Drop)]
pub struct LevelSeat {
    pub(crate) hands: Vec<Hand>,
    pub(crate) portion: u64,
    ghost even: { portions_in hands.items ≡ replicate (length hands.items) portion },
    ghost some: { 0 < portion },
}

impl LevelSeat {
    ghost use Rattle.mg_levels.specs.Balance.{whole};
    ghost use Rattle.mg_levels.specs.Levels.{order_of, IsSeatOf, portion_of, HasDoneNothing, SameCounts, AddsCounts};

    /// Hands over so much of the portion to a new seat, which has done nothing yet. After an `Err`, which means out of memory,
    /// this seat is unchanged.
    pub fn split(
        &mut self,
        alloc: Global,
        levels: &Levels,
        portion: u64,
    ) -> Result<LevelSeat, AllocError>
        requires of { IsSeatOf levels.now self.old }
        requires portion { (0 < portion) × (portion < portion_of self.old) }
        ensures of { IfOk result (λ _. IsSeatOf levels.now self.new × (portion_of self.new ≡ portion_of self.old - portion)) }
        ensures same { IfOk result (λ _. SameCounts (order_of levels.now) self.old self.new) }
        ensures new { IfOk result (λ new. IsSeatOf levels.now new × (portion_of new ≡ portion) × HasDoneNothing new) }
        ensures unchanged { IfErr result (λ _. self.new ≡ self.old) }
    {
        let mut hands = Vec::with_capacity(alloc, self.hands.len())?;
        cut_all(&levels.queues, &mut self.hands, portion, &mut hands);
        self.portion -= portion;
        Ok(LevelSeat { hands, portion })
    }

    /// Takes over the portion of another seat of these levels, and what it has done.
    pub fn join(&mut self, levels: &Levels, other: LevelSeat)
        requires of { IsSeatOf levels.now self.old × IsSeatOf levels.now other }
        requires portions { portion_of self.old + portion_of other ≤ whole }
        ensures of { IsSeatOf levels.now self.new × (portion_of self.new ≡ portion_of self.old + portion_of other) }
        ensures adds { AddsCounts (order_of levels.now) self.old other self.new }
    {
        let LevelSeat { hands, portion, .. } = other;
        join_all(&levels.queues, &mut self.hands, hands);
        self.portion += portion;
    }
}
