// What a thread has done at a level.
ghost use Rattle.std.specs.Prelude.{◌≡◌, []};

use crate::share::Share;
use crossbeam_queue::Pass;

/// What a thread has done at a level, and how often it found the level full, and empty.
#[derive(Drop)]
pub(crate) struct Hand {
    pub pass: Pass<u32, Share>,
    pub fulls: u64,
    pub empties: u64,
    ghost idle: { pass.me.1 ≡ [] },
}

/// Makes the first hand of a level, which has found the level neither full nor empty.
pub(crate) fn first_hand(pass: Pass<u32, Share>) -> Hand
    requires { pass.me.1 ≡ [] }
    ensures pass { result.pass ≡ pass }
    ensures counts { (result.fulls ≡ 0) × (result.empties ≡ 0) }
{
    Hand {
        pass,
        fulls: 0,
        empties: 0,
    }
}
