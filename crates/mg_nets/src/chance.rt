//! Numbers at random.

/// Numbers of a linear congruence: each number follows from the number before. The first follows from the seed, and isn't drawn,
/// because the first numbers of neighbouring seeds differ too little.
#[derive(Drop)]
pub struct Chance {
    number: u64,
}

// Returns the number that follows in the congruence.
fn next(number: u64) -> u64 {
    number
        .wrapping_mul(6364136223846793005)
        .wrapping_add(1442695040888963407)
}

// Returns a place below `places`, picked by the higher half of a drawn number, or 0 if there are no places.
fn place_of(number: u64, places: u32) -> u32 {
    if places == 0 {
        return 0;
    }
    ((number / 4294967296) as u32) % places
}

impl Chance {
    /// Returns the numbers that follow from a seed.
    pub fn new(seed: u64) -> Chance {
        Chance { number: next(seed) }
    }

    /// Draws a place below `places`, or 0 if there are no places.
    pub fn below(&mut self, places: u32) -> u32 {
        self.number = next(self.number);
        place_of(self.number, places)
    }
}
