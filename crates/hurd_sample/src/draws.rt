//! Numbers drawn one after another from a seed.
ghost use Rattle.std.specs.Prelude.{◌<◌, length};

use rand_core::utils::NextWord;
use rand_pcg::Pcg32;

/// Numbers that are drawn one after another, the same for the same seed.
#[derive(Drop)]
pub struct Draws {
    source: Pcg32,
}

impl Draws {
    pub fn new(seed: u64) -> Draws {
        Draws {
            source: Pcg32::new(seed, 54),
        }
    }

    /// A number below `count`; 0 where there is none.
    pub fn below(&mut self, count: usize) -> usize {
        let word = self.source.next_word() as usize;
        if count == 0 { 0 } else { word % count }
    }

    /// Whether something is so that is so `percent` times of a hundred.
    pub fn often(&mut self, percent: usize) -> bool {
        self.below(100) < percent
    }

    /// One of some things.
    pub fn one<T: Copy>(&mut self, things: &[T]) -> T
        requires { 0 < length things.now }
    {
        let word = self.source.next_word() as usize;
        things[word % things.len()]
    }
}
