//! The levels of a block that are not 0.
ghost use Rattle.std.specs.Prelude.{◌≡◌, ◌+◌, ◌≤◌, ◌<◌, ℕ, ℤ, pos, List, ◌∷◌, length, reverse};
ghost use Rattle.std.specs.Prelude.{slice_index_or, take};
ghost use Rattle.std.specs.List.{sum};
ghost use Rattle.avc_make.specs.BlockWriting.{coded, ones_first, runs_of, values_of};

use std::marker::Model;

/// Up to 16 levels with the zeros right before each, the highest frequency first, seen as their
/// list.
#[derive(Drop)]
pub(crate) struct Coefficients {
    // the lowest frequency first
    found: [(i16, u8); 16],
    count: usize,
}

impl Model for Coefficients {
    ghost Value = { List (ℤ × ℕ) };

    ghost view = { λ c. reverse (take c.count c.found) };

    ghost invariant = { λ c. (c.count ≤ 16) × (length c.found ≡ 16) };
}

impl Coefficients {
    /// Those of a block.
    pub(crate) fn of<const MAXN: usize>(levels: &[i16; MAXN]) -> Self
        requires { MAXN ≤ 16 }
        ensures value { result ≡ coded levels.now }
        ensures size { length result + sum (runs_of result) ≤ MAXN }
    {
        let mut found = Coefficients {
            found: [(0, 0); 16],
            count: 0,
        };
        let mut zeros = 0u8;
        'levels: for k in 0..MAXN {
            if levels[k] == 0 {
                zeros += 1;
            } else {
                found.add(levels[k], zeros);
                zeros = 0;
            }
        }
        found
    }

    // one of a higher frequency
    fn add(&mut self, level: i16, zeros: u8)
        requires { length self.old < 16 }
        ensures { self.new ≡ (level, zeros) ∷ self.old }
    {
        self.found[self.count] = (level, zeros);
        self.count += 1;
    }

    pub(crate) fn len(&self) -> usize
        ensures value { result ≡ length self.now }
        ensures few { result ≤ 16 }
    {
        self.count
    }

    pub(crate) fn level(&self, k: usize) -> i16
        requires { k < length self.now }
        ensures { result ≡ slice_index_or (values_of self.now) k (pos 0) }
    {
        self.found[self.count - 1 - k].0
    }

    /// The zeros right before a level.
    pub(crate) fn run(&self, k: usize) -> u8
        requires { k < length self.now }
        ensures { result ≡ slice_index_or (runs_of self.now) k 0 }
    {
        self.found[self.count - 1 - k].1
    }

    /// TrailingOnes.
    pub(crate) fn trailing_ones(&self) -> usize
        ensures value { result ≡ ones_first 3 (values_of self.now) }
        ensures most { result ≤ length self.now }
    {
        'ones: for k in 0..3 {
            if k >= self.len() || self.level(k).unsigned_abs() != 1 {
                return k;
            }
        }
        3
    }

    /// total_zeros.
    pub(crate) fn zeros(&self) -> u8
        requires { sum (runs_of self.now) ≤ 16 }
        ensures { result ≡ sum (runs_of self.now) }
    {
        let mut zeros = 0;
        'runs: for k in 0..self.len() {
            zeros += self.run(k);
        }
        zeros
    }
}
