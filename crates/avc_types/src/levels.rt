//! Transform coefficient levels of a block (7.3.5.3.2).

ghost use Rattle.std.specs.Prelude.{◌≡◌, ◌≤◌, ℤ, pos, List, replicate};
ghost use Rattle.avc_types.specs.Macroblock.{total_coeff};
ghost use Rattle.std.proofs.Common.{ap, sym};

use std::marker::Model;

/// The MAXN transform coefficient levels of a block from the lowest frequency on, seen as their
/// list.
#[derive(Clone, Copy)]
pub struct Levels<const MAXN: usize> {
    levels: [i16; MAXN],
    // how many of them are not 0
    count: u8,
}

impl<const MAXN: usize> Model for Levels<MAXN> {
    ghost Value = { List ℤ };

    ghost view = { λ l. l.levels };

    ghost invariant = { λ l. l.count ≡ total_coeff l.levels };

    ghost inverse = { λ v. record { levels = v; count = total_coeff v } };

    ghost inverse_ok = { λ l is. ap (λ n. record { levels = l.levels; count = n }) (sym is) };
}

impl<const MAXN: usize> Levels<MAXN> {
    /// Levels that are all 0, as those of a block that is not coded.
    pub fn zero() -> Self
        ensures { result ≡ replicate MAXN (pos 0) }
    {
        Levels {
            levels: [0; MAXN],
            count: 0,
        }
    }

    /// These levels.
    pub fn from_array(levels: [i16; MAXN]) -> Self
        requires { MAXN ≤ 16 }
        ensures { result ≡ levels.entry }
    {
        let mut count = 0u8;
        'levels: for k in 0..MAXN {
            if levels[k] != 0 {
                count += 1;
            }
        }
        Levels { levels, count }
    }

    /// These levels, of which `count` are not 0.
    pub fn new(levels: [i16; MAXN], count: u8) -> Self
        requires { count ≡ total_coeff levels }
        ensures { result ≡ levels.entry }
    {
        Levels { levels, count }
    }

    /// All of them become 0, as those of a block that is not coded. Where none is another number
    /// nothing is written.
    #[tactic(auto, using(crate::proofs::Frames::none_counted))]
    #[inline(always)]
    pub fn clear(&mut self)
        ensures { self.new ≡ replicate MAXN (pos 0) }
    {
        if self.count != 0 {
            *self = Levels::zero();
        }
    }

    /// The levels one by one.
    pub fn as_array(&self) -> &[i16; MAXN]
        ensures { result.now ≡ self.now }
    {
        &self.levels
    }

    /// How many of the levels are not 0 (total_coeff).
    pub fn total_coeff(&self) -> u8
        ensures { result ≡ total_coeff self.now }
    {
        self.count
    }
}
