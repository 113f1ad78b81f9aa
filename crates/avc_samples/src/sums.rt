//! A window of unrounded sums of the six-tap filter (8.4.2.2.1), sixteen one behind the other:
//! those of sixteen samples of a block of L columns, and of five rows more. It moves on by sixteen
//! sums.

ghost use Rattle.std.specs.Prelude.{◌≡◌, ℕ, ◌+◌, ◌*◌, ◌/◌, ◌<◌, ◌≤◌, pos, slice_index_or};
ghost use Rattle.avc_samples.specs.Sums.{AreSums, AreSumsPut};

/// Puts sixteen sums into the window, as its sixteen of the number `row`.
#[inline(always)]
pub fn put_sums(window: &mut [i16; 96], row: usize, r: &[i16; 16])
    requires { row < 6 }
    ensures { AreSumsPut row r.now window.old window.new }
{
    let from = 16 * row;
    for k in 0..16 {
        window[from + k] = r[k];
    }
}

/// Sixteen sums of the window, from place `at` on.
#[inline(always)]
pub fn sixteen_sums(window: &[i16; 96], at: usize) -> [i16; 16]
    requires few { at + 16 ≤ 96 }
    requires small { AreSums (at + 16) window.now }
    ensures value { (k : ℕ) → k < 16 → slice_index_or result k (pos 0)
        ≡ slice_index_or window.now (at + k) (pos 0) }
    ensures small { AreSums 16 result }
{
    let mut out = [0; 16];
    for k in 0..16 {
        out[k] = window[at + k];
    }
    out
}

/// Moves the window on: its first sixteen sums go.
#[inline(always)]
pub fn move_on<const L: usize>(window: &mut [i16; 96])
    requires columns { L ≤ 16 }
    requires small { AreSums (16 * ((5 * L + 15) / 16 + 1)) window.old }
    ensures { (k : ℕ) → k < 16 * ((5 * L + 15) / 16) → slice_index_or window.new k (pos 0)
        ≡ slice_index_or window.old (16 + k) (pos 0) }
{
    for row in 0..(5 * L + 15) / 16 {
        let next = sixteen_sums(window, 16 * (row + 1));
        put_sums(window, row, &next);
    }
}
