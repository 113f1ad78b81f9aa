//! Samples of a table that stand one behind the other.

ghost use Rattle.std.specs.Prelude.{◌≡◌, ℕ, ◌+◌, ◌<◌, ◌≤◌, slice_index};
ghost use Rattle.avc_edges.specs.Rows.{AreSet};

/// So many samples of a table, from a place on.
#[inline(always)]
pub(crate) fn samples_from<const N: usize, const M: usize>(t: &[u8; N], from: usize) -> [u8; M]
    requires { from + M ≤ N }
    ensures { (k : ℕ) → k < M → slice_index result k ≡ slice_index t.now (from + k) }
{
    let mut out = [0; M];
    for k in 0..M {
        out[k] = t[from + k];
    }
    out
}

/// Puts samples into a table, from a place on.
#[inline(always)]
pub(crate) fn set_samples<const N: usize, const M: usize>(
    t: &mut [u8; N],
    from: usize,
    samples: &[u8; M],
)
    requires { from + M ≤ N }
    ensures { AreSet M from samples.now t.old t.new }
{
    for k in 0..M {
        t[from + k] = samples[k];
    }
}
