//! Square blocks made row by row.

ghost use Rattle.std.specs.Prelude.{◌≡◌, ℕ, ◌+◌, ◌*◌, ◌<◌, ◌≤◌, length, slice_index};

/// Writes a row into the samples, from this place on.
pub fn set_row(samples: &mut [u8], first: usize, row: &[u8])
    requires { first + length row.now ≤ length samples.old }
    ensures before { (k : ℕ) → k < first → slice_index samples.new k ≡ slice_index samples.old k }
    ensures here { (x : ℕ) → x < length row.now → slice_index samples.new (first + x)
        ≡ slice_index row.now x }
{
    samples[first..first + row.len()].copy_from_slice(row);
}

/// A block of which every row is this one.
pub fn same_rows<const W: usize, const N: usize>(row: &[u8; W]) -> [u8; N]
    requires { W * W ≡ N }
    ensures { (x y : ℕ) → x < W → y < W → slice_index result (W * y + x) ≡ slice_index row.now x }
{
    let mut samples = [0; N];
    for y in 0..W {
        set_row(&mut samples, W * y, row);
    }
    samples
}

/// A block of which every column is this one.
pub fn same_columns<const W: usize, const N: usize>(column: &[u8; W]) -> [u8; N]
    requires { W * W ≡ N }
    ensures { (x y : ℕ) → x < W → y < W → slice_index result (W * y + x)
        ≡ slice_index column.now y }
{
    let mut samples = [0; N];
    for y in 0..W {
        set_row(&mut samples, W * y, &[column[y]; W]);
    }
    samples
}

/// A block with the same sample everywhere.
pub fn level<const N: usize>(sample: u8) -> [u8; N]
    ensures { (k : ℕ) → k < N → slice_index result k ≡ sample }
{
    [sample; N]
}
