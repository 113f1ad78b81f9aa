//! Samples repeated around a plane, over its rows as they lie in memory.

ghost use Rattle.std.specs.Prelude.{◌≡◌, ℕ, ◌+◌, ◌-◌, ◌*◌, ◌<◌, ◌≤◌, length, slice_index};
ghost use Rattle.avc_plane.specs.Padded.{nearest};

/// Sets `count` samples to one.
#[inline(always)]
fn repeat(stored: &mut [u8], first: usize, count: usize, sample: u8)
    requires { first + count ≤ length stored.old }
    ensures before { (k : ℕ) → k < first → slice_index stored.new k ≡ slice_index stored.old k }
    ensures here { (k : ℕ) → first ≤ k → k < first + count → slice_index stored.new k ≡ sample }
    ensures after { (k : ℕ) → first + count ≤ k → slice_index stored.new k
        ≡ slice_index stored.old k }
{
    stored[first..first + count].fill(sample);
}

/// `repeat` by `part` samples from each end, which may overlap.
#[inline(always)]
fn repeat_from_ends(stored: &mut [u8], first: usize, count: usize, part: usize, sample: u8)
    requires room { first + count ≤ length stored.old }
    requires some { part ≤ count }
    requires enough { count ≤ 2 * part }
    ensures before { (k : ℕ) → k < first → slice_index stored.new k ≡ slice_index stored.old k }
    ensures here { (k : ℕ) → first ≤ k → k < first + count → slice_index stored.new k ≡ sample }
    ensures after { (k : ℕ) → first + count ≤ k → slice_index stored.new k
        ≡ slice_index stored.old k }
{
    repeat(stored, first, part, sample);
    repeat(stored, first + (count - part), part, sample);
}

/// `repeat` of at least `pad` samples. Where `pad` is a constant, up to eight times as many are
/// stored without a loop.
#[inline(always)]
fn repeat_many(stored: &mut [u8], first: usize, count: usize, pad: usize, sample: u8)
    requires room { first + count ≤ length stored.old }
    requires many { pad ≤ count }
    ensures before { (k : ℕ) → k < first → slice_index stored.new k ≡ slice_index stored.old k }
    ensures here { (k : ℕ) → first ≤ k → k < first + count → slice_index stored.new k ≡ sample }
    ensures after { (k : ℕ) → first + count ≤ k → slice_index stored.new k
        ≡ slice_index stored.old k }
{
    if count <= 2 * pad {
        repeat_from_ends(stored, first, count, pad, sample);
    } else if count <= 4 * pad {
        repeat_from_ends(stored, first, count, 2 * pad, sample);
    } else if count <= 8 * pad {
        repeat_from_ends(stored, first, count, 4 * pad, sample);
    } else {
        repeat(stored, first, count, sample);
    }
}

/// Repeats the outer samples of a row on both sides of it, `pad` times on the left and up to the
/// next row on the right. `first` is the place of its first sample with the padding.
#[inline(always)]
fn extend_row(stored: &mut [u8], first: usize, width: usize, pad: usize, stride: usize)
    requires some { 0 < width }
    requires wide { width + 2 * pad ≤ stride }
    requires room { first + stride ≤ length stored.old }
    ensures before { (k : ℕ) → k < first → slice_index stored.new k ≡ slice_index stored.old k }
    ensures here { (x : ℕ) → x < stride → slice_index stored.new (first + x)
        ≡ slice_index stored.old (first + (nearest pad width x + pad)) }
    ensures after { (k : ℕ) → first + stride ≤ k → slice_index stored.new k
        ≡ slice_index stored.old k }
{
    let left = stored[first + pad];
    let right = stored[first + pad + (width - 1)];
    let count = stride - (pad + width);
    repeat(stored, first, pad, left);
    repeat_many(stored, first + pad + width, count, pad, right);
}

/// Copies `count` samples to a place before them.
fn copy_before(stored: &mut [u8], from: usize, to: usize, count: usize)
    requires apart { to + count ≤ from }
    requires source { from + count ≤ length stored.old }
    ensures before { (k : ℕ) → k < to → slice_index stored.new k ≡ slice_index stored.old k }
    ensures here { (x : ℕ) → x < count → slice_index stored.new (to + x)
        ≡ slice_index stored.old (from + x) }
    ensures after { (k : ℕ) → to + count ≤ k → slice_index stored.new k ≡ slice_index stored.old k }
{
    let (start, end) = stored.split_at_mut(from);
    start[to..to + count].copy_from_slice(&end[..count]);
}

/// Copies `count` samples to a place behind them.
fn copy_behind(stored: &mut [u8], from: usize, to: usize, count: usize)
    requires apart { from + count ≤ to }
    requires target { to + count ≤ length stored.old }
    ensures before { (k : ℕ) → k < to → slice_index stored.new k ≡ slice_index stored.old k }
    ensures here { (x : ℕ) → x < count → slice_index stored.new (to + x)
        ≡ slice_index stored.old (from + x) }
    ensures after { (k : ℕ) → to + count ≤ k → slice_index stored.new k ≡ slice_index stored.old k }
{
    let (start, end) = stored.split_at_mut(to);
    end[..count].copy_from_slice(&start[from..from + count]);
}

/// Repeats the outer samples of each row of a plane on both sides of it.
#[inline(always)]
fn extend_sides(stored: &mut [u8], width: usize, height: usize, pad: usize, stride: usize)
    requires some { 0 < width }
    requires wide { width + 2 * pad ≤ stride }
    requires all { length stored.old ≡ (height + 2 * pad) * stride }
    ensures { (x y : ℕ) → x < stride → y < height →
        slice_index stored.new ((y + pad) * stride + x)
        ≡ slice_index stored.old ((y + pad) * stride + (nearest pad width x + pad)) }
{
    for y in 0..height {
        extend_row(stored, (y + pad) * stride, width, pad, stride);
    }
}

/// Repeats the first and the last row of a plane above and below it.
fn extend_ends(stored: &mut [u8], height: usize, pad: usize, stride: usize)
    requires some { 0 < height }
    requires apart { 0 < stride }
    requires all { length stored.old ≡ (height + 2 * pad) * stride }
    ensures { (x y : ℕ) → x < stride → y < height + 2 * pad →
        slice_index stored.new (y * stride + x)
        ≡ slice_index stored.old ((nearest pad height y + pad) * stride + x) }
{
    for y in 0..pad {
        copy_before(stored, pad * stride, y * stride, stride);
        copy_behind(
            stored,
            (pad + height - 1) * stride,
            (pad + height + y) * stride,
            stride,
        );
    }
}

/// Gives each place around a plane the sample inside that is nearest. Where it is called `pad` is a
/// constant, and a side of up to eight times as many samples is stored without a loop.
#[inline(always)]
pub fn extend(stored: &mut [u8], width: usize, height: usize, pad: usize, stride: usize)
    requires some_column { 0 < width }
    requires some_row { 0 < height }
    requires wide { width + 2 * pad ≤ stride }
    requires all { length stored.old ≡ (height + 2 * pad) * stride }
    ensures { (x y : ℕ) → x < stride → y < height + 2 * pad →
        slice_index stored.new (y * stride + x)
        ≡ slice_index stored.old
        ((nearest pad height y + pad) * stride + (nearest pad width x + pad)) }
{
    extend_sides(stored, width, height, pad, stride);
    extend_ends(stored, height, pad, stride);
}
