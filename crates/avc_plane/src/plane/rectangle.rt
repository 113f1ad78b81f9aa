//! Rectangles of a plane, read and written.

ghost use Rattle.std.specs.Prelude.{◌≡◌, ℕ, ◌+◌, ◌*◌, ◌<◌, ◌≤◌, length, slice_index};
ghost use Rattle.avc_plane.specs.Plane.{sample, with_block};
ghost use Rattle.avc_plane.specs.Strided.{IsRoom, IsSameOutside};

use super::Plane;

impl<const PAD: usize> Plane<PAD> {
    /// The samples of a rectangle of H rows of W samples, with `left` columns left of it and `top`
    /// rows above it: its rows from the top on, each from the left.
    #[inline(always)]
    pub fn rectangle<const W: usize, const H: usize, const N: usize>(
        &self,
        left: usize,
        top: usize,
    ) -> [u8; N]
        requires columns { left + W ≤ self.now.width }
        requires rows { top + H ≤ self.now.height }
        requires all { W * H ≡ N }
        ensures samples { (x y : ℕ) → x < W → y < H → slice_index result (W * y + x)
            ≡ sample self.now (left + x) (top + y) }
        ensures all { length self.now.samples ≡ self.now.width * self.now.height }
    {
        let stride = self.stride;
        let start = (top + PAD) * stride + (left + PAD);
        load::<W, H, N>(&self.stored, start, stride)
    }

    /// Changes the samples of a rectangle, and no other. `samples` are as `rectangle` gives them,
    /// and were just computed: they need not go through memory.
    #[inline(always)]
    pub fn set_rectangle<const W: usize, const H: usize, const N: usize>(
        &mut self,
        left: usize,
        top: usize,
        samples: &[u8; N],
    )
        requires columns { left + W ≤ self.old.width }
        requires rows { top + H ≤ self.old.height }
        requires all { W * H ≡ N }
        ensures { self.new
            ≡ with_block self.old left top W H (λ x y. slice_index samples.now (W * y + x)) }
    {
        self.store_rectangle::<W, H, N, false>(left, top, samples);
    }

    /// Sets a rectangle to samples that lie in memory: each row is one copy.
    #[inline(always)]
    pub fn copy_rectangle<const W: usize, const H: usize, const N: usize>(
        &mut self,
        left: usize,
        top: usize,
        samples: &[u8; N],
    )
        requires columns { left + W ≤ self.old.width }
        requires rows { top + H ≤ self.old.height }
        requires all { W * H ≡ N }
        ensures { self.new
            ≡ with_block self.old left top W H (λ x y. slice_index samples.now (W * y + x)) }
    {
        self.store_rectangle::<W, H, N, true>(left, top, samples);
    }

    #[inline(always)]
    fn store_rectangle<const W: usize, const H: usize, const N: usize, const COPIES: bool>(
        &mut self,
        left: usize,
        top: usize,
        samples: &[u8; N],
    )
        requires columns { left + W ≤ self.old.width }
        requires rows { top + H ≤ self.old.height }
        requires all { W * H ≡ N }
        ensures { self.new
            ≡ with_block self.old left top W H (λ x y. slice_index samples.now (W * y + x)) }
    {
        let stride = self.stride;
        let start = (top + PAD) * stride + (left + PAD);
        store::<W, H, N, COPIES>(&mut self.stored, start, stride, samples);
    }
}

// rows of W samples, each `stride` behind the one before
#[inline(always)]
fn load<const W: usize, const H: usize, const N: usize>(
    stored: &[u8],
    start: usize,
    stride: usize,
) -> [u8; N]
    requires room { IsRoom W H start stride (length stored.now) }
    requires all { W * H ≡ N }
    ensures { (x y : ℕ) → x < W → y < H → slice_index result (W * y + x)
        ≡ slice_index stored.now (start + y * stride + x) }
{
    let mut samples = [0; N];
    for y in 0..H {
        for x in 0..W {
            samples[W * y + x] = stored[start + y * stride + x];
        }
    }
    samples
}

// a row by itself
#[inline(always)]
fn row_at<const W: usize>(samples: &[u8], from: usize) -> [u8; W]
    requires { from + W ≤ length samples.now }
    ensures { (x : ℕ) → x < W → slice_index result x ≡ slice_index samples.now (from + x) }
{
    let mut row = [0; W];
    for x in 0..W {
        row[x] = samples[from + x];
    }
    row
}

// of a row by itself it is known that it does not overlap the plane, so that it is stored at once
#[inline(always)]
fn put_row<const W: usize>(stored: &mut [u8], start: usize, row: &[u8; W])
    requires { start + W ≤ length stored.old }
    ensures inside { (x : ℕ) → x < W → slice_index stored.new (start + x) ≡ slice_index row.now x }
    ensures before { (j : ℕ) → j < start → slice_index stored.new j ≡ slice_index stored.old j }
    ensures behind { (j : ℕ) → start + W ≤ j → slice_index stored.new j ≡ slice_index stored.old j }
{
    for x in 0..W {
        stored[start + x] = row[x];
    }
}

#[inline(always)]
fn store_row<const W: usize, const COPIES: bool>(
    stored: &mut [u8],
    start: usize,
    samples: &[u8],
    from: usize,
)
    requires room { start + W ≤ length stored.old }
    requires within { from + W ≤ length samples.now }
    ensures inside { (x : ℕ) → x < W → slice_index stored.new (start + x)
        ≡ slice_index samples.now (from + x) }
    ensures before { (j : ℕ) → j < start → slice_index stored.new j ≡ slice_index stored.old j }
    ensures behind { (j : ℕ) → start + W ≤ j → slice_index stored.new j ≡ slice_index stored.old j }
{
    if COPIES {
        put_row::<W>(stored, start, &row_at::<W>(samples, from));
        return;
    }
    for x in 0..W {
        stored[start + x] = samples[from + x];
    }
}

#[inline(always)]
fn store<const W: usize, const H: usize, const N: usize, const COPIES: bool>(
    stored: &mut [u8],
    start: usize,
    stride: usize,
    samples: &[u8; N],
)
    requires room { IsRoom W H start stride (length stored.old) }
    requires apart { W ≤ stride }
    requires all { W * H ≡ N }
    ensures inside { (y : ℕ) → y < H → (x : ℕ) → x < W →
        slice_index stored.new (start + y * stride + x) ≡ slice_index samples.now (W * y + x) }
    ensures outside { IsSameOutside W H start stride stored.old stored.new }
{
    for y in 0..H {
        store_row::<W, COPIES>(stored, start + y * stride, samples, W * y);
    }
}
