//! A prediction and its residual, added (8.5.14).

ghost use Rattle.std.specs.Prelude.{◌≡◌, ℕ, ℤ, ◌^◌, ◌+◌, ◌*◌, ◌/◌, ◌%◌, ◌<◌, ◌≤◌, ◌+ℤ◌, ◌-ℤ◌, pos};
ghost use Rattle.std.specs.Prelude.{slice_index, slice_index_or};
ghost use Rattle.avc_types.specs.Arithmetic.{clip1};
ghost use Rattle.avc_transform.specs.Bounds.{IsBelow, AllBelow};
ghost use Rattle.avc_transform.specs.Moves.{AreMovesOf};

/// A sample and its residual, held to a sample.
pub fn clipped_sum(sample: u8, residual: i32) -> u8
    requires { IsBelow (2 ^ 25) residual }
    ensures { result ≡ clip1 (pos sample +ℤ residual) }
{
    (i32::from(sample) + residual).max(0).min(255) as u8
}

/// What residuals change sixteen samples by. As bytes they are added to all of them at once.
#[derive(Clone, Copy)]
pub struct Moves {
    /// What each sample is raised by.
    pub rises: [u8; 16],

    /// What each sample is lowered by.
    pub falls: [u8; 16],
}

/// What a residual raises a sample by.
#[inline(always)]
fn rise(residual: i32) -> u8
    requires { IsBelow (2 ^ 25) residual }
    ensures { result ≡ clip1 residual }
{
    residual.max(0).min(255) as u8
}

/// What a residual lowers a sample by.
#[inline(always)]
fn fall(residual: i32) -> u8
    requires { IsBelow (2 ^ 25) residual }
    ensures { result ≡ clip1 (pos 0 -ℤ residual) }
{
    (0 - residual).max(0).min(255) as u8
}

/// A sample that is raised and lowered so much.
#[inline(always)]
fn moved_sample(sample: u8, rise: u8, fall: u8) -> u8
    ensures { (z : ℤ) → rise ≡ clip1 z → fall ≡ clip1 (pos 0 -ℤ z) →
        result ≡ clip1 (pos sample +ℤ z) }
{
    let raised = sample.min(255 - rise) + rise;
    raised.max(fall) - fall
}

/// Four times each number.
#[inline(always)]
fn spread(a: u8, b: u8, c: u8, d: u8) -> [u8; 16]
    ensures { (f : ℕ → ℕ) → a ≡ f 0 → b ≡ f 1 → c ≡ f 2 → d ≡ f 3 → (i : ℕ) → i < 16 →
        slice_index result i ≡ f (i / 4) }
{
    [a, a, a, a, b, b, b, b, c, c, c, c, d, d, d, d]
}

/// What four residuals change samples by, each of them four samples that stand side by side.
#[inline(always)]
fn moves_of_four(a: i32, b: i32, c: i32, d: i32) -> Moves
    requires first { IsBelow (2 ^ 25) a }
    requires second { IsBelow (2 ^ 25) b }
    requires third { IsBelow (2 ^ 25) c }
    requires fourth { IsBelow (2 ^ 25) d }
    ensures { (f : ℕ → ℤ) → a ≡ f 0 → b ≡ f 1 → c ≡ f 2 → d ≡ f 3 →
        AreMovesOf (λ i. f (i / 4)) result }
{
    Moves {
        rises: spread(rise(a), rise(b), rise(c), rise(d)),
        falls: spread(fall(a), fall(b), fall(c), fall(d)),
    }
}

/// Sixteen samples with their residuals (8.5.14): each sum held to 0 to 255.
#[inline(always)]
fn moved(samples: &[u8; 16], moves: &Moves) -> [u8; 16]
    ensures { (f : ℕ → ℤ) → AreMovesOf f moves.now → (i : ℕ) → i < 16 → slice_index result i
        ≡ clip1 (pos (slice_index samples.now i) +ℤ f i) }
{
    let mut sums = [0; 16];
    for i in 0..16 {
        sums[i] = moved_sample(samples[i], moves.rises[i], moves.falls[i]);
    }
    sums
}

/// Sixteen samples from this one on.
#[inline(always)]
fn sixteen_from(samples: &[u8; 64], first: usize) -> [u8; 16]
    requires { first + 16 ≤ 64 }
    ensures { (i : ℕ) → i < 16 → slice_index result i ≡ slice_index samples.now (first + i) }
{
    let mut sixteen = [0; 16];
    for i in 0..16 {
        sixteen[i] = samples[first + i];
    }
    sixteen
}

/// Writes sixteen samples from this one on.
#[inline(always)]
fn put_sixteen(samples: &mut [u8; 64], first: usize, sixteen: &[u8; 16])
    requires { first + 16 ≤ 64 }
    ensures here { (i : ℕ) → i < 16 → slice_index samples.new (first + i)
        ≡ slice_index sixteen.now i }
    ensures before { (j : ℕ) → j < first → slice_index samples.new j ≡ slice_index samples.old j }
    ensures behind { (j : ℕ) → first + 16 ≤ j → slice_index samples.new j
        ≡ slice_index samples.old j }
{
    for i in 0..16 {
        samples[first + i] = sixteen[i];
    }
}

/// Moves sixteen samples from this one on.
#[inline(always)]
fn move_sixteen(samples: &mut [u8; 64], first: usize, moves: &Moves)
    requires { first + 16 ≤ 64 }
    ensures here { (f : ℕ → ℤ) → AreMovesOf f moves.now → (i : ℕ) → i < 16 →
        slice_index samples.new (first + i)
        ≡ clip1 (pos (slice_index samples.old (first + i)) +ℤ f i) }
    ensures before { (j : ℕ) → j < first → slice_index samples.new j ≡ slice_index samples.old j }
    ensures behind { (j : ℕ) → first + 16 ≤ j → slice_index samples.new j
        ≡ slice_index samples.old j }
{
    let sums = moved(&sixteen_from(samples, first), moves);
    put_sixteen(samples, first, &sums);
}

/// Sixty-four samples, of which each sixteen of the first half are moved in one way and each
/// sixteen of the second in another.
#[inline(always)]
fn moved_halves(samples: &[u8; 64], upper: &Moves, lower: &Moves) -> [u8; 64]
    ensures { (f : ℕ → ℤ) → AreMovesOf (λ i. f (0 + i)) upper.now →
        AreMovesOf (λ i. f (16 + i)) upper.now
        → AreMovesOf (λ i. f (32 + i)) lower.now → AreMovesOf (λ i. f (48 + i)) lower.now
        → (i : ℕ) → i < 64 → slice_index result i ≡ clip1 (pos (slice_index samples.now i) +ℤ f i) }
{
    let mut sums = *samples;
    move_sixteen(&mut sums, 0, upper);
    move_sixteen(&mut sums, 16, upper);
    move_sixteen(&mut sums, 32, lower);
    move_sixteen(&mut sums, 48, lower);
    sums
}

/// The samples of four 4x4 blocks beside one another, row by row, each with a residual that is one
/// value (8.5.14): each sum held to 0 to 255.
#[inline(always)]
pub fn add_to_row(samples: &[u8; 64], residuals: [i32; 4]) -> [u8; 64]
    requires { AllBelow 4 (2 ^ 25) residuals }
    ensures { (i : ℕ) → i < 64 → slice_index result i
        ≡ clip1 (pos (slice_index samples.now i) +ℤ slice_index_or residuals (i % 16 / 4) (pos 0)) }
{
    let moves = moves_of_four(residuals[0], residuals[1], residuals[2], residuals[3]);
    moved_halves(samples, &moves, &moves)
}

/// The samples of four 4x4 blocks of a square, row by row, each with a residual that is one value
/// (8.5.14): each sum held to 0 to 255.
#[inline(always)]
pub fn add_to_square(samples: &[u8; 64], residuals: [i32; 4]) -> [u8; 64]
    requires { AllBelow 4 (2 ^ 25) residuals }
    ensures { (i : ℕ) → i < 64 → slice_index result i ≡
        clip1 (pos (slice_index samples.now i)
        +ℤ slice_index_or residuals (2 * (i / 32) + i % 8 / 4) (pos 0)) }
{
    let upper = moves_of_four(residuals[0], residuals[1], residuals[0], residuals[1]);
    let lower = moves_of_four(residuals[2], residuals[3], residuals[2], residuals[3]);
    moved_halves(samples, &upper, &lower)
}

/// The samples of a 4x4 block before deblocking, from its prediction and its residual (8.5.14):
/// each sum held to 0 to 255.
pub fn add_clip(prediction: &[u8; 16], residual: &[i32; 16]) -> [u8; 16]
    requires { AllBelow 16 (2 ^ 25) residual.now }
    ensures { (i : ℕ) → i < 16 → slice_index result i
        ≡ clip1 (pos (slice_index prediction.now i) +ℤ slice_index_or residual.now i (pos 0)) }
{
    let mut samples = [0; 16];
    for i in 0..16 {
        samples[i] = clipped_sum(prediction[i], residual[i]);
    }
    samples
}
