//! Rounded means of samples.

ghost use Rattle.std.specs.Prelude.{◌≡◌, ◌+◌, ◌/◌, ◌≤◌, if◌then◌else◌, length, slice_index};
ghost use Rattle.avc_types.specs.Arithmetic.{mean_of_two, mean_of_three, sum_below};

/// The mean of two samples, a half rounded up.
pub fn mean_of_two(a: u8, b: u8) -> u8
    ensures { result ≡ mean_of_two a b }
{
    ((u16::from(a) + u16::from(b) + 1) / 2) as u8
}

/// The mean of three samples, the one in the middle counted twice.
pub fn mean_of_three(a: u8, b: u8, c: u8) -> u8
    ensures { result ≡ mean_of_three a b c }
{
    ((u16::from(a) + 2 * u16::from(b) + u16::from(c) + 2) / 4) as u8
}

/// The mean of the sides that count, from their sums of four samples each; the middle grey where
/// none does.
pub fn mean_of_sides4(counts_above: bool, counts_left: bool, above: u16, left: u16) -> u8
    requires above { above ≤ 1020 }
    requires left { left ≤ 1020 }
    ensures { result ≡ (if counts_above
        then (if counts_left then (above + left + 4) / 8 else (above + 2) / 4)
        else (if counts_left then (left + 2) / 4 else 128)) }
{
    match (counts_above, counts_left) {
        (true, true) => ((above + left + 4) / 8) as u8,
        (true, false) => ((above + 2) / 4) as u8,
        (false, true) => ((left + 2) / 4) as u8,
        (false, false) => 128,
    }
}

/// The mean of the sides from the sums of sixteen samples each.
pub fn mean_of_sides16(counts_above: bool, counts_left: bool, above: u16, left: u16) -> u8
    requires above { above ≤ 4080 }
    requires left { left ≤ 4080 }
    ensures { result ≡ (if counts_above
        then (if counts_left then (above + left + 16) / 32 else (above + 8) / 16)
        else (if counts_left then (left + 8) / 16 else 128)) }
{
    match (counts_above, counts_left) {
        (true, true) => ((above + left + 16) / 32) as u8,
        (true, false) => ((above + 8) / 16) as u8,
        (false, true) => ((left + 8) / 16) as u8,
        (false, false) => 128,
    }
}

/// The sum of four samples that stand side by side.
pub fn sum_of_four(samples: &[u8], first: usize) -> u16
    requires { first + 4 ≤ length samples.now }
    ensures sum { result ≡ sum_below 4 (λ i. slice_index samples.now (first + i)) }
    ensures small { result ≤ 1020 }
{
    u16::from(samples[first])
        + u16::from(samples[first + 1])
        + u16::from(samples[first + 2])
        + u16::from(samples[first + 3])
}

/// The sum of sixteen samples.
pub fn sum_of_sixteen(samples: &[u8; 16]) -> u16
    ensures sum { result ≡ sum_below 16 (λ i. slice_index samples.now i) }
    ensures small { result ≤ 4080 }
{
    let mut sum = 0;
    for i in 0..16 {
        sum += u16::from(samples[i]);
    }
    sum
}
