//! Runs of bytes with zeros, and without: between them start codes are looked for.

ghost use Rattle.std.specs.Prelude.{◌≡◌, ◌≢◌, ◌<◌, ◌≤◌, length, take, slice_index, replicate};
ghost use Rattle.avc_annexb.specs.Scanning.{HasLoneZerosBefore};

use memchr::memchr;

/// How many zeros stand at the start.
pub fn zeros_at_start(bytes: &[u8]) -> usize
    ensures within { result ≤ length bytes.now }
    ensures zeros { take result bytes.now ≡ replicate result 0 }
    ensures next { result < length bytes.now → slice_index bytes.now result ≢ 0 }
{
    let mut count = 0;
    while count < bytes.len() && bytes[count] == 0 {
        count += 1;
    }
    count
}

/// How many bytes stand before the first zero that a zero or the end follows. The search is faster
/// in a call of its own.
#[inline(never)]
pub fn run_length(bytes: &[u8]) -> usize
    ensures within { result ≤ length bytes.now }
    ensures lone { HasLoneZerosBefore result bytes.now }
    ensures some { slice_index bytes.now 0 ≢ 0 → 0 < result }
{
    let mut place = 0;
    while let Some(len) = memchr(0, &bytes[place..]) {
        let zero = place + len;
        if zero + 1 == bytes.len() || bytes[zero + 1] == 0 {
            return zero;
        }
        place = zero + 2;
    }
    bytes.len()
}
