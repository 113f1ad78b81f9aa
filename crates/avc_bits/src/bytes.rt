//! The bits of bytes as numbers.

ghost use Rattle.std.specs.Prelude.{◌≡◌, ℕ, ◌+◌, ◌-◌, ◌*◌, ◌/◌, ◌%◌, ◌^◌, ◌<◌, ◌≤◌, length};
ghost use Rattle.std.specs.Prelude.{slice_index, take, drop};
ghost use Rattle.avc_bits.specs.Bits.{bits_before_stop, bits_of, byte_bits, number_of};

// the bits at a place, as a number
#[cold]
#[inline(never)]
pub(crate) fn bits_at(bytes: &[u8], position: u128, count: u32) -> u32
    requires few { count ≤ 32 }
    requires inside { 0 < count → position + count ≤ 8 * length bytes.now }
    ensures value { result ≡ number_of (take count (drop position (byte_bits bytes.now))) }
    ensures bound { result < 2 ^ count }
{
    let first = position / 8;
    if first + 8 <= bytes.len() as u128 {
        let passed = (position % 8) as u32;
        field_of_eight(eight_bytes(bytes, first as usize), passed, count)
    } else {
        bits_near_end(bytes, position, count)
    }
}

// eight bytes as a number, the first one the most significant
#[inline(always)]
pub(crate) fn eight_bytes(bytes: &[u8], first: usize) -> u64
    requires { first + 8 ≤ length bytes.now }
    ensures { result ≡ number_of (take 64 (drop (8 * first) (byte_bits bytes.now))) }
{
    u64::from_be_bytes([
        bytes[first],
        bytes[first + 1],
        bytes[first + 2],
        bytes[first + 3],
        bytes[first + 4],
        bytes[first + 5],
        bytes[first + 6],
        bytes[first + 7],
    ])
}

// some bytes from a place on
#[inline]
pub(crate) fn bytes_at(bytes: &[u8], first: usize, count: usize) -> &[u8]
    requires { first + count ≤ length bytes.now }
    ensures part { result.now ≡ take count (drop first bytes.now) }
    ensures long { length result.now ≡ count }
    ensures small { (k : ℕ) → slice_index result.now k < 256 }
{
    &bytes[first..first + count]
}

// bits of 64, counted from the most significant one
#[tactic(auto, using(crate::proofs::Reading::field64_is, crate::proofs::Reading::field_fits))]
#[inline(always)]
pub(crate) fn field_of_eight(eight: u64, first: u32, count: u32) -> u32
    requires few { count ≤ 32 }
    requires within { first + count ≤ 64 }
    requires some { first ≤ 63 }
    ensures value { result ≡ eight / 2 ^ (64 - first - count) % 2 ^ count }
    ensures bound { result < 2 ^ count }
{
    // in two steps, since count may be 0
    ((eight << first) >> 1 >> (63 - count)) as u32
}

// the bits at a place, of the bytes that have them
#[cold]
fn bits_near_end(bytes: &[u8], position: u128, count: u32) -> u32
    requires few { count ≤ 32 }
    requires inside { 0 < count → position + count ≤ 8 * length bytes.now }
    ensures value { result ≡ number_of (take count (drop position (byte_bits bytes.now))) }
    ensures bound { result < 2 ^ count }
{
    if count == 0 {
        return 0;
    }
    let first = (position / 8) as usize;
    let passed = (position % 8) as u32;
    let held = (passed + count).div_ceil(8);
    let value = number_of_few(&bytes[first..first + held as usize]);
    ((value >> (8 * held - passed - count)) % (1 << count)) as u32
}

// at most seven bytes as a number, the first one the most significant
#[inline(always)]
fn number_of_few(bytes: &[u8]) -> u64
    requires { length bytes.now ≤ 7 }
    ensures value { result ≡ number_of (byte_bits bytes.now) }
    ensures bound { result < 2 ^ 56 }
{
    let mut value = 0u64;
    'bytes: for byte in bytes {
        value = value * 256 + u64::from(*byte);
    }
    value
}

// how many bits stand before the last 1 bit, 0 where there is none
pub(crate) fn stop_bit(bytes: &[u8]) -> u128
    ensures stop { result ≡ length (bits_before_stop bytes.now) }
    ensures inside { result ≤ 8 * length bytes.now }
{
    let mut len = bytes.len();
    while len > 0 && bytes[len - 1] == 0 {
        len -= 1;
    }
    if len == 0 {
        return 0;
    }
    8 * (len as u128 - 1) + (7 - bytes[len - 1].trailing_zeros()) as u128
}
