//! CRC-32 (ISO/IEC 15948, 5.5), by a table of what a byte leaves in an empty register.

ghost use Rattle.std.specs.Prelude.{◌≡◌, ◌++◌, fold};
ghost use Rattle.avc_png.specs.Checksums.{after_bit, after_byte, crc_32, IsTable};

const POLYNOMIAL: u32 = 0xEDB8_8320;

// How many values a byte has.
const BYTES: usize = 256;

/// CRC-32 of the first bytes, the second and the third, one behind another.
pub fn crc_32(first: &[u8], second: &[u8], third: &[u8]) -> u32
    ensures { result ≡ crc_32 (first.now ++ second.now ++ third.now) }
{
    let table = table();
    let register = after_bytes(&table, u32::MAX, first);
    let register = after_bytes(&table, register, second);
    after_bytes(&table, register, third) ^ u32::MAX
}

// The register after these bytes.
fn after_bytes(table: &[u32; BYTES], before: u32, bytes: &[u8]) -> u32
    requires { IsTable table.now }
    ensures { result ≡ fold after_byte before bytes.now }
{
    let mut register = before;
    for byte in bytes {
        register = after_byte(table, register, *byte);
    }
    register
}

#[inline(always)]
fn after_byte(table: &[u32; BYTES], before: u32, byte: u8) -> u32
    requires { IsTable table.now }
    ensures { result ≡ after_byte before byte }
{
    let place = (before ^ u32::from(byte)) % 256;
    table[place as usize] ^ (before / 256)
}

fn table() -> [u32; BYTES]
    ensures { IsTable result }
{
    let mut table = [0; BYTES];
    for byte in 0..BYTES {
        table[byte] = entry(byte as u32);
    }
    table
}

// What a byte leaves in an empty register.
fn entry(byte: u32) -> u32
    ensures { result ≡ after_byte 0 byte }
{
    let mut register = byte;
    register = after_bit(register);
    register = after_bit(register);
    register = after_bit(register);
    register = after_bit(register);
    register = after_bit(register);
    register = after_bit(register);
    register = after_bit(register);
    after_bit(register)
}

#[tactic(auto, unfolding(crate::specs::Checksums::after_bit))]
fn after_bit(register: u32) -> u32
    ensures { result ≡ after_bit register }
{
    if register % 2 == 1 {
        (register / 2) ^ POLYNOMIAL
    } else {
        register / 2
    }
}
