//! Adler-32 (RFC 1950, 2.2).

ghost use Rattle.std.specs.Prelude.{◌≡◌};
ghost use Rattle.avc_png.specs.Checksums.{adler_32};

const MODULUS: u32 = 65_521;

/// Adler-32 of these bytes.
pub fn adler_32(bytes: &[u8]) -> u32
    ensures { result ≡ adler_32 bytes.now }
{
    let mut low = 1;
    let mut high = 0;
    for byte in bytes {
        low = (low + u32::from(*byte)) % MODULUS;
        high = (high + low) % MODULUS;
    }
    high * 65_536 + low
}
