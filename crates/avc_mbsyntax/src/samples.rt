//! The samples of an I_PCM macroblock.
ghost use Rattle.std.specs.Prelude.{◌≡◌, ◌<◌, ◌%◌, IfOk};
ghost use Rattle.avc_bits.specs.Bits.{times};
ghost use Rattle.avc_bits.specs.Codes.{u};
ghost use Rattle.avc_bits.specs.Reader.{Reads, reader_bits};

use avc_bits::BitReader;
use avc_types::Fault;

/// N samples of eight bits, from the start of a byte on.
pub(crate) fn read_samples<const N: usize>(reader: &mut BitReader) -> Result<[u8; N], Fault>
    requires some { 0 < N }
    requires aligned { (reader_bits reader.old).position % 8 ≡ 0 }
    ensures read { Reads result (times N (u 8)) reader.old reader.new }
    ensures aligned { IfOk result (λ _. (reader_bits reader.new).position % 8 ≡ 0) }
{
    let taken = reader.take_bytes(N)?;
    let mut samples = [0; N];
    samples.copy_from_slice(taken);
    Ok(samples)
}
