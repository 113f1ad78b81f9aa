//! Reading: how much at once, how often, and once.

ghost use Rattle.std.specs.Prelude.{◌≡◌, IfOk, IfErr, OnErr, take, length, ◌≤◌, ◌<◌};
ghost use Rattle.std.specs.Io.KnownBytes.{Consumes, IsAtEnd, Keeps};
ghost use Rattle.avc_console.specs.declared.fault.RunFault.TheVariants as faults;

use crate::fault::RunFault;
use std::alloc::Global;
use std::io::Read;

/// The most bytes of one read.
pub const PIECE: usize = 65_536;

/// The most reads of one run.
pub const READS: u64 = 4_294_967_296;

/// The most bytes of a unit.
pub const MAX_UNIT: usize = 134_217_728;

const _: () = prove!(PIECE == 65_536 && READS == 4_294_967_296);

pub fn zeros(alloc: Global, count: usize) -> Result<Vec<u8>, RunFault>
    ensures ok { IfOk result (λ bytes. length bytes.items ≡ count) }
    ensures err { IfErr result (λ fault. fault ≡ faults.Memory) }
{
    Ok(vec![in alloc; 0; count]?)
}

/// How many bytes one `read` gave: none only where no more come. An error is a fault, also one that
/// tells of an interruption.
pub fn read_once<R: Read>(reader: &mut R, piece: &mut [u8]) -> Result<usize, RunFault>
    ensures length { length piece.new ≡ length piece.old }
    ensures within { IfOk result (λ len. len ≤ length piece.new) }
    ensures bytes { IfOk result
        (λ len. Consumes (R.remaining reader.old) (R.remaining reader.new) (take len piece.new)) }
    ensures last { IfOk result (λ len. len ≡ 0 → 0 < length piece.old →
        IsAtEnd (R.remaining reader.new)) }
    ensures fault { IfErr result (λ fault. fault ≡ faults.Read) }
    ensures err { OnErr result (Keeps (R.remaining reader.old) (R.remaining reader.new)) }
{
    match reader.read(piece) {
        Ok(len) => Ok(len),
        Err(_) => Err(RunFault::Read),
    }
}
