//! The front of a stream, which is read before its first picture is written.

ghost use Rattle.std.specs.Prelude.{IfErr, IfOk};
ghost use Rattle.avc_formats.specs.Front.{IsFront, IsLooking, NoFront};

use crate::first_set::find_set;
use avc_annexb::Splitter;
use avc_annexb::laws::units_stay;
use avc_console::{MAX_UNIT, PIECE, RunFault, read_once};
use avc_presentation::Presentation;
use avc_units::HeaderReader;
use std::alloc::Global;
use std::io::Read;

/// So many bytes are looked at.
const FRONT: usize = MAX_UNIT;

/// The front of a stream, up to the end of the first slice that is decoded, and what that slice's
/// set says.
#[derive(Drop)]
pub struct Front {
    pub bytes: Vec<u8>,
    pub said: Presentation,
}

/// Reads the front of a stream.
pub fn read_front<R: Read>(alloc: Global, reader: &mut R) -> Result<Front, RunFault>
    ensures ok { IfOk result (λ front. IsFront (R.remaining reader.old) (R.remaining reader.new)
        front.bytes.items front.said) }
    ensures err { IfErr result
        (λ fault. NoFront fault (R.remaining reader.old) (R.remaining reader.new)) }
{
    let mut splitter = Splitter::<MAX_UNIT>::new(alloc);
    let mut headers = HeaderReader::new(alloc);
    let mut bytes = Vec::new(alloc);
    let said = read_to_set(alloc, &mut splitter, &mut headers, &mut bytes, reader)?;
    Ok(Front { bytes, said })
}

// Reads on until it is known what the set says, and keeps what was read.
fn read_to_set<R: Read>(
    alloc: Global,
    splitter: &mut Splitter<MAX_UNIT>,
    headers: &mut HeaderReader,
    bytes: &mut Vec<u8>,
    reader: &mut R,
) -> Result<Presentation, RunFault>
    requires { IsLooking (R.remaining reader.old) (R.remaining reader.old) bytes.old.items
        splitter.old headers.old }
    ensures ok { IfOk result
        (λ said. IsFront (R.remaining reader.old) (R.remaining reader.new) bytes.new.items said) }
    ensures err { IfErr result
        (λ fault. NoFront fault (R.remaining reader.old) (R.remaining reader.new)) }
{
    units_stay();
    let mut piece = [0; PIECE];
    'reads: while bytes.len() < FRONT {
        let len = read_once(reader, &mut piece)?;
        if len == 0 {
            splitter.finish()?;
            let said = find_set(alloc, splitter, headers)?.unwrap_or(Presentation::none());
            return Ok(said);
        }
        bytes.extend_from_slice(&piece[..len])?;
        splitter.feed(&piece[..len])?;
        if let Some(said) = find_set(alloc, splitter, headers)? {
            return Ok(said);
        }
    }
    Ok(Presentation::none())
}
