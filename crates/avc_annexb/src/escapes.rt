//! From a unit's body to its RBSP, without emulation_prevention_three_byte (7.3.1).

ghost use Rattle.std.specs.Prelude.{◌≡◌, IfOk};
ghost use Rattle.avc_annexb.specs.Escapes.{rbsp, unescaped_run, zeros_after};

use avc_types::OutOfMemory;
use memchr::memchr;
use std::alloc::Global;

/// The RBSP of a unit's body (7.3.1): the 03 of each 00 00 03 is left out.
pub fn unescape(alloc: Global, body: &[u8]) -> Result<Vec<u8>, OutOfMemory>
    ensures { IfOk result (λ raw. raw.items ≡ rbsp body.now) }
{
    unescape_in(Vec::new(alloc), body)
}

/// The RBSP of a unit's body (7.3.1) in the place of bytes that are over, so that memory is taken
/// only where they had less room.
pub fn unescape_in(over: Vec<u8>, body: &[u8]) -> Result<Vec<u8>, OutOfMemory>
    ensures { IfOk result (λ raw. raw.items ≡ rbsp body.now) }
{
    let mut raw = over;
    raw.clear();
    raw.reserve(body.len())?;
    let mut zeros = 0u8;
    let mut place = 0;
    while let Some(len) = memchr(0, &body[place..]) {
        let run = &body[place..place + len];
        raw.extend_from_slice(without_escape(zeros, run))?;
        raw.push(0)?;
        zeros = one_more(zeros, run);
        place = place + len + 1;
    }
    raw.extend_from_slice(without_escape(zeros, &body[place..]))?;
    Ok(raw)
}

/// A run that has no zero, without its 03 where two zeros stand before it.
fn without_escape(zeros: u8, run: &[u8]) -> &[u8]
    ensures { result.now ≡ unescaped_run zeros run.now }
{
    match run {
        [3, others @ ..] if zeros == 2 => others,
        _ => run,
    }
}

/// How many zeros stand at the end, at most two, after so many zeros, a run that has none, and one
/// zero.
fn one_more(zeros: u8, run: &[u8]) -> u8
    ensures { result ≡ zeros_after zeros run.now }
{
    match run {
        [] if zeros > 0 => 2,
        _ => 1,
    }
}
