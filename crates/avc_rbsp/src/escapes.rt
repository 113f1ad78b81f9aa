//! From an RBSP to a unit's body, with emulation_prevention_three_byte (7.3.1).

ghost use Rattle.std.specs.Prelude.{◌≡◌, ◌++◌, ◌≤◌, IfOk, OnOk};
ghost use Rattle.avc_rbsp.specs.Escaping.{escaped, escaped_byte, zeros_with};

use avc_types::OutOfMemory;
use std::alloc::Global;

/// The body of a unit with this RBSP: a 03 stands in each place where a start code could be seen
/// (7.3.1, 7.4.1).
pub fn escape(alloc: Global, rbsp: &[u8]) -> Result<Vec<u8>, OutOfMemory>
    ensures { IfOk result (λ body. body.items ≡ escaped rbsp.now) }
{
    let mut body = Vec::with_capacity(alloc, rbsp.len())?;
    let mut zeros = 0u8;
    for &byte in rbsp {
        push_escaped(&mut body, zeros, byte)?;
        zeros = one_more(zeros, byte);
    }
    Ok(body)
}

// a byte, with a 03 before it where that is wanted
fn push_escaped(body: &mut Vec<u8>, zeros: u8, byte: u8) -> Result<(), OutOfMemory>
    ensures { OnOk result (body.new.items ≡ body.old.items ++ escaped_byte zeros byte) }
{
    if zeros == 2 && byte <= 3 {
        body.push(3)?;
    }
    body.push(byte)?;
    Ok(())
}

// how many zeros stand at the end, at most two
fn one_more(zeros: u8, byte: u8) -> u8
    requires { zeros ≤ 2 }
    ensures value { result ≡ zeros_with zeros byte }
    ensures few { result ≤ 2 }
{
    if byte > 0 {
        0
    } else if zeros == 2 {
        1
    } else {
        zeros + 1
    }
}
