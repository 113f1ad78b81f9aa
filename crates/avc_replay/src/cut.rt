//! A slice that ends behind one of its macroblocks.

ghost use Rattle.std.specs.Prelude.{◌≡◌, ◌-◌, ◌<◌, ◌^◌, drop, false, take, IfOk, IfSome};
ghost use Rattle.avc_annexb.specs.Escapes.{rbsp};
ghost use Rattle.avc_bits.specs.Bits.{bits_before_stop};
ghost use Rattle.avc_rbsp.specs.Made.{Puts};
ghost use Rattle.avc_replay.specs.Cutting.{first_bits, run_bits, IsCutUnit};

use avc_annexb::unescape;
use avc_bits::BitReader;
use avc_rbsp::laws::{escapes_are_removed, rbsps_are_read};
use avc_rbsp::{BitMaker, escape};
use avc_types::OutOfMemory;
use std::alloc::Global;

/// The unit with this header byte whose RBSP has the first bits of that of this body, then an
/// mb_skip_run, where one is given, and the stop bit (7.3.2.11, 7.3.4).
pub fn cut_unit(
    alloc: Global,
    header: u8,
    body: &[u8],
    kept_bits: u128,
    run: Option<u32>,
) -> Result<Vec<u8>, OutOfMemory>
    requires { IfSome run (λ n. n < 2 ^ 32 - 1) }
    ensures is { IfOk result (λ unit. IsCutUnit header body.now kept_bits run unit.items) }
    ensures read { IfOk result (λ unit. bits_before_stop (rbsp (drop 1 unit.items))
        ≡ first_bits body.now kept_bits run) }
{
    escapes_are_removed();
    rbsps_are_read();
    let rbsp = unescape(alloc, body)?;
    let mut maker = BitMaker::new(alloc);
    put_first(&mut maker, &rbsp, kept_bits)?;
    put_run(&mut maker, run)?;
    // rbsp_stop_one_bit
    maker.flag(true)?;
    let body = escape(alloc, maker.bytes())?;
    let mut unit = Vec::new(alloc);
    unit.push(header)?;
    unit.extend_from_slice(&body)?;
    Ok(unit)
}

fn put_first(maker: &mut BitMaker, rbsp: &[u8], count: u128) -> Result<(), OutOfMemory>
    requires { maker.old.failed ≡ false }
    ensures { Puts result (take count (bits_before_stop rbsp.now)) maker.old maker.new }
{
    let mut reader = BitReader::new(rbsp);
    'bits: for _ in 0..count {
        let Ok(bit) = reader.flag() else {
            return Ok(());
        };
        maker.flag(bit)?;
    }
    Ok(())
}

fn put_run(maker: &mut BitMaker, run: Option<u32>) -> Result<(), OutOfMemory>
    requires going { maker.old.failed ≡ false }
    requires run { IfSome run (λ n. n < 2 ^ 32 - 1) }
    ensures { Puts result (run_bits run) maker.old maker.new }
{
    match run {
        Some(run) => maker.ue(run),
        None => Ok(()),
    }
}
