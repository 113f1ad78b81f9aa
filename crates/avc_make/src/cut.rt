//! Parts of an RBSP (7.2).
ghost use Rattle.std.specs.Prelude.{◌≡◌, false, take, IfOk};
ghost use Rattle.avc_bits.specs.Bits.{bits_before_stop};
ghost use Rattle.avc_rbsp.specs.Made.{Puts, nothing};
ghost use Rattle.avc_rbsp.specs.Rbsps.{IsRbsp};

use avc_bits::BitReader;
use avc_rbsp::BitMaker;
use avc_types::OutOfMemory;
use std::alloc::Global;

/// The RBSP of the first `n` bits before the stop bit of another, or of all of them where there are
/// fewer. It has no escapes.
pub fn cut_bits(alloc: Global, rbsp: &[u8], n: usize) -> Result<Vec<u8>, OutOfMemory>
    ensures { IfOk result (λ cut. IsRbsp (take n (bits_before_stop rbsp.now)) cut.items) }
{
    let mut maker = BitMaker::new(alloc);
    cut_by(alloc, &mut maker, rbsp, n)
}

// By a maker that has no bits yet.
fn cut_by(
    alloc: Global,
    maker: &mut BitMaker,
    rbsp: &[u8],
    n: usize,
) -> Result<Vec<u8>, OutOfMemory>
    requires { maker.old ≡ nothing }
    ensures { IfOk result (λ cut. IsRbsp (take n (bits_before_stop rbsp.now)) cut.items) }
{
    put_first(maker, rbsp, n)?;
    // rbsp_stop_one_bit
    maker.flag(true)?;
    let mut cut = Vec::new(alloc);
    cut.extend_from_slice(maker.bytes())?;
    Ok(cut)
}

fn put_first(maker: &mut BitMaker, rbsp: &[u8], n: usize) -> Result<(), OutOfMemory>
    requires { maker.old.failed ≡ false }
    ensures { Puts result (take n (bits_before_stop rbsp.now)) maker.old maker.new }
{
    let mut reader = BitReader::new(rbsp);
    'bits: for _ in 0..n {
        let Ok(bit) = reader.flag() else {
            return Ok(());
        };
        maker.flag(bit)?;
    }
    Ok(())
}
