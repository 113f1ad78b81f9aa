//! The samples of I_PCM macroblocks (7.3.5).
ghost use Rattle.std.specs.Prelude.{◌≡◌, false, length};
ghost use Rattle.avc_bits.specs.Bits.{byte_bits};
ghost use Rattle.avc_rbsp.specs.Made.{Puts};
ghost use Rattle.avc_make.specs.MbWriting.{i_pcm_bits, zeros_to_byte};

use avc_make_headers::put_each;
use avc_rbsp::BitMaker;
use avc_types::OutOfMemory;

/// pcm_alignment_zero_bit, pcm_sample_luma and pcm_sample_chroma.
pub(crate) fn put_pcm_samples(
    maker: &mut BitMaker,
    luma: &[u8; 256],
    cb: &[u8; 64],
    cr: &[u8; 64],
) -> Result<(), OutOfMemory>
    requires { maker.old.failed ≡ false }
    ensures { Puts result (i_pcm_bits (length maker.old.bits) luma.now cb.now cr.now) maker.old
        maker.new }
{
    put_alignment(maker)?;
    put_bytes(maker, luma)?;
    put_bytes(maker, cb)?;
    put_bytes(maker, cr)?;
    Ok(())
}

// pcm_alignment_zero_bit, up to the next byte
fn put_alignment(maker: &mut BitMaker) -> Result<(), OutOfMemory>
    requires { maker.old.failed ≡ false }
    ensures { Puts result (zeros_to_byte (length maker.old.bits)) maker.old maker.new }
{
    let count = (8 - maker.len() % 8) % 8;
    maker.put(count as u32, 0)?;
    Ok(())
}

// bytes one after another
fn put_bytes(maker: &mut BitMaker, bytes: &[u8]) -> Result<(), OutOfMemory>
    requires { maker.old.failed ≡ false }
    ensures { Puts result (byte_bits bytes.now) maker.old maker.new }
{
    put_each(maker, bytes)?;
    Ok(())
}
