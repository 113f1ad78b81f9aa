//! What a slice's header is asked before its data is read.

ghost use Rattle.std.specs.Prelude.{◌≡◌, Some, None, MatchResult};
ghost use Rattle.avc_picture.specs.DecoderState.{address_fault};

use avc_slice::Header;
use avc_types::Fault;

/// first_mb_in_slice is to be the next expected address (7.4.3).
pub(crate) fn check_address(next: u32, header: &Header) -> Result<(), Fault>
    ensures { MatchResult result
        (λ _. address_fault next header.now.first_mb_in_slice ≡ None)
        (λ fault. address_fault next header.now.first_mb_in_slice ≡ Some fault) }
{
    let first = header.first_mb_in_slice.get();
    if next < first {
        return Err(Fault::MissingMacroblocks);
    }
    if first < next {
        return Err(Fault::ArbitrarySliceOrder);
    }
    Ok(())
}
