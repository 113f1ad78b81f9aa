//! Order counts within 32 bits.

ghost use Rattle.std.specs.Prelude.{◌≡◌, ◌^◌, nat_lt, if◌then◌else◌, Ok, Err};
ghost use Rattle.avc_types.specs.declared.fault.Fault.TheVariants.{PocRange};
ghost use Rattle.avc_poc.specs.OrderCountState.{count_pair, counts_of, pair};
ghost use Rattle.avc_poc.specs.OrderCounts.{both_in_32_bits, in_32_bits, in_range};
ghost use Rattle.avc_poc.specs.OrderCounts.{lowered_by_operation_5};

use avc_slice::Header;
use avc_types::Fault;

/// FrameNumOffset + frame_num within 31 bits.
pub(crate) fn narrow_number(number: u64) -> Result<u32, Fault>
    ensures { result ≡ (if nat_lt number (2 ^ 31) then Ok number else Err PocRange) }
{
    if number < 1 << 31 {
        Ok(number as u32)
    } else {
        Err(Fault::PocRange)
    }
}

fn narrow(count: i128) -> Result<i32, Fault>
    ensures { result ≡ (if in_32_bits count then Ok count else Err PocRange) }
{
    if -(1 << 31) <= count && count < 1 << 31 {
        Ok(count as i32)
    } else {
        Err(Fault::PocRange)
    }
}

// Both counts within 32 signed bits.
fn both(counts: (i128, i128)) -> Result<(i32, i32), Fault>
    ensures { result ≡ (if both_in_32_bits (counts_of counts) then Ok counts else Err PocRange) }
{
    let top = narrow(counts.0)?;
    let bottom = narrow(counts.1)?;
    Ok((top, bottom))
}

// Both less the smaller.
fn lowered_by_operation_5(top: i32, bottom: i32) -> (i128, i128)
    ensures { result ≡ pair (lowered_by_operation_5 (counts_of (top, bottom))) }
{
    let least = i128::from(top.min(bottom));
    (i128::from(top) - least, i128::from(bottom) - least)
}

/// The counts as they are answered: lowered by the smaller where the picture has
/// memory_management_control_operation 5.
pub(crate) fn in_range(header: &Header, counts: (i128, i128)) -> Result<(i32, i32), Fault>
    ensures { result ≡ count_pair (in_range header.now (counts_of counts)) }
{
    let (top, bottom) = both(counts)?;
    if header.has_operation_5() {
        both(lowered_by_operation_5(top, bottom))
    } else {
        Ok((top, bottom))
    }
}
