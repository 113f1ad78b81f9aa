//! total_coeff of the neighbouring macroblocks, component by component.
ghost use Rattle.std.specs.Prelude.{◌≡◌};
ghost use Rattle.std.specs.Option.{option_copied};
ghost use Rattle.avc_mbsyntax.specs.Reading.{cb_side, cr_side, luma_side};

use avc_neigh::TotalCoeffs;

/// Of the luma blocks, where the macroblock is available.
pub fn luma_side(total_coeffs: &Option<TotalCoeffs>) -> Option<&[u8; 16]>
    ensures { option_copied result ≡ luma_side total_coeffs.now }
{
    match total_coeffs {
        Some(total_coeffs) => Some(&total_coeffs.luma),
        None => None,
    }
}

/// Of the Cb blocks, likewise.
pub fn cb_side(total_coeffs: &Option<TotalCoeffs>) -> Option<&[u8; 4]>
    ensures { option_copied result ≡ cb_side total_coeffs.now }
{
    match total_coeffs {
        Some(total_coeffs) => Some(&total_coeffs.cb),
        None => None,
    }
}

/// Of the Cr blocks, likewise.
pub fn cr_side(total_coeffs: &Option<TotalCoeffs>) -> Option<&[u8; 4]>
    ensures { option_copied result ≡ cr_side total_coeffs.now }
{
    match total_coeffs {
        Some(total_coeffs) => Some(&total_coeffs.cr),
        None => None,
    }
}

/// total_coeff of the luma blocks of a neighbour that is lent.
pub(crate) fn luma_counts(total_coeffs: Option<&TotalCoeffs>) -> Option<&[u8; 16]>
    ensures { option_copied result ≡ luma_side (option_copied total_coeffs.entry) }
{
    match total_coeffs {
        Some(total_coeffs) => Some(&total_coeffs.luma),
        None => None,
    }
}

/// Likewise.
pub(crate) fn cb_counts(total_coeffs: Option<&TotalCoeffs>) -> Option<&[u8; 4]>
    ensures { option_copied result ≡ cb_side (option_copied total_coeffs.entry) }
{
    match total_coeffs {
        Some(total_coeffs) => Some(&total_coeffs.cb),
        None => None,
    }
}

/// Likewise.
pub(crate) fn cr_counts(total_coeffs: Option<&TotalCoeffs>) -> Option<&[u8; 4]>
    ensures { option_copied result ≡ cr_side (option_copied total_coeffs.entry) }
{
    match total_coeffs {
        Some(total_coeffs) => Some(&total_coeffs.cr),
        None => None,
    }
}
