//! The residual of a 4x4 block (8.5.1 to 8.5.4, 8.5.12).

ghost use Rattle.std.specs.Prelude.{◌≡◌, ℕ, ℤ, ◌+◌, ◌*◌, ◌^◌, ◌<◌, ◌≤◌, pos, List};
ghost use Rattle.avc_transform.specs.Bounds.{IsBelow, AllBelow, HasRows};
ghost use Rattle.avc_transform.specs.Residual.{level, residual4x4, residual4x4_with_dc};

use crate::inverse::{rounded, transformed};
use crate::scaling::{scaled_levels, scaled_levels_with_dc};

/// The residual of a 4x4 block of sixteen levels, at a quantiser of 0 to 51 (8.5.1, 8.5.12).
pub fn residual4x4(levels: &[i16; 16], qp: u8) -> [i32; 16]
    requires quantiser { qp ≤ 51 }
    requires levels { AllBelow 16 (2 ^ 12) levels.now }
    ensures values { HasRows (residual4x4 qp levels.now) result }
    ensures small { AllBelow 16 (2 ^ 25) result }
{
    transformed(scaled_levels(levels, qp))
}

/// The residual of a 4x4 block whose DC value comes from `luma_dc` or `chroma_dc` and stands before
/// fifteen levels (8.5.2, 8.5.4, 8.5.12).
pub fn residual4x4_with_dc(dc: i32, levels: &[i16; 15], qp: u8) -> [i32; 16]
    requires quantiser { qp ≤ 51 }
    requires dc { IsBelow (2 ^ 27) dc }
    requires levels { AllBelow 15 (2 ^ 12) levels.now }
    ensures values { HasRows (residual4x4_with_dc qp dc levels.now) result }
    ensures small { AllBelow 16 (2 ^ 25) result }
{
    transformed(scaled_levels_with_dc(dc, levels, qp))
}

/// What `residual4x4_with_dc` gives at every sample of a block whose fifteen levels are all 0.
pub fn residual_of_dc(dc: i32) -> i32
    requires { IsBelow (2 ^ 27) dc }
    ensures values { (qp : ℕ) (levels : List ℤ) (x y : ℕ) → ((i : ℕ) → level levels i ≡ pos 0) →
        result ≡ residual4x4_with_dc qp dc levels x y }
    ensures small { IsBelow (2 ^ 25) result }
{
    rounded(dc)
}
