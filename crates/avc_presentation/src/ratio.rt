//! Ratios in lowest terms.

ghost use Rattle.std.specs.Prelude.{◌≡◌, ◌/◌, ◌<◌};
ghost use Rattle.std.specs.Int.{IsGcd};
ghost use Rattle.avc_presentation.specs.Ratios.{IsLowest};

/// One number to another.
#[derive(Clone, Copy)]
pub struct Ratio {
    pub numerator: u64,
    pub denominator: u64,
}

/// A ratio in lowest terms.
pub fn lowest_terms(numerator: u64, denominator: u64) -> Ratio
    requires { 0 < denominator }
    ensures { IsLowest numerator denominator result }
{
    let divisor = greatest_common_divisor(numerator, denominator);
    Ratio {
        numerator: numerator / divisor,
        denominator: denominator / divisor,
    }
}

// Of two numbers that are not both 0 it is above 0.
fn greatest_common_divisor(a: u64, b: u64) -> u64
    requires { 0 < b }
    ensures divisor { IsGcd a b result }
    ensures above { 0 < result }
{
    let mut x = a;
    let mut y = b;
    while y != 0 {
        let rest = x % y;
        x = y;
        y = rest;
    }
    x
}
