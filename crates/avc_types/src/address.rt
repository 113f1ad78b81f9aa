//! Addresses of macroblocks (6.4.1).

ghost use Rattle.std.specs.Prelude.{◌≡◌, ℕ};

use std::marker::Model;

/// The address of a macroblock (mbAddr, 6.4.1): its place in the raster scan of the picture's
/// macroblocks, from 0 on. A contract sees it as that number.
#[derive(Clone, Copy)]
pub struct MbAddr {
    address: u32,
}

impl Model for MbAddr {
    ghost Value = { ℕ };

    ghost view = { λ a. a.address };

    ghost inverse = { λ n. record { address = n } };
}

impl MbAddr {
    pub fn new(address: u32) -> MbAddr
        ensures { result ≡ address }
    {
        MbAddr { address }
    }

    /// The address as a number.
    pub fn get(self) -> u32
        ensures { result ≡ self }
    {
        self.address
    }
}
