//! Where a macroblock stands.

ghost use Rattle.std.specs.Prelude.{◌≡◌, ◌≤◌, ◌<◌, ◌^◌};
ghost use Rattle.avc_selection.specs.Places.{behind};

/// Where a macroblock stands in its stream.
#[derive(Clone, Copy)]
pub struct MacroblockPlace {
    /// The place of its slice's unit among the stream's units, from 0.
    pub unit: u64,

    /// The number of its slice in its picture, from 0. Slices without a macroblock don't count.
    pub slice: u32,

    /// Its address (6.4.1).
    pub address: u64,
}

impl MacroblockPlace {
    /// That of the macroblock that comes so many behind it in its slice.
    pub fn behind(self, count: u64) -> MacroblockPlace
        requires address { self.address < 2 ^ 32 }
        requires count { count ≤ 2 ^ 32 }
        ensures { result ≡ behind self count }
    {
        MacroblockPlace {
            address: self.address + count,
            ..self
        }
    }
}
