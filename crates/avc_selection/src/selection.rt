//! Which macroblocks of a stream are told.

ghost use Rattle.std.specs.Prelude.{◌≡◌};
ghost use Rattle.avc_selection.specs.Selected.{selection_of};

/// A macroblock of a picture, which is told with its neighbours.
#[derive(Clone, Copy)]
pub struct AtMacroblock {
    /// The place of the unit of its picture's first slice among the stream's units, from 0.
    pub unit: u64,

    /// Its address (6.4.1).
    pub address: u32,
}

/// Those that are told.
#[derive(Clone, Copy)]
pub enum Selection {
    /// Those of the whole stream.
    Whole,

    /// Those of the picture of this number, counted from 0.
    OfPicture(u64),

    /// This one, and those to the left, above, above to the right and above to the left of it
    /// (mbAddrA to mbAddrD, 6.4.9) where the picture has them.
    Near(AtMacroblock),
}

impl Selection {
    /// All macroblocks, or those of the picture of this number.
    pub fn of(picture: Option<u64>) -> Selection
        ensures { result ≡ selection_of picture }
    {
        match picture {
            None => Selection::Whole,
            Some(number) => Selection::OfPicture(number),
        }
    }
}
