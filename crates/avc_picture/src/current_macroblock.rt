//! The macroblock that is decoded, read where it need not be cleared for the next one.

ghost use Rattle.std.specs.Prelude.{◌≡◌, List, Ok, Some, true, false};
ghost use Rattle.std.specs.Option.{option_copied};
ghost use Rattle.avc_types.specs.Pictures.{PicMb};
ghost use Rattle.avc_mbsyntax.specs.Rest.{Follows, IsHandedOut, handed_out};
ghost use Rattle.avc_mbsyntax.specs.SliceData.{SliceStart, left_total_coeffs, up_total_coeffs};

use avc_mbsyntax::SliceData;
use avc_neigh::TotalCoeffs;
use avc_types::{Fault, Mb, Syntax};
use std::marker::Model;

/// The macroblock that was read last. Skipped macroblocks are read into one place and all others
/// into another, since what is written where one kind follows the other is large. A contract sees
/// the macroblock alone.
#[derive(Drop)]
pub(crate) struct CurrentMacroblock {
    skipped: Mb,
    other: Mb,

    /// Whether it is the one in `skipped`.
    is_skipped: bool,
}

impl Model for CurrentMacroblock {
    ghost use Rattle.std.specs.Prelude.{if◌then◌else◌};
    ghost use Rattle.avc_types.specs.Macroblock.{Mb};

    ghost Value = { Mb };

    ghost view = { λ c. if c.is_skipped then c.skipped else c.other };
}

impl CurrentMacroblock {
    /// Before any is read.
    pub(crate) fn new() -> Self {
        CurrentMacroblock {
            skipped: Mb {
                syntax: Syntax::PSkip,
                qp: 0,
            },
            other: Mb {
                syntax: Syntax::PSkip,
                qp: 0,
            },
            is_skipped: true,
        }
    }

    /// The macroblock.
    #[inline]
    pub(crate) fn mb(&self) -> &Mb
        ensures { result.now ≡ self.now }
    {
        if self.is_skipped {
            &self.skipped
        } else {
            &self.other
        }
    }

    /// Reads the next macroblock of the data where it is one of a run of skipped ones that was
    /// read. Answers whether it is; if not, nothing was read.
    #[inline]
    pub(crate) fn read_skipped(&mut self, unread: &mut SliceData<'_>) -> bool
        ensures skipped { result ≡ true → (s : SliceStart) (before : List PicMb) →
            Follows s before unread.old
            → IsHandedOut s before (Ok (Some self.new)) unread.old unread.new }
        ensures other { result ≡ false → unread.new ≡ unread.old }
    {
        self.is_skipped = unread.next_skipped(&mut self.skipped);
        self.is_skipped
    }

    /// Reads the next macroblock of the data, as its neighbours to the left and above have it read.
    /// Answers whether there was one.
    #[inline]
    pub(crate) fn read(
        &mut self,
        unread: &mut SliceData<'_>,
        left: Option<&TotalCoeffs>,
        up: Option<&TotalCoeffs>,
    ) -> Result<bool, Fault>
        ensures { (s : SliceStart) (before : List PicMb) → Follows s before unread.old →
            option_copied left.entry ≡ left_total_coeffs s before
            → option_copied up.entry ≡ up_total_coeffs s before →
            IsHandedOut s before (handed_out result self.new) unread.old unread.new }
    {
        self.is_skipped = false;
        unread.next(left, up, &mut self.other)
    }
}
