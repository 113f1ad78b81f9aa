//! The data of a slice (7.3.4), one macroblock at a time.
ghost use Rattle.std.specs.Prelude.{◌≡◌, ◌+◌, ◌<◌, List, length, true, false, IfOk, Ok, Some};
ghost use Rattle.std.specs.Option.{option_copied};
ghost use Rattle.avc_types.specs.Pictures.{PicMb};
ghost use Rattle.avc_types.specs.declared.mb.Syntax.TheVariants.{PSkip};
ghost use Rattle.avc_bits.specs.Reader.{reader_bits};
ghost use Rattle.avc_mbsyntax.specs.SliceData.{SliceStart, left_total_coeffs, slice_data};
ghost use Rattle.avc_mbsyntax.specs.SliceData.{up_total_coeffs};

use crate::context::LentContext;
use crate::macroblock::read_into;
use crate::stage::{Stage, stage_after};
use avc_bits::BitReader;
use avc_neigh::TotalCoeffs;
use avc_types::{Fault, Mb, Syntax};

/// The data of a slice that is being read. It keeps no macroblock.
#[derive(Clone, Copy)]
pub struct SliceData<'a> {
    reader: BitReader<'a>,
    is_p: bool,
    num_ref_idx_active: u8,
    // QP_Y of the macroblock before in the slice, at first SliceQP_Y
    qp: u8,
    // how many macroblocks of the picture remain
    remaining: u32,
    stage: Stage,
}

// P_Skip in this place, which is large: nothing is written where that stands there already.
fn set_skipped(syntax: &mut Syntax)
    ensures { syntax.new ≡ PSkip }
{
    match syntax {
        Syntax::PSkip => {}
        _ => *syntax = Syntax::PSkip,
    }
}

impl<'a> SliceData<'a> {
    ghost use Rattle.avc_mbsyntax.specs.Rest.{Follows, IsHandedOut, IsOneMore, IsRun, IsSkipped};
    ghost use Rattle.avc_mbsyntax.specs.Rest.{handed_out, read_out, rest_of};
    ghost use Rattle.avc_mbsyntax.specs.declared.stage.Stage.TheVariants.{Next, Skipped};

    /// The data that a reader has ahead: of a P slice or an I slice, with `num_ref_idx_active`
    /// entries in RefPicList0 and the quantiser `qp` (SliceQP_Y), where so many macroblocks of the
    /// picture remain.
    pub fn new(
        reader: BitReader<'a>,
        is_p: bool,
        num_ref_idx_active: u8,
        qp: u8,
        remaining: u32,
    ) -> Self
        ensures { (s : SliceStart) (before : List PicMb) → s.is_p ≡ is_p → s.num_ref_idx_active
            ≡ num_ref_idx_active → s.qp ≡ qp
            → s.size ≡ length before + remaining
            → Follows s before result ×
            (rest_of s before result ≡ slice_data s before (reader_bits reader.entry)) }
    {
        SliceData {
            reader,
            is_p,
            num_ref_idx_active,
            qp,
            remaining,
            stage: Stage::Next,
        }
    }

    /// Reads the next macroblock into `mb`, and answers whether there was one; `false` where the
    /// data has ended, or the first fault in the data, which then comes again. `left` and `up` have
    /// total_coeff of the macroblocks to the left of it and above, where these are available.
    /// Without a macroblock, anything may stand in `mb`.
    pub fn next(
        &mut self,
        left: Option<&TotalCoeffs>,
        up: Option<&TotalCoeffs>,
        mb: &mut Mb,
    ) -> Result<bool, Fault>
        ensures { (s : SliceStart) (before : List PicMb) → Follows s before self.old →
            option_copied left.entry ≡ left_total_coeffs s before
            → option_copied up.entry ≡ up_total_coeffs s before →
            IsHandedOut s before (handed_out result mb.new) self.old self.new }
    {
        match self.stage {
            Stage::Next => self.start(left, up, mb),
            Stage::Skipped(count) => self.go_on(count, left, up, mb),
            Stage::Ended => Ok(false),
        }
    }

    /// Reads how many skipped macroblocks come next (mb_skip_run) where that is what comes next in
    /// a P slice, so that `next_skipped` hands out the first of them. Else nothing is read. The
    /// fault is the one that `next` would give.
    #[inline]
    pub fn begin_run(&mut self) -> Result<(), Fault>
        ensures { (s : SliceStart) (before : List PicMb) → Follows s before self.old →
            IsRun s before result self.old self.new }
    {
        match self.stage {
            Stage::Next if self.is_p => {
                self.read_run()?;
                Ok(())
            }
            _ => Ok(()),
        }
    }

    /// Hands out the next macroblock into `mb` where it is one of a run of skipped ones that was
    /// read, for which no neighbour is asked. Answers whether it is; if not, nothing was read.
    #[inline]
    pub fn next_skipped(&mut self, mb: &mut Mb) -> bool
        ensures skipped { result ≡ true → (s : SliceStart) (before : List PicMb) →
            Follows s before self.old
            → IsHandedOut s before (Ok (Some mb.new)) self.old self.new }
        ensures other { result ≡ false → self.new ≡ self.old }
    {
        match self.stage {
            Stage::Skipped(count) if count > 0 => {
                self.skip(count, mb);
                true
            }
            _ => false,
        }
    }

    // from a macroblock of an I slice, or a run of a P slice
    fn start(
        &mut self,
        left: Option<&TotalCoeffs>,
        up: Option<&TotalCoeffs>,
        mb: &mut Mb,
    ) -> Result<bool, Fault>
        requires { self.old.stage ≡ Next }
        ensures { (s : SliceStart) (before : List PicMb) → Follows s before self.old →
            option_copied left.entry ≡ left_total_coeffs s before
            → option_copied up.entry ≡ up_total_coeffs s before →
            IsHandedOut s before (handed_out result mb.new) self.old self.new }
    {
        let is_p = self.is_p;
        if is_p {
            let count = self.read_run()?;
            self.go_on(count, left, up, mb)
        } else {
            self.read_one(left, up, mb)?;
            Ok(true)
        }
    }

    // mb_skip_run
    fn read_run(&mut self) -> Result<u32, Fault>
        requires { self.old.stage ≡ Next }
        ensures stage { IfOk result (λ count. self.new.stage ≡ Skipped count) }
        ensures run { (s : SliceStart) (before : List PicMb) → Follows s before self.old →
            s.is_p ≡ true → IsRun s before result self.old self.new }
    {
        if self.remaining == 0 {
            return Err(Fault::TooManyMacroblocks);
        }
        // read in its place: a copy that goes back would wait for what was just written
        let before = self.reader;
        let count = self.reader.ue()?;
        if count > self.remaining {
            self.reader = before;
            return Err(Fault::TooManyMacroblocks);
        }
        self.stage = Stage::Skipped(count);
        Ok(count)
    }

    // from so many skipped macroblocks on
    fn go_on(
        &mut self,
        count: u32,
        left: Option<&TotalCoeffs>,
        up: Option<&TotalCoeffs>,
        mb: &mut Mb,
    ) -> Result<bool, Fault>
        requires { self.old.stage ≡ Skipped count }
        ensures { (s : SliceStart) (before : List PicMb) → Follows s before self.old →
            option_copied left.entry ≡ left_total_coeffs s before
            → option_copied up.entry ≡ up_total_coeffs s before →
            IsHandedOut s before (handed_out result mb.new) self.old self.new }
    {
        if count > 0 {
            self.skip(count, mb);
            return Ok(true);
        }
        let more = self.reader.more_data();
        if more {
            self.read_one(left, up, mb)?;
            return Ok(true);
        }
        self.stage = Stage::Ended;
        Ok(false)
    }

    // a skipped macroblock, the first of so many
    fn skip(&mut self, count: u32, mb: &mut Mb)
        requires stage { self.old.stage ≡ Skipped count }
        requires some { 0 < count }
        ensures { (s : SliceStart) (before : List PicMb) → Follows s before self.old →
            IsSkipped s before count mb.new self.old self.new }
    {
        self.stage = Stage::Skipped(count - 1);
        self.remaining = self.remaining.saturating_sub(1);
        set_skipped(&mut mb.syntax);
        mb.qp = self.qp;
    }

    // a macroblock that is coded
    fn read_one(
        &mut self,
        left: Option<&TotalCoeffs>,
        up: Option<&TotalCoeffs>,
        mb: &mut Mb,
    ) -> Result<(), Fault>
        ensures { (s : SliceStart) (before : List PicMb) → Follows s before self.old →
            option_copied left.entry ≡ left_total_coeffs s before
            → option_copied up.entry ≡ up_total_coeffs s before →
            IsOneMore s before (read_out result mb.new) self.old self.new }
    {
        if self.remaining == 0 {
            return Err(Fault::TooManyMacroblocks);
        }
        let context = LentContext {
            is_p: self.is_p,
            num_ref_idx_active: self.num_ref_idx_active,
            qp: self.qp,
            left,
            up,
        };
        let before = self.reader;
        if let Err(fault) = read_into(&mut self.reader, &context, mb) {
            self.reader = before;
            return Err(fault);
        }
        self.stage = stage_after(&self.reader);
        self.remaining -= 1;
        self.qp = mb.qp;
        Ok(())
    }
}
