//! The macroblocks of one slice (7.3.4).

ghost use Rattle.std.specs.Prelude.{◌≡◌, ℕ, ◌-◌, ◌*◌, ◌≤◌, suc, pos, ◌≤ℤ◌, nat_abs, IfSome, List};
ghost use Rattle.std.specs.Prelude.{length, take};
ghost use Rattle.avc_types.specs.Pictures.{Coded, PicMb};
ghost use Rattle.avc_params.specs.Limits.{height_in_mbs, max_macroblocks, size_in_mbs};
ghost use Rattle.avc_params.specs.Limits.{width_in_mbs};
ghost use Rattle.avc_params.specs.Within.{IsPps, IsSps};
ghost use Rattle.avc_slice.specs.Header.{slice_qp};
ghost use Rattle.avc_slice.specs.Within.{IsDeblocking, IsHeader, IsPredWeightTable};
ghost use Rattle.avc_mbsyntax.specs.Rest.{Follows, IsHandedOut, handed_out};
ghost use Rattle.avc_mbsyntax.specs.SliceData.{SliceStart};
ghost use Rattle.avc_mbsyntax.specs.declared.slice_data.SliceData.{SliceData as SliceFrom};
ghost use Rattle.avc_plane.specs.Frames.{AreFrames};
ghost use Rattle.avc_plane.specs.Planes.{StoredFrame};
ghost use Rattle.avc_deblock.specs.FilterInfo.{Names};
ghost use Rattle.avc_picture_core.specs.References.{AreUsable};
ghost use Rattle.avc_picture.specs.Context.{ArePlacesIn, IsContextAt};
ghost use Rattle.avc_picture.specs.Decoding.{AreFramesOf};
ghost use Rattle.avc_picture.specs.DecoderState.{CanGoOn, CanHaveFirst, GoesOn, HasFirst};
ghost use Rattle.avc_picture.specs.DecoderState.{IsDataAnswer, IsDataOf, IsDecodedSlice};
ghost use Rattle.avc_picture.specs.DecoderState.{IsWellSomewhere, outcome_from};
ghost use Rattle.avc_picture.specs.FirstMbs.{HasSameSize, HoldsFirst};
ghost use Rattle.avc_picture.specs.Slices.{data_of, start_of};
ghost use Rattle.avc_picture.specs.StillRuns.{AreCopiedFrom, GoesOnStill};

use crate::current_info::CurrentInfo;
use crate::current_macroblock::CurrentMacroblock;
use crate::header_checks::check_address;
use crate::macroblocks::Macroblocks;
use crate::reference_places::{Places, reference_places};
use crate::slice_context::SliceContext;
use crate::still_run::StillRun;
use avc_bits::BitReader;
use avc_mbsyntax::SliceData;
use avc_params::{Pps, Sps};
use avc_plane::Frame;
use avc_slice::{Header, Slice};
use avc_types::Fault;

/// Pic_init_qp without its offset (7.4.2.2).
const FIRST_QP: i32 = 26;

/// SliceQP_Y (7.4.3).
fn slice_quantiser(pps: &Pps, slice: &Slice) -> u8
    requires low { pos 0 ≤ℤ slice_qp pps.now slice.now.header.slice_qp_delta }
    requires high { slice_qp pps.now slice.now.header.slice_qp_delta ≤ℤ pos 51 }
    requires pps { IsPps pps.now }
    ensures { result ≡ nat_abs (slice_qp pps.now slice.now.header.slice_qp_delta) }
{
    ((FIRST_QP + pps.pic_init_qp_minus26) + slice.header.slice_qp_delta) as u8
}

/// The data of a slice of a picture of which `read` macroblocks have been read.
fn slice_data<'a>(sps: &Sps, pps: &Pps, slice: &'a Slice, read: u32) -> SliceData<'a>
    requires sps { IsSps sps.now }
    requires pps { IsPps pps.now }
    requires header { IsHeader sps.now pps.now slice.now.rbsp slice.now.header }
    requires within { read ≤ size_in_mbs sps.now }
    ensures { (frames : List StoredFrame) (number : ℕ) (before : List PicMb) → length before ≡ read
        → IsDataOf (start_of (record { sps = sps.now; pps = pps.now; frames = frames })
        slice.now.header number) before (data_of slice.now) result }
{
    SliceData::new(
        BitReader::at(slice.rbsp.as_slice(), slice.header.position),
        slice.header.is_p(),
        slice.header.num_ref_idx_active as u8,
        slice_quantiser(pps, slice),
        sps.size_in_mbs() - read,
    )
}

/// Reads the next macroblock of the data, as its neighbours in the picture have it read. Answers
/// whether there was one.
#[inline(always)]
fn next_macroblock<const PAD: usize>(
    unread: &mut SliceData<'_>,
    macroblocks: &Macroblocks<PAD>,
    number: u32,
    current: &mut CurrentMacroblock,
) -> Result<bool, Fault>
    ensures { (c : Coded) (names : Names) (s : SliceStart) → HoldsFirst c names macroblocks.now →
        s.width ≡ c.width → s.slice ≡ number
        → Follows s (take macroblocks.now.next c.mbs) unread.old
        → IsHandedOut s (take macroblocks.now.next c.mbs) (handed_out result current.new) unread.old
        unread.new }
{
    unread.begin_run()?;
    if current.read_skipped(unread) {
        return Ok(true);
    }
    let (left, up) = macroblocks.left_and_above(number);
    current.read(unread, left, up)
}

/// Decodes the macroblocks of a slice, and counts in `read` those that are read, a faulty one
/// included. Answers the first fault. Anything may stand in `current`, which is where they are
/// read. `info` and `run` are as `Macroblocks::decode` has them.
fn decode_data<const PAD: usize>(
    unread: &mut SliceData<'_>,
    context: &SliceContext<'_, PAD>,
    macroblocks: &mut Macroblocks<PAD>,
    read: &mut u32,
    current: &mut CurrentMacroblock,
    info: &mut CurrentInfo,
    run: &mut StillRun,
) -> Result<(), Fault>
    requires some { CanGoOn macroblocks.old unread.old context.now }
    requires usable { AreUsable macroblocks.old.canvas.width macroblocks.old.canvas.height
        context.now.references }
    requires copied { AreCopiedFrom context.now.references macroblocks.old.canvas.width
        macroblocks.old.next run.old.copied macroblocks.old.canvas.planes }
    requires still { GoesOnStill run.old.copied context.now.number macroblocks.old.row info.old }
    requires read { macroblocks.old.next ≡ read.old }
    requires within { read.old ≤ macroblocks.old.canvas.width * macroblocks.old.canvas.height }
    requires small { macroblocks.old.canvas.width * macroblocks.old.canvas.height
        ≤ max_macroblocks }
    ensures size { HasSameSize macroblocks.old macroblocks.new }
    ensures within { read.new ≤ macroblocks.old.canvas.width * macroblocks.old.canvas.height }
    ensures answer { (c : Coded) (names : Names) (s : SliceStart) →
        GoesOn c names s macroblocks.old unread.old context.now
        → IsDataAnswer c names macroblocks.old.next (outcome_from c s macroblocks.old unread.old)
        result read.new macroblocks.new }
{
    'macroblocks: while next_macroblock(unread, macroblocks, context.number, current)? {
        *read += 1;
        macroblocks.decode(current.mb(), context, info, run)?;
    }
    Ok(())
}

/// The number of a slice in its picture, and its header.
#[derive(Clone, Copy)]
struct SliceHead<'a> {
    number: u32,

    header: &'a Header,
}

/// Likewise from the first macroblock on, which is the current one. What all macroblocks of a slice
/// are decoded with is large: it is made here, so that a slice without any pays nothing for it.
#[inline(never)]
fn decode_macroblocks<const PAD: usize>(
    unread: &mut SliceData<'_>,
    slice: SliceHead<'_>,
    frames: &[Frame<PAD>],
    places: &Places,
    macroblocks: &mut Macroblocks<PAD>,
    read: &mut u32,
    current: &mut CurrentMacroblock,
) -> Result<(), Fault>
    requires frames { AreFrames macroblocks.old.canvas.width macroblocks.old.canvas.height
        frames.now }
    requires places { ArePlacesIn frames.now places.now }
    requires deblocking { IfSome slice.header.now.deblocking IsDeblocking }
    requires weights { IfSome slice.header.now.pred_weight_table
        (IsPredWeightTable slice.header.now.num_ref_idx_active) }
    requires some { CanHaveFirst (IsContextAt slice.number frames.now slice.header.now places.now)
        macroblocks.old current.old unread.old }
    requires read { macroblocks.old.next ≡ read.old }
    requires small { macroblocks.old.canvas.width * macroblocks.old.canvas.height
        ≤ max_macroblocks }
    ensures size { HasSameSize macroblocks.old macroblocks.new }
    ensures within { read.new ≤ macroblocks.old.canvas.width * macroblocks.old.canvas.height }
    ensures answer { (c : Coded) (names : Names) (s : SliceStart) (d : SliceFrom)
        → HasFirst (IsContextAt slice.entry.number frames.now slice.entry.header.now places.now) c
        names s d macroblocks.old
        current.old unread.old
        → IsDataAnswer c names macroblocks.old.next (outcome_from c s macroblocks.old d) result
        read.new macroblocks.new }
{
    let context = SliceContext::new(slice.number, slice.header, frames, places);
    let mut info = CurrentInfo::new();
    let mut run = StillRun::new();
    *read += 1;
    macroblocks.decode(current.mb(), &context, &mut info, &mut run)?;
    decode_data(
        unread,
        &context,
        macroblocks,
        read,
        current,
        &mut info,
        &mut run,
    )
}

/// Decodes slice `number` of a picture, of which `read` macroblocks have been read. Answers the
/// first fault.
pub(crate) fn decode_slice<const PAD: usize>(
    sps: &Sps,
    pps: &Pps,
    slice: &Slice,
    frames: &[Frame<PAD>],
    number: u32,
    macroblocks: &mut Macroblocks<PAD>,
    read: &mut u32,
) -> Result<(), Fault>
    requires sps { IsSps sps.now }
    requires pps { IsPps pps.now }
    requires header { IsHeader sps.now pps.now slice.now.rbsp slice.now.header }
    requires frames { AreFramesOf sps.now frames.now }
    requires within { read.old ≤ size_in_mbs sps.now }
    requires width { macroblocks.old.canvas.width ≡ width_in_mbs sps.now }
    requires height { macroblocks.old.canvas.height ≡ height_in_mbs sps.now }
    requires some { IsWellSomewhere sps.now pps.now frames.now number read.old macroblocks.old }
    ensures size { HasSameSize macroblocks.old macroblocks.new }
    ensures within { read.new ≤ size_in_mbs sps.now }
    ensures state { IsDecodedSlice sps.now pps.now frames.now slice.now number read.old
        macroblocks.old result read.new macroblocks.new }
{
    check_address(*read, &slice.header)?;
    let places = reference_places(sps, &slice.header, frames)?;
    let mut unread = slice_data(sps, pps, slice, *read);
    let mut current = CurrentMacroblock::new();
    let more = next_macroblock(&mut unread, macroblocks, number, &mut current)?;
    if !more {
        return Ok(());
    }
    decode_macroblocks(
        &mut unread,
        SliceHead {
            number,
            header: &slice.header,
        },
        frames,
        &places,
        macroblocks,
        read,
        &mut current,
    )
}
