//! What opening a picture finds before anything changes (7.4.3, 8.2.1, 8.2.5.2).

ghost use Rattle.std.specs.Prelude.{◌≡◌, false};
ghost use Rattle.avc_decoder_core.specs.History.{with_missing};
ghost use Rattle.avc_decoder_core.specs.Opening.{counts_over, missing_before, CountsMissing};
ghost use Rattle.avc_decoder_core.specs.Opening.{CountsPicture};
ghost use Rattle.avc_decoder_core.specs.History.{info_with, pasts, sequence_sps};
ghost use Rattle.avc_params.specs.Within.{IsSps};
ghost use Rattle.avc_poc.specs.OrderCountState.{order_count_state};

use crate::frame_buffer::FrameBuffer;
use avc_marking::MissingFrameNums;
use avc_params::Sps;
use avc_poc::Poc;
use avc_slice::Header;
use avc_types::{Fault, PictureInfo};

/// A picture that is being decoded.
#[derive(Drop)]
pub struct OpenPicture {
    pub sps: Sps,

    /// Its first slice's header.
    pub header: Header,

    /// The number of that slice's unit.
    pub unit: u64,

    /// PicOrderCnt.
    pub pic_order_cnt: i32,
}

impl OpenPicture {
    /// What is known of it beside its samples.
    pub fn info(&self) -> PictureInfo
        ensures { result
            ≡ info_with self.now.sps self.now.header self.now.unit self.now.pic_order_cnt }
    {
        PictureInfo {
            unit: self.unit,
            is_idr: self.header.is_idr(),
            frame_num: self.header.frame_num,
            pic_order_cnt: self.pic_order_cnt,
            usability: self.sps.usability(),
        }
    }
}

/// What opening a picture finds.
#[derive(Drop)]
pub struct Opening {
    /// The frame numbers that are missing before it, which can all be marked.
    pub missing: MissingFrameNums,

    /// PicOrderCnt.
    pub pic_order_cnt: i32,

    /// The order counts after it.
    pub poc: Poc,
}

/// The missing frame numbers before a picture that is no IDR picture, or the first of
/// ParameterSetChanged, FrameNumGap and FrameNumRepeated. `before` is the parameter set of the
/// sequence.
pub fn missing_frame_nums(
    buffer: &FrameBuffer,
    before: &Option<Sps>,
    header: &Header,
    sps: &Sps,
) -> Result<MissingFrameNums, Fault>
    requires going { buffer.now.failed ≡ false }
    requires set { before.now ≡ sequence_sps buffer.now.history }
    requires sps { IsSps sps.now }
    ensures { result ≡ missing_before sps.now header.now buffer.now.history }
{
    match before {
        Some(set) if set.is_same(sps) => buffer.missing_frame_nums(sps, header),
        _ => Err(Fault::ParameterSetChanged),
    }
}

/// These numbers are missing. As they go on modulo MaxFrameNum, this takes as long for many as for
/// one.
fn count_missing(poc: &mut Poc, mut numbers: MissingFrameNums, sps: &Sps)
    requires { IsSps sps.now }
    ensures { CountsMissing sps.now numbers poc.old poc.new }
{
    let max_frame_num = sps.max_frame_num();
    if let Some(first) = numbers.first(max_frame_num) {
        if first < max_frame_num {
            poc.missing_from(first, numbers.len(), sps);
            return;
        }
    }
    while let Some(frame_num) = numbers.next() {
        poc.missing(frame_num, sps);
    }
}

/// The order counts after these missing numbers, or TooManyReferences where the first of them can't
/// be marked; then all can.
pub fn after_missing(
    buffer: &FrameBuffer,
    mut poc: Poc,
    mut numbers: MissingFrameNums,
    sps: &Sps,
) -> Result<Poc, Fault>
    requires going { buffer.now.failed ≡ false }
    requires counts { poc ≡ order_count_state (pasts buffer.now.history) }
    requires sps { IsSps sps.now }
    ensures { result ≡ counts_over (with_missing sps.now numbers buffer.now.history) }
{
    let Some(first) = numbers.next() else {
        return Ok(poc);
    };
    buffer.can_store_missing(sps, first)?;
    poc.missing(first, sps);
    count_missing(&mut poc, numbers, sps);
    Ok(poc)
}

impl Opening {
    /// Of the next picture after these missing numbers, which have been counted; or PocRange.
    pub fn of_next(
        missing: MissingFrameNums,
        mut poc: Poc,
        header: &Header,
        sps: &Sps,
    ) -> Result<Opening, Fault>
        requires { IsSps sps.now }
        ensures { CountsPicture sps.now header.now missing poc result }
    {
        let (top, bottom) = poc.next(header, sps)?;
        Ok(Opening {
            missing,
            pic_order_cnt: top.min(bottom),
            poc,
        })
    }
}
