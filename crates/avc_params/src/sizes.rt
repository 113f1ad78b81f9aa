//! Sizes and limits that follow from a sequence parameter set (7.4.2.1.1, A.3.1, E.2.1).

ghost use Rattle.std.specs.Prelude.{◌≡◌, ◌≤◌};
ghost use Rattle.std.specs.Option.{option_map};
ghost use Rattle.avc_params.specs.Limits.{dpb_size, height_in_mbs, max_dpb_frames, max_frame_num};
ghost use Rattle.avc_params.specs.Limits.{max_macroblocks, reference_limit, restriction_of};
ghost use Rattle.avc_params.specs.Limits.{size_in_mbs};
ghost use Rattle.avc_params.specs.Limits.{width_in_mbs};

use crate::levels::max_dpb_mbs;
use crate::sps::Sps;

impl Sps {
    /// PicWidthInMbs, in macroblocks.
    pub fn width_in_mbs(&self) -> u32
        ensures { result ≡ width_in_mbs self.now }
    {
        u32::from(self.pic_width_in_mbs_minus1) + 1
    }

    /// FrameHeightInMbs, in macroblocks.
    pub fn height_in_mbs(&self) -> u32
        ensures { result ≡ height_in_mbs self.now }
    {
        u32::from(self.pic_height_in_map_units_minus1) + 1
    }

    /// PicSizeInMbs: how many macroblocks a picture has.
    pub fn size_in_mbs(&self) -> u32
        requires { size_in_mbs self.now ≤ max_macroblocks }
        ensures { result ≡ size_in_mbs self.now }
    {
        self.width_in_mbs() * self.height_in_mbs()
    }

    /// MaxFrameNum (7.4.2.1.1).
    pub fn max_frame_num(&self) -> u32
        requires { self.now.log2_max_frame_num_minus4 ≤ 12 }
        ensures { result ≡ max_frame_num self.now }
    {
        1 << (self.log2_max_frame_num_minus4 + 4)
    }

    /// MaxDpbFrames (A.3.1): how many frames the level's buffer holds, 0 to 16.
    pub fn max_dpb_frames(&self) -> u32
        ensures { result ≡ max_dpb_frames self.now }
    {
        let size = u64::from(self.width_in_mbs()) * u64::from(self.height_in_mbs());
        let most = max_dpb_mbs(
            self.level_idc,
            self.constraint_flags.constraint_set3_flag,
        ).unwrap_or(0);
        (u64::from(most) / size).min(16) as u32
    }

    /// The capacity of the decoded picture buffer, in frames.
    pub fn dpb_size(&self) -> u32
        ensures { result ≡ dpb_size self.now }
    {
        let frames = self
            .max_dec_frame_buffering()
            .unwrap_or(self.max_dpb_frames());
        frames
            .min(16)
            .max(u32::from(self.max_num_ref_frames))
            .max(1)
    }

    /// How many reference frames there may be: max_num_ref_frames, at least 1.
    pub fn reference_limit(&self) -> u32
        ensures { result ≡ reference_limit self.now }
    {
        u32::from(self.max_num_ref_frames).max(1)
    }

    // where the VUI has it
    fn max_dec_frame_buffering(&self) -> Option<u32>
        ensures { result ≡ option_map (λ r. r.max_dec_frame_buffering) (restriction_of self.now) }
    {
        match &self.vui {
            None => None,
            Some(vui) => match &vui.restriction {
                None => None,
                Some(restriction) => Some(restriction.max_dec_frame_buffering),
            },
        }
    }
}
