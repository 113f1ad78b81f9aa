//! PicNum (8.2.4.1).

ghost use Rattle.std.specs.Prelude.{◌≡◌};
ghost use Rattle.avc_types.specs.References.{pic_num_of};

/// What PicNum is derived from (8.2.4.1): frame_num of the current picture, and MaxFrameNum.
#[derive(Clone, Copy)]
pub struct CurrentFrameNum {
    pub frame_num: u32,
    pub max_frame_num: u32,
}

impl CurrentFrameNum {
    /// PicNum of a frame number (8.2.4.1), as the current picture sees it.
    pub fn pic_num(self, number: u32) -> i64
        ensures { result ≡ pic_num_of self number }
    {
        if self.frame_num < number {
            i64::from(number) - i64::from(self.max_frame_num)
        } else {
            i64::from(number)
        }
    }
}
