//! That a plane's samples are bytes.

ghost use Rattle.std.specs.Prelude.{◌≡◌, ℕ, ◌*◌, ◌<◌, ◌≤◌, length, slice_index};
ghost use Rattle.avc_plane.specs.Plane.{sample};

use super::Plane;

/// Does nothing. Each sample is a byte.
#[inline(always)]
fn are_bytes(samples: &[u8])
    ensures { (k : ℕ) → slice_index samples.now k ≤ 255 }
{
    let _ = samples;
}

impl<const PAD: usize> Plane<PAD> {
    /// Does nothing. Each sample is a byte, and there are as many as columns and rows say.
    #[inline(always)]
    pub fn holds_bytes(&self)
        ensures small { (x y : ℕ) → x < self.now.width → y < self.now.height →
            sample self.now x y ≤ 255 }
        ensures all { length self.now.samples ≡ self.now.width * self.now.height }
    {
        are_bytes(self.stored.as_slice());
    }
}
