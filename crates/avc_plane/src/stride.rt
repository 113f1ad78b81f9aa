//! How far apart rows are in memory.

ghost use Rattle.std.specs.Prelude.{◌≡◌, ◌+◌, ◌*◌, ◌^◌, ◌<◌, ◌≤◌};
ghost use Rattle.avc_plane.specs.Padded.{stride_of};

/// The bytes of a line of a cache.
const LINE: usize = 64;

/// Rows as many bytes apart fall into the same lines of a cache.
const COLLIDING: usize = 1_024;

/// From a row of a plane of this width to the next, where each has `pad` samples more on both
/// sides.
#[tactic(auto, unfolding(crate::specs::Padded::stride_of))]
pub fn stride_of(width: usize, pad: usize) -> usize
    requires { width + 2 * pad < 2 ^ 31 }
    ensures value { result ≡ stride_of pad width }
    ensures wide { width + 2 * pad ≤ result }
    ensures apart { result < 2 ^ 32 }
{
    let lines = (width + 2 * pad + (LINE - 1)) / LINE * LINE;
    if lines % COLLIDING == 0 {
        lines + LINE
    } else {
        lines
    }
}
