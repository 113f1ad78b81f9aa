//! Predicted vectors, and the vector of a skipped macroblock (8.4.1.1, 8.4.1.3).

ghost use Rattle.std.specs.Prelude.{◌≡◌};
ghost use Rattle.avc_types.specs.Arithmetic as arithmetic;
ghost use Rattle.avc_motion.specs.Motion as motions;

use crate::neighbouring::NeighbouringPartitions;
use avc_neigh::Motion;
use avc_types::{Mv, PMbType};

fn is_absent(motion: Motion) -> bool
    ensures { result ≡ motions.is_absent motion }
{
    match motion {
        Motion::Absent => true,
        Motion::Intra | Motion::Inter { .. } => false,
    }
}

fn has_reference(ref_idx: u8, motion: Motion) -> bool
    ensures { result ≡ motions.has_reference ref_idx motion }
{
    match motion {
        Motion::Absent | Motion::Intra => false,
        Motion::Inter { ref_idx: other, .. } => other == u16::from(ref_idx),
    }
}

pub(crate) fn vector_of(motion: Motion) -> Mv
    ensures { result ≡ motions.vector_of motion }
{
    match motion {
        Motion::Absent | Motion::Intra => Mv { x: 0, y: 0 },
        Motion::Inter { mv, .. } => mv,
    }
}

/// The middle one of three.
fn median(x: i16, y: i16, z: i16) -> i16
    ensures { result ≡ arithmetic.median x y z }
{
    x.min(y).max(x.max(y).min(z))
}

fn median_vector(u: Mv, v: Mv, w: Mv) -> Mv
    ensures { result ≡ motions.median_vector u v w }
{
    Mv {
        x: median(u.x, v.x, w.x),
        y: median(u.y, v.y, w.y),
    }
}

impl NeighbouringPartitions {
    /// B and C are as A where only A is available.
    fn completed(self) -> NeighbouringPartitions
        ensures { result ≡ motions.completed self }
    {
        if is_absent(self.b) && is_absent(self.c) && !is_absent(self.a) {
            NeighbouringPartitions {
                a: self.a,
                b: self.a,
                c: self.a,
            }
        } else {
            self
        }
    }

    /// The vector of the only neighbour that has the reference index, or the median of all three
    /// (8.4.1.3).
    fn median_prediction(self, ref_idx: u8) -> Mv
        ensures { result ≡ motions.median_prediction ref_idx self }
    {
        let n = self.completed();
        let (u, v, w) = (vector_of(n.a), vector_of(n.b), vector_of(n.c));
        match (
            has_reference(ref_idx, n.a),
            has_reference(ref_idx, n.b),
            has_reference(ref_idx, n.c),
        ) {
            (true, false, false) => u,
            (false, true, false) => v,
            (false, false, true) => w,
            _ => median_vector(u, v, w),
        }
    }

    /// The neighbour that a partition of a macroblock in two halves asks first (8.4.1.3).
    #[inline(always)]
    fn first_asked(self, mb_type: &PMbType, partition: usize) -> Motion
        ensures { result ≡ motions.first_asked mb_type.now partition self }
    {
        match mb_type {
            PMbType::P16x8 => { if partition == 0 { self.b } else { self.a } }
            PMbType::P8x16 => { if partition == 0 { self.a } else { self.c } }
            PMbType::P16x16 | PMbType::P8x8(_) | PMbType::P8x8Ref0(_) => Motion::Absent,
        }
    }

    /// The prediction of the vector of a part with this reference index, in quarter luma samples
    /// (8.4.1.3).
    #[inline(always)]
    pub(crate) fn predicted_vector(self, mb_type: &PMbType, partition: usize, ref_idx: u8) -> Mv
        ensures { result ≡ motions.predicted_vector mb_type.now partition ref_idx self }
    {
        let asked = self.first_asked(mb_type, partition);
        if has_reference(ref_idx, asked) {
            vector_of(asked)
        } else {
            self.median_prediction(ref_idx)
        }
    }

    /// The vector of a skipped macroblock (8.4.1.1).
    pub(crate) fn skip_vector(self) -> Mv
        ensures { result ≡ motions.skip_vector self }
    {
        if is_still(self.a) || is_still(self.b) {
            Mv { x: 0, y: 0 }
        } else {
            self.median_prediction(0)
        }
    }
}

/// A neighbour that makes a skipped macroblock stand still.
pub(crate) fn is_still(motion: Motion) -> bool
    ensures { result ≡ motions.is_still motion }
{
    match motion {
        Motion::Absent => true,
        Motion::Intra => false,
        Motion::Inter { ref_idx, mv } => ref_idx == 0 && mv.x == 0 && mv.y == 0,
    }
}
