//! What the deblocking filter asks of one macroblock (8.7).

ghost use Rattle.std.specs.Prelude.{◌≡◌, ℕ, ◌*◌, ◌<◌, true, not, ◌==◌, length, map};
ghost use Rattle.std.specs.Prelude.{slice_index, slice_index_or};
ghost use Rattle.avc_neigh.specs.TotalCoeffs.{total_coeffs_of};
ghost use Rattle.avc_neigh.specs.declared.neighbour_info.Motion.TheVariants.{Absent as absent};
ghost use Rattle.avc_motion.specs.Motion as motions;
ghost use Rattle.avc_deblock.specs.Edges as edges;
ghost use Rattle.avc_deblock.specs.Edges.{has_coefficients};
ghost use Rattle.avc_deblock.specs.FilterInfo.{has_bit};
ghost use Rattle.avc_picture.specs.MacroblockInfo.{number_of, IsFilterInfo};

use crate::slice_context::SliceContext;
use avc_deblock::MbInfo;
use avc_motion::has_one_motion;
use avc_neigh::{Motion, NeighbourInfo};
use avc_types::{Mb, Mv, Syntax};
use std::simd::prelude::*;

/// The luma blocks of a macroblock.
const BLOCKS: usize = 16;

/// Bit k is set where total_coeff of block `k` is not 0.
fn coded_blocks(total_coeffs: &[u8; BLOCKS]) -> u16
    ensures { (k : ℕ) → k < 16 → has_bit result k ≡ not (slice_index total_coeffs.now k == 0) }
{
    u8x16::from_array(*total_coeffs)
        .simd_ne(u8x16::splat(0))
        .to_bitmask() as u16
}

/// Bit k is set where luma block `k` of a macroblock has a level that is not 0; of an intra
/// macroblock none is. `total_coeffs` are those of the luma blocks.
fn coefficients(mb: &Mb, total_coeffs: &[u8; BLOCKS]) -> u16
    requires { total_coeffs.now ≡ (total_coeffs_of mb.now.syntax).luma }
    ensures { (k : ℕ) → k < 16 → has_bit result k ≡ has_coefficients mb.now.syntax k }
{
    match &mb.syntax {
        Syntax::PInter { .. } => coded_blocks(total_coeffs),
        Syntax::PSkip | Syntax::IPcm { .. } | Syntax::INxN { .. } | Syntax::I16x16 { .. } => 0,
    }
}

fn is_intra(mb: &Mb) -> bool
    ensures { result ≡ motions.is_intra mb.now.syntax }
{
    match &mb.syntax {
        Syntax::PSkip | Syntax::PInter { .. } => false,
        Syntax::IPcm { .. } | Syntax::INxN { .. } | Syntax::I16x16 { .. } => true,
    }
}

/// QP_Y, and 0 for I_PCM (8.7.2.2).
fn filter_qp(mb: &Mb) -> u8
    ensures { result ≡ edges.filter_qp mb.now.qp mb.now.syntax }
{
    match &mb.syntax {
        Syntax::IPcm { .. } => 0,
        Syntax::PSkip | Syntax::INxN { .. } | Syntax::I16x16 { .. } | Syntax::PInter { .. } =>
            mb.qp,
    }
}

/// The number of the frame that a block is predicted from.
fn frame_number(motion: Motion, frame_numbers: &[u8; 16]) -> u8
    ensures { result ≡ number_of frame_numbers.now motion }
{
    match motion {
        Motion::Inter { ref_idx, .. } => {
            let index = usize::from(ref_idx);
            if index < frame_numbers.len() {
                frame_numbers[index]
            } else {
                0
            }
        }
        Motion::Absent | Motion::Intra => 0,
    }
}

/// Writes it for each quarter of a macroblock.
fn set_pictures(pictures: &mut [u8; 4], motion: &[Motion; 16], frame_numbers: &[u8; 16])
    ensures { (q : ℕ) → q < 4 → slice_index pictures.new q
        ≡ number_of frame_numbers.now (slice_index_or motion.now (4 * q) absent) }
{
    for q in 0..4 {
        pictures[q] = frame_number(motion[4 * q], frame_numbers);
    }
}

const NO_VECTOR: Mv = Mv { x: 0, y: 0 };

/// The vector of a block, where it stands: so it is copied at once, and not one component after
/// the other.
fn vector(motion: &Motion) -> &Mv
    ensures { result.now ≡ motions.vector_of motion.now }
{
    match motion {
        Motion::Inter { mv, .. } => mv,
        Motion::Absent | Motion::Intra => &NO_VECTOR,
    }
}

/// Writes the vector of each block.
// apart from its callers, so that it is a loop over memory
#[inline(never)]
fn set_vectors(vectors: &mut [Mv; 16], motion: &[Motion; 16])
    ensures { vectors.new ≡ map motions.vector_of motion.now }
{
    for k in 0..BLOCKS {
        vectors[k] = *vector(&motion[k]);
    }
}

/// Writes for each quarter the number of its frame and for each block its vector. The blocks are
/// looked at one by one only where they are not known to have one motion.
fn set_motion(
    pictures: &mut [u8; 4],
    vectors: &mut [Mv; 16],
    motion: &[Motion; 16],
    has_one_motion: bool,
    frame_numbers: &[u8; 16],
)
    requires { has_one_motion ≡ true → motions.AreOfOneMotion motion.now }
    ensures pictures { (q : ℕ) → q < 4 → slice_index pictures.new q
        ≡ number_of frame_numbers.now (slice_index_or motion.now (4 * q) absent) }
    ensures vectors { vectors.new ≡ map motions.vector_of motion.now }
    ensures blocks { length motion.now ≡ 16 }
{
    if has_one_motion {
        *pictures = [frame_number(motion[0], frame_numbers); 4];
        *vectors = [*vector(&motion[0]); 16];
    } else {
        set_pictures(pictures, motion, frame_numbers);
        set_vectors(vectors, motion);
    }
}

/// Writes into `info` what the filter asks of a macroblock of which neighbours are told this.
pub(crate) fn set_filter_info<const PAD: usize>(
    info: &mut MbInfo,
    mb: &Mb,
    neighbour_info: &NeighbourInfo,
    slice: &SliceContext<'_, PAD>,
)
    requires total_coeffs { neighbour_info.now.total_coeffs ≡ total_coeffs_of mb.now.syntax }
    requires one { motions.has_one_motion mb.now.syntax ≡ true →
        motions.AreOfOneMotion neighbour_info.now.motion }
    ensures info { IsFilterInfo mb.now neighbour_info.now.motion slice.now info.new }
    ensures blocks { length neighbour_info.now.motion ≡ 16 }
{
    info.is_intra = is_intra(mb);
    info.coefficients = coefficients(mb, &neighbour_info.total_coeffs.luma);
    set_motion(
        &mut info.pictures,
        &mut info.vectors,
        &neighbour_info.motion,
        has_one_motion(mb),
        &slice.frame_numbers,
    );
    info.qp = filter_qp(mb);
    info.slice = slice.number;
    info.filtered_edges = slice.filtered_edges;
    info.offset_a = slice.offset_a;
    info.offset_b = slice.offset_b;
}
