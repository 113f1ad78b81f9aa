//! The motion of a macroblock (8.4.1).

ghost use Rattle.std.specs.Prelude.{◌≡◌, true, map, replicate, Ok, OnOk};
ghost use Rattle.std.specs.List.{list_all};
ghost use Rattle.avc_types.specs.Macroblock.{p_skip};
ghost use Rattle.avc_types.specs.References.{result_map};
ghost use Rattle.avc_neigh.specs.Around.{info_of};
ghost use Rattle.avc_neigh.specs.BlockNear.{motion_near};
ghost use Rattle.avc_neigh.specs.declared.neighbour_info.Motion.TheVariants.{Absent as absent};
ghost use Rattle.avc_motion.specs.Motion.{AreOfOneMotion, HasMotion, HasVectors, is_in_range};
ghost use Rattle.avc_motion.specs.Motion.{motion_by, vector_of as motion_vector};
ghost use Rattle.avc_motion.specs.Motion.{has_one_motion as has_one_motion_by};
ghost use Rattle.avc_motion.specs.Motion.{is_one_partition as is_one_partition_by};
ghost use Rattle.avc_motion.specs.Motion.{is_held, neighbours_of, skip_vector, still_blocks};
ghost use Rattle.avc_motion.specs.Motion.{zero_vector};
ghost use Rattle.avc_motion.specs.Decoding.{blocks_or_fault, decoded_whole, HasFourQuarters};

use crate::neighbouring::{NeighbouringPartitions, above, left_of};
use crate::parts::Inter;
use crate::prediction::{is_still, vector_of};
use avc_neigh::{Motion, Neighbours};
use avc_types::{Fault, Mb, Mv, Mvd, PMbType, Syntax};

/// Whether a P macroblock has one partition (Table 7-13).
#[inline]
pub fn is_one_partition(mb_type: &PMbType) -> bool
    ensures { result ≡ is_one_partition_by mb_type.now }
{
    match mb_type {
        PMbType::P16x16 => true,
        PMbType::P16x8 | PMbType::P8x16 | PMbType::P8x8(_) | PMbType::P8x8Ref0(_) => false,
    }
}

/// Whether the type of a macroblock alone gives all its blocks one motion, or none (8.4.1).
#[inline]
pub fn has_one_motion(mb: &Mb) -> bool
    ensures { result ≡ has_one_motion_by mb.now.syntax }
{
    match &mb.syntax {
        Syntax::PInter { mb_type, .. } => is_one_partition(mb_type),
        Syntax::PSkip | Syntax::IPcm { .. } | Syntax::INxN { .. } | Syntax::I16x16 { .. } => true,
    }
}

/// Gives all blocks one motion.
fn set_all(blocks: &mut [Motion; 16], motion: Motion)
    ensures all { blocks.new ≡ replicate 16 motion }
    ensures alike { AreOfOneMotion blocks.new }
{
    *blocks = [motion; 16];
}

/// A skipped macroblock does not move by what A and B have alone (8.4.1.1).
fn is_held(neighbours: &Neighbours<'_>) -> bool
    ensures still { result ≡ true →
        skip_vector (neighbours_of (motion_near (info_of neighbours.now)) (replicate 16 absent) 0 0
        16) ≡ zero_vector }
    ensures exact { result ≡ is_held (info_of neighbours.now) }
{
    let mine = [Motion::Absent; 16];
    is_still(left_of(neighbours, &mine, 0, 0)) || is_still(above(neighbours, &mine, 0, 0))
}

/// Whether a skipped macroblock with these neighbours stands still by what A and B have alone
/// (8.4.1.1).
#[inline]
pub fn stands_still(neighbours: &Neighbours<'_>) -> bool
    ensures motion { result ≡ true → HasMotion (info_of neighbours.now) p_skip (Ok still_blocks) }
    ensures exact { result ≡ is_held (info_of neighbours.now) }
{
    is_held(neighbours)
}

/// The blocks of a skipped macroblock that may move.
fn set_moving(neighbours: &Neighbours<'_>, blocks: &mut [Motion; 16])
    ensures motion { blocks.new ≡ motion_by (motion_near (info_of neighbours.now)) p_skip }
    ensures within { list_all is_in_range blocks.new ≡ true }
    ensures alike { AreOfOneMotion blocks.new }
{
    let around = NeighbouringPartitions::of(neighbours, &[Motion::Absent; 16], 0, 0, 16);
    let mv = around.skip_vector();
    set_all(blocks, Motion::Inter { ref_idx: 0, mv });
}

/// The blocks of a skipped macroblock that does not move. In memory, whose bytes are copied sixteen
/// at a time.
static STILL: [Motion; 16] = [Motion::Inter {
    ref_idx: 0,
    mv: Mv { x: 0, y: 0 },
}; 16];

/// The blocks of a skipped macroblock (8.4.1.1).
fn set_skipped(neighbours: &Neighbours<'_>, blocks: &mut [Motion; 16])
    ensures motion { blocks.new ≡ motion_by (motion_near (info_of neighbours.now)) p_skip }
    ensures within { list_all is_in_range blocks.new ≡ true }
    ensures alike { AreOfOneMotion blocks.new }
{
    if is_held(neighbours) {
        *blocks = STILL;
    } else {
        set_moving(neighbours, blocks);
    }
}

/// The blocks of an inter macroblock whose vectors are coded.
fn set_inter(
    mb_type: &PMbType,
    ref_idx: &[u8; 4],
    mvd: &[Mvd; 16],
    neighbours: &Neighbours<'_>,
    blocks: &mut [Motion; 16],
) -> Result<(), Fault>
    ensures motion { let near = motion_near (info_of neighbours.now) in
        result_map (λ _. blocks.new) result
        ≡ blocks_or_fault (decoded_whole near mb_type.now ref_idx.now mvd.now) }
    ensures quarters { HasFourQuarters mb_type.now }
    ensures alike { is_one_partition_by mb_type.now ≡ true →
        OnOk result (AreOfOneMotion blocks.new) }
{
    let inter = Inter {
        mb_type,
        ref_idx,
        neighbours,
    };
    set_all(blocks, Motion::Absent);
    inter.decode(blocks, mvd)?;
    Ok(())
}

/// Writes into `blocks` the reference index and the vector of each luma block of a macroblock
/// (8.4.1), in block order. `neighbours` are those of the macroblock. `VectorRange` where a
/// component of a vector is no 16-bit number; the blocks are then any.
pub fn motion(mb: &Mb, neighbours: &Neighbours<'_>, blocks: &mut [Motion; 16]) -> Result<(), Fault>
    ensures motion { HasMotion (info_of neighbours.now) mb.now.syntax
        (result_map (λ _. blocks.new) result) }
    ensures alike { has_one_motion_by mb.now.syntax ≡ true →
        OnOk result (AreOfOneMotion blocks.new) }
{
    match &mb.syntax {
        Syntax::PSkip => {
            set_skipped(neighbours, blocks);
            Ok(())
        }
        Syntax::PInter {
            mb_type,
            ref_idx,
            mvd,
            ..
        } => set_inter(mb_type, ref_idx, mvd, neighbours, blocks),
        Syntax::IPcm { .. } | Syntax::INxN { .. } | Syntax::I16x16 { .. } => {
            set_all(blocks, Motion::Intra);
            Ok(())
        }
    }
}

/// The vectors alone.
fn vectors_of(motion: &[Motion; 16]) -> [Mv; 16]
    ensures { result ≡ map motion_vector motion.now }
{
    let mut vectors = [Mv { x: 0, y: 0 }; 16];
    for k in 0..16 {
        vectors[k] = vector_of(motion[k]);
    }
    vectors
}

/// The vector of each luma block of a macroblock (8.4.1), in block order, in quarter luma samples:
/// 0 in an intra macroblock. `neighbours` are those of the macroblock. `VectorRange` where a
/// component of a vector is no 16-bit number.
pub fn vectors(mb: &Mb, neighbours: &Neighbours<'_>) -> Result<[Mv; 16], Fault>
    ensures { HasVectors (info_of neighbours.now) mb.now.syntax result }
{
    let mut blocks = [Motion::Absent; 16];
    match motion(mb, neighbours, &mut blocks) {
        Ok(()) => Ok(vectors_of(&blocks)),
        Err(fault) => Err(fault),
    }
}
