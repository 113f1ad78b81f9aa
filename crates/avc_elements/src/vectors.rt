//! The vectors of a macroblock that are told.

ghost use Rattle.std.specs.Prelude.{◌≡◌, ◌++◌, ◌<◌, map, IfOk, OnOk};
ghost use Rattle.avc_types.specs.Macroblock.{parts_of, parts_of_quarter, parts_of_quarters};
ghost use Rattle.avc_types.specs.Macroblock.{quarter_x, quarter_y};
ghost use Rattle.avc_types.specs.MacroblockFields.{syntax_of};
ghost use Rattle.avc_elements.specs.Vectors.{motion_at, vectors_of};

use avc_neigh::Motion;
use avc_types::{OutOfMemory, PMbType, SubMbType, Syntax};
use std::alloc::Global;

/// The motion of each part of a macroblock, of a skipped one that of the whole; of others none.
/// `motion` has that of its luma blocks in block order.
pub fn vectors_of(
    alloc: Global,
    syntax: &Syntax,
    motion: &[Motion; 16],
) -> Result<Vec<Motion>, OutOfMemory>
    ensures { IfOk result (λ vectors. vectors.items
        ≡ vectors_of (syntax_of syntax.now) motion.now) }
{
    let mut vectors = Vec::new(alloc);
    match syntax {
        Syntax::PSkip => vectors.push(motion[0])?,
        Syntax::PInter { mb_type, .. } => push_parts(&mut vectors, mb_type, motion)?,
        Syntax::IPcm { .. } | Syntax::INxN { .. } | Syntax::I16x16 { .. } => (),
    }
    Ok(vectors)
}

fn push_parts(
    vectors: &mut Vec<Motion>,
    mb_type: &PMbType,
    motion: &[Motion; 16],
) -> Result<(), OutOfMemory>
    ensures { OnOk result (vectors.new.items ≡ vectors.old.items
        ++ map (motion_at motion.now) (parts_of mb_type.now)) }
{
    match mb_type {
        PMbType::P16x16 => vectors.push(motion[0])?,
        PMbType::P16x8 => {
            vectors.push(motion[0])?;
            vectors.push(motion[8])?;
        }
        PMbType::P8x16 => {
            vectors.push(motion[0])?;
            vectors.push(motion[4])?;
        }
        PMbType::P8x8(subs) => push_quarters(vectors, subs, motion)?,
        PMbType::P8x8Ref0(subs) => push_quarters(vectors, subs, motion)?,
    }
    Ok(())
}

fn push_quarters(
    vectors: &mut Vec<Motion>,
    subs: &[SubMbType; 4],
    motion: &[Motion; 16],
) -> Result<(), OutOfMemory>
    ensures { OnOk result (vectors.new.items ≡ vectors.old.items
        ++ map (motion_at motion.now) (parts_of_quarters subs.now 0)) }
{
    push_quarter(vectors, subs[0], 0, motion)?;
    push_quarter(vectors, subs[1], 1, motion)?;
    push_quarter(vectors, subs[2], 2, motion)?;
    push_quarter(vectors, subs[3], 3, motion)?;
    Ok(())
}

// Of the quarter with this number (6.4.3).
fn push_quarter(
    vectors: &mut Vec<Motion>,
    sub_mb_type: SubMbType,
    quarter: usize,
    motion: &[Motion; 16],
) -> Result<(), OutOfMemory>
    requires { quarter < 4 }
    ensures { OnOk result (vectors.new.items ≡ vectors.old.items
        ++ map (motion_at motion.now)
        (parts_of_quarter sub_mb_type (quarter_x quarter) (quarter_y quarter) quarter)) }
{
    let first = 4 * quarter;
    vectors.push(motion[first])?;
    match sub_mb_type {
        SubMbType::Sub8x8 => (),
        SubMbType::Sub8x4 => vectors.push(motion[first + 2])?,
        SubMbType::Sub4x8 => vectors.push(motion[first + 1])?,
        SubMbType::Sub4x4 => {
            vectors.push(motion[first + 1])?;
            vectors.push(motion[first + 2])?;
            vectors.push(motion[first + 3])?;
        }
    }
    Ok(())
}
