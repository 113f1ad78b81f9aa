//! The vectors of a macroblock, in words.

ghost use Rattle.std.specs.Prelude.{◌≡◌, ◌++◌, OnOk, codes, string_bytes};
ghost use Rattle.avc_selection.specs.Words.{and_motion, and_vector, vectors_text};

use avc_neigh::Motion;
use avc_types::{Mv, OutOfMemory};

/// Adds mv_l0 of each part.
pub fn add_vectors(text: &mut String, vectors: &[Motion]) -> Result<(), OutOfMemory>
    ensures { OnOk result (string_bytes text.new ≡ string_bytes text.old
        ++ vectors_text vectors.now) }
{
    text.push_str(" mv")?;
    for motion in vectors {
        add_motion(text, *motion)?;
    }
    Ok(())
}

fn add_motion(text: &mut String, motion: Motion) -> Result<(), OutOfMemory>
    ensures { OnOk result (string_bytes text.new ≡ string_bytes text.old ++ and_motion motion) }
{
    match motion {
        Motion::Inter { mv, .. } => add_vector(text, mv),
        Motion::Absent | Motion::Intra => add_hyphen(text),
    }
}

fn add_vector(text: &mut String, mv: Mv) -> Result<(), OutOfMemory>
    ensures { OnOk result (string_bytes text.new ≡ string_bytes text.old ++ and_vector mv) }
{
    let right = mv.x;
    let down = mv.y;
    write!(text, " {right},{down}")?;
    Ok(())
}

/// A hyphen stands where a value is absent.
pub fn add_hyphen(text: &mut String) -> Result<(), OutOfMemory>
    ensures { OnOk result (string_bytes text.new ≡ string_bytes text.old ++ codes " -") }
{
    text.push_str(" -")?;
    Ok(())
}
