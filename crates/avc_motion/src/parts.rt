//! Parts of a macroblock whose vectors are coded (8.4.1.3, 7.4.5.1).

ghost use Rattle.std.specs.Prelude.{◌≡◌, ℕ, ◌≤◌, ◌<◌, ◌+◌, ◌*◌, pos, ◌+ℤ◌, true, false};
ghost use Rattle.std.specs.Prelude.{[], ◌∷◌, if◌then◌else◌, length, slice_index_or, Some, None};
ghost use Rattle.std.specs.List.{All};
ghost use Rattle.avc_neigh.specs.declared.neighbour_info.Motion.TheVariants.{Absent as absent};
ghost use Rattle.avc_neigh.specs.declared.neighbour_info.Motion.TheVariants.{Inter as inter};
ghost use Rattle.avc_types.specs.Macroblock as macroblocks;
ghost use Rattle.avc_motion.specs.Motion as motions;
ghost use Rattle.avc_motion.specs.Decoding.{in_range_only, IsOfQuarter, IsQuarterFilled};

use crate::neighbouring::NeighbouringPartitions;
use avc_neigh::{Motion, Neighbours};
use avc_types::{Fault, Mv, Mvd, PMbType, Part, SubMbType};

/// An inter macroblock whose vectors are coded, with the macroblocks around it.
#[derive(Clone, Copy)]
pub(crate) struct Inter<'a> {
    pub(crate) mb_type: &'a PMbType,
    pub(crate) ref_idx: &'a [u8; 4],
    pub(crate) neighbours: &'a Neighbours<'a>,
}

/// A component of a vector: its prediction and the coded difference, where that is a 16-bit number.
fn sum(predicted: i16, mvd: i32) -> Option<i16>
    ensures { let z = predicted +ℤ mvd in result ≡ (if motions.is_16_bit z then Some z else None) }
{
    let sum = i64::from(predicted) + i64::from(mvd);
    if sum < i64::from(i16::MIN) || i64::from(i16::MAX) < sum {
        return None;
    }
    Some(sum as i16)
}

/// What a part has whose vector differs from its prediction by `mvd`.
fn motion_by(ref_idx: u8, predicted: Mv, mvd: Mvd) -> Result<Motion, Fault>
    ensures { result ≡ in_range_only (inter ref_idx (motions.sum_with_mvd predicted mvd)) }
{
    match (sum(predicted.x, mvd.x), sum(predicted.y, mvd.y)) {
        (Some(x), Some(y)) => Ok(Motion::Inter {
            ref_idx: u16::from(ref_idx),
            mv: Mv { x, y },
        }),
        _ => Err(Fault::VectorRange),
    }
}

/// The block with this number lies in the part.
fn is_in_part(part: Part, block: usize) -> bool
    requires { block < 16 }
    ensures { result ≡ motions.is_in_part part block }
{
    let x = 8 * ((block / 4) % 2) + 4 * (block % 2);
    let y = 8 * (block / 8) + 4 * ((block / 2) % 2);
    let (left, top) = (usize::from(part.x), usize::from(part.y));
    left <= x
        && x < left + usize::from(part.width)
        && top <= y
        && y < top + usize::from(part.height)
}

fn pick(is_first: bool, first: Motion, second: Motion) -> Motion
    ensures { result ≡ (if is_first then first else second) }
{
    if is_first { first } else { second }
}

/// All blocks of a quarter lie in the part.
#[inline(always)]
fn has_quarter(part: Part, quarter: usize) -> bool
    requires { quarter < 4 }
    ensures { result ≡ true → (k : ℕ) → IsOfQuarter quarter k → motions.is_in_part part k ≡ true }
{
    let (x, y) = (8 * (quarter % 2), 8 * (quarter / 2));
    usize::from(part.x) <= x
        && x + 8 <= usize::from(part.x) + usize::from(part.width)
        && usize::from(part.y) <= y
        && y + 8 <= usize::from(part.y) + usize::from(part.height)
}

/// No block of a quarter lies in the part.
#[inline(always)]
fn is_apart(part: Part, quarter: usize) -> bool
    requires { quarter < 4 }
    ensures { result ≡ true → (k : ℕ) → IsOfQuarter quarter k → motions.is_in_part part k ≡ false }
{
    let (x, y) = (8 * (quarter % 2), 8 * (quarter / 2));
    x + 8 <= usize::from(part.x)
        || usize::from(part.x) + usize::from(part.width) <= x
        || y + 8 <= usize::from(part.y)
        || usize::from(part.y) + usize::from(part.height) <= y
}

/// Gives all blocks of a quarter their motion.
#[inline(always)]
fn fill_whole(mine: &mut [Motion; 16], quarter: usize, motion: Motion)
    requires { quarter < 4 }
    ensures here { (k : ℕ) → IsOfQuarter quarter k → slice_index_or mine.new k absent ≡ motion }
    ensures before { (k : ℕ) → k < 4 * quarter → slice_index_or mine.new k absent
        ≡ slice_index_or mine.old k absent }
    ensures behind { (k : ℕ) → 4 * quarter + 4 ≤ k → slice_index_or mine.new k absent
        ≡ slice_index_or mine.old k absent }
{
    for k in 4 * quarter..4 * quarter + 4 {
        mine[k] = motion;
    }
}

/// Gives those blocks of a quarter that lie in the part their motion.
fn fill_blocks(mine: &mut [Motion; 16], part: Part, quarter: usize, motion: Motion)
    requires { quarter < 4 }
    ensures { IsQuarterFilled part quarter motion mine.old mine.new }
{
    for k in 4 * quarter..4 * quarter + 4 {
        mine[k] = pick(is_in_part(part, k), motion, mine[k]);
    }
}

/// Gives the blocks of a quarter that lie in the part this motion. Each is looked at only where
/// some lie in it and some do not.
#[inline(always)]
fn fill_quarter(mine: &mut [Motion; 16], part: Part, quarter: usize, motion: Motion)
    requires { quarter < 4 }
    ensures { IsQuarterFilled part quarter motion mine.old mine.new }
{
    if has_quarter(part, quarter) {
        fill_whole(mine, quarter, motion);
    } else if !is_apart(part, quarter) {
        fill_blocks(mine, part, quarter, motion);
    }
}

/// Gives the blocks of a part their motion.
#[inline(always)]
fn fill(mine: &mut [Motion; 16], part: Part, motion: Motion)
    ensures { mine.new ≡ motions.with_part mine.old part motion }
{
    for quarter in 0..4 {
        fill_quarter(mine, part, quarter, motion);
    }
}

fn part(x: u8, y: u8, width: u8, height: u8, partition: u8) -> Part
    ensures { result ≡ macroblocks.part x y width height partition }
{
    Part {
        x,
        y,
        width,
        height,
        partition,
    }
}

/// How many parts a quarter has (Table 7-17).
fn part_count(sub_mb_type: SubMbType) -> usize
    ensures count { (x y q : ℕ) → result ≡ length (macroblocks.parts_of_quarter sub_mb_type x y q) }
    ensures few { result ≤ 4 }
{
    match sub_mb_type {
        SubMbType::Sub8x8 => 1,
        SubMbType::Sub8x4 | SubMbType::Sub4x8 => 2,
        SubMbType::Sub4x4 => 4,
    }
}

impl Inter<'_> {
    ghost use Rattle.avc_motion.specs.Decoding.{Decodes, HasFourQuarters, IsInside, decoded_by};
    ghost use Rattle.avc_motion.specs.Decoding.{moved_by, parts_in_quarter};

    /// What the blocks of a part have.
    #[inline(always)]
    fn motion_of_part(&self, mine: &[Motion; 16], part: Part, mvd: Mvd) -> Result<Motion, Fault>
        requires { IsInside part }
        ensures { result ≡ in_range_only (moved_by self.now mine.now part mvd) }
    {
        let partition = usize::from(part.partition);
        let ref_idx = self.ref_idx[partition];
        let around = NeighbouringPartitions::of(
            self.neighbours,
            mine,
            usize::from(part.x),
            usize::from(part.y),
            usize::from(part.width),
        );
        let predicted = around.predicted_vector(self.mb_type, partition, ref_idx);
        motion_by(ref_idx, predicted, mvd)
    }

    /// Gives the blocks of these parts their motion, one part after another, up to the first vector
    /// that leaves 16 bits.
    // where a partition lies is known where it is named: nothing is asked of it then
    #[inline(always)]
    fn decode_parts(
        &self,
        mine: &mut [Motion; 16],
        parts: &[Part],
        mvd: &[Mvd],
    ) -> Result<(), Fault>
        requires enough { length parts.now ≤ length mvd.now }
        requires inside { All IsInside parts.now }
        ensures { Decodes result mine.new (decoded_by self.now mine.old parts.now mvd.now) }
    {
        for i in 0..parts.len() {
            let motion = self.motion_of_part(mine, parts[i], mvd[i])?;
            fill(mine, parts[i], motion);
        }
        Ok(())
    }

    /// The two partitions of a macroblock in halves.
    #[inline(always)]
    fn decode_halves(
        &self,
        mine: &mut [Motion; 16],
        first: Part,
        second: Part,
        mvd: &[Mvd; 16],
    ) -> Result<(), Fault>
        requires first { IsInside first }
        requires second { IsInside second }
        ensures { Decodes result mine.new
            (decoded_by self.now mine.old (first ∷ second ∷ []) mvd.now) }
    {
        self.decode_parts(mine, &[first], mvd)?;
        self.decode_parts(mine, &[second], &mvd[1..])
    }

    /// The parts of a sub-macroblock, wherever they lie.
    #[inline(never)]
    fn decode_sub_parts(
        &self,
        mine: &mut [Motion; 16],
        parts: &[Part],
        mvd: &[Mvd],
    ) -> Result<(), Fault>
        requires enough { length parts.now ≤ length mvd.now }
        requires inside { All IsInside parts.now }
        ensures { Decodes result mine.new (decoded_by self.now mine.old parts.now mvd.now) }
    {
        self.decode_parts(mine, parts, mvd)
    }

    /// The parts of a quarter (6.4.2.2).
    fn decode_quarter(
        &self,
        mine: &mut [Motion; 16],
        sub_mb_type: SubMbType,
        quarter: u8,
        mvd: &[Mvd],
    ) -> Result<(), Fault>
        requires quarter { quarter < 4 }
        requires enough { 4 ≤ length mvd.now }
        ensures { Decodes result mine.new
            (decoded_by self.now mine.old (parts_in_quarter sub_mb_type quarter) mvd.now) }
    {
        let (x, y) = (8 * (quarter % 2), 8 * (quarter / 2));
        match sub_mb_type {
            SubMbType::Sub8x8 => {
                let parts = [part(x, y, 8, 8, quarter)];
                self.decode_sub_parts(mine, &parts, mvd)
            }
            SubMbType::Sub8x4 => {
                let parts = [part(x, y, 8, 4, quarter), part(x, y + 4, 8, 4, quarter)];
                self.decode_sub_parts(mine, &parts, mvd)
            }
            SubMbType::Sub4x8 => {
                let parts = [part(x, y, 4, 8, quarter), part(x + 4, y, 4, 8, quarter)];
                self.decode_sub_parts(mine, &parts, mvd)
            }
            SubMbType::Sub4x4 => {
                let parts = [
                    part(x, y, 4, 4, quarter),
                    part(x + 4, y, 4, 4, quarter),
                    part(x, y + 4, 4, 4, quarter),
                    part(x + 4, y + 4, 4, 4, quarter),
                ];
                self.decode_sub_parts(mine, &parts, mvd)
            }
        }
    }

    /// The parts of all quarters.
    fn decode_quarters(
        &self,
        mine: &mut [Motion; 16],
        sub_mb_type: &[SubMbType; 4],
        mvd: &[Mvd; 16],
    ) -> Result<(), Fault>
        ensures motion { Decodes result mine.new
            (decoded_by self.now mine.old (macroblocks.parts_of_quarters sub_mb_type.now 0)
            mvd.now) }
        ensures quarters { length sub_mb_type.now ≡ 4 }
    {
        let mut used = 0;
        for quarter in 0..4 {
            let kind = sub_mb_type[quarter];
            self.decode_quarter(mine, kind, quarter as u8, &mvd[used..])?;
            used += part_count(kind);
        }
        Ok(())
    }

    /// All parts of the macroblock.
    pub(crate) fn decode(&self, mine: &mut [Motion; 16], mvd: &[Mvd; 16]) -> Result<(), Fault>
        ensures motion { Decodes result mine.new
            (decoded_by self.now mine.old (macroblocks.parts_of self.now.mb_type.now) mvd.now) }
        ensures quarters { HasFourQuarters self.now.mb_type.now }
    {
        match self.mb_type {
            PMbType::P16x16 => {
                let parts = [part(0, 0, 16, 16, 0)];
                self.decode_parts(mine, &parts, mvd)
            }
            PMbType::P16x8 => {
                self.decode_halves(mine, part(0, 0, 16, 8, 0), part(0, 8, 16, 8, 1), mvd)
            }
            PMbType::P8x16 => {
                self.decode_halves(mine, part(0, 0, 8, 16, 0), part(8, 0, 8, 16, 1), mvd)
            }
            PMbType::P8x8(sub_mb_type) => self.decode_quarters(mine, sub_mb_type, mvd),
            PMbType::P8x8Ref0(sub_mb_type) => self.decode_quarters(mine, sub_mb_type, mvd),
        }
    }
}
