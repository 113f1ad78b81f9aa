//! The size that a sequence parameter set of any profile says (7.3.2.1.1).

ghost use Rattle.std.specs.Prelude.{◌≡◌, ◌<◌, ◌≤◌, ◌==◌, ◌||◌, ◌≤ℤ◌, ℤ, pos, negsuc};
ghost use Rattle.avc_bits.specs.Reader.{Reads};
ghost use Rattle.avc_info.specs.RefusedSet.{any_size, before_size, chroma_format};
ghost use Rattle.avc_info.specs.RefusedSet.{has_chroma_format, if_present, lists_8x8, next_scale};
ghost use Rattle.avc_info.specs.RefusedSet.{scaling_list};
ghost use Rattle.avc_info.specs.RefusedSet.{scaling_lists, scaling_matrix, size_in, size_of};

use avc_bits::BitReader;
use avc_params::{OrderCount, Syntax, read_where};
use avc_sequence::Size;
use avc_types::Fault;

/// lastScale before the first entry of a scaling list (7.3.2.1.1.1).
const FIRST_SCALE: u8 = 8;

/// How many scaling lists of 4x4 blocks there may be (7.3.2.1.1).
const LISTS_4X4: u32 = 6;

/// How many entries a scaling list of 4x4 blocks has (7.3.2.1.1).
const ENTRIES_4X4: u32 = 16;

/// How many entries a scaling list of 8x8 blocks has (7.3.2.1.1).
const ENTRIES_8X8: u32 = 64;

/// chroma_format_idc of 4:4:4 (Table 6-1).
const CHROMA_444: u32 = 3;

/// The size before cropping that a sequence parameter set of any profile says, by its RBSP; none
/// where it can't be read so far.
pub(crate) fn size_in(rbsp: &[u8]) -> Option<Size>
    ensures { result ≡ size_in rbsp.now }
{
    let mut reader = BitReader::new(rbsp);
    match read_size(&mut reader) {
        Ok(size) => Some(size),
        Err(_) => None,
    }
}

fn read_size(reader: &mut BitReader) -> Result<Size, Fault>
    ensures read { Reads result any_size reader.old reader.new }
{
    pass_to_size(reader)?;
    let width = reader.ue()?;
    let height = reader.ue()?;
    let frame_mbs_only_flag = reader.flag()?;
    Ok(size_of(width, height, frame_mbs_only_flag))
}

/// In luma samples, of the two elements that say it and frame_mbs_only_flag.
fn size_of(width: u32, height: u32, frame_mbs_only_flag: bool) -> Size
    ensures { result ≡ size_of width height frame_mbs_only_flag }
{
    let fields = if frame_mbs_only_flag { 1 } else { 2 };
    Size {
        width: 16 * (u64::from(width) + 1),
        height: 16 * (u64::from(height) + 1) * fields,
    }
}

fn pass_to_size(reader: &mut BitReader) -> Result<(), Fault>
    ensures read { Reads result before_size reader.old reader.new }
{
    let profile_idc = reader.u(8)?;
    reader.u(8)?;
    reader.u(8)?;
    reader.ue()?;
    pass_chroma_format_if(reader, has_chroma_format(profile_idc))?;
    reader.ue()?;
    OrderCount::read(reader)?;
    reader.ue()?;
    reader.flag()?;
    Ok(())
}

/// Whether sets of this profile say a chroma format.
fn has_chroma_format(profile_idc: u32) -> bool
    ensures { result ≡ has_chroma_format profile_idc }
{
    matches!(
        profile_idc,
        100 | 110 | 122 | 244 | 44 | 83 | 86 | 118 | 128 | 138 | 139 | 134 | 135
    )
}

fn pass_chroma_format_if(reader: &mut BitReader, present: bool) -> Result<(), Fault>
    ensures read { Reads result (if_present present chroma_format) reader.old reader.new }
{
    if present {
        pass_chroma_format(reader)
    } else {
        Ok(())
    }
}

fn pass_chroma_format(reader: &mut BitReader) -> Result<(), Fault>
    ensures read { Reads result chroma_format reader.old reader.new }
{
    let chroma_format_idc = reader.ue_to(CHROMA_444)?;
    read_where::<bool>(reader, chroma_format_idc == CHROMA_444)?;
    reader.ue()?;
    reader.ue()?;
    reader.flag()?;
    let present = reader.flag()?;
    pass_scaling_matrix_if(reader, present, chroma_format_idc)
}

fn pass_scaling_matrix_if(
    reader: &mut BitReader,
    present: bool,
    chroma_format_idc: u32,
) -> Result<(), Fault>
    ensures read { Reads result
        (if_present present (scaling_matrix chroma_format_idc)) reader.old reader.new }
{
    if present {
        pass_scaling_matrix(reader, chroma_format_idc)
    } else {
        Ok(())
    }
}

fn pass_scaling_matrix(reader: &mut BitReader, chroma_format_idc: u32) -> Result<(), Fault>
    ensures read { Reads result (scaling_matrix chroma_format_idc) reader.old reader.new }
{
    pass_scaling_lists(reader, LISTS_4X4, ENTRIES_4X4)?;
    pass_scaling_lists(reader, lists_8x8(chroma_format_idc), ENTRIES_8X8)
}

/// How many scaling lists of 8x8 blocks there may be (7.3.2.1.1).
fn lists_8x8(chroma_format_idc: u32) -> u32
    ensures { result ≡ lists_8x8 chroma_format_idc }
{
    if chroma_format_idc == CHROMA_444 {
        6
    } else {
        2
    }
}

fn pass_scaling_lists(reader: &mut BitReader, count: u32, entries: u32) -> Result<(), Fault>
    ensures read { Reads result (scaling_lists count entries) reader.old reader.new }
{
    for _ in 0..count {
        let present = reader.flag()?;
        pass_scaling_list_if(reader, present, entries)?;
    }
    Ok(())
}

fn pass_scaling_list_if(reader: &mut BitReader, present: bool, entries: u32) -> Result<(), Fault>
    ensures read { Reads result
        (if_present present (scaling_list entries 8)) reader.old reader.new }
{
    if present {
        pass_scaling_list(reader, entries)
    } else {
        Ok(())
    }
}

fn pass_scaling_list(reader: &mut BitReader, entries: u32) -> Result<(), Fault>
    ensures read { Reads result (scaling_list entries 8) reader.old reader.new }
{
    let mut last_scale = FIRST_SCALE;
    for _ in 0..entries {
        let delta_scale = reader.se_within(-128, 127)?;
        last_scale = next_scale(last_scale, delta_scale);
        if last_scale == 0 {
            return Ok(());
        }
    }
    Ok(())
}

fn next_scale(last_scale: u8, delta_scale: i32) -> u8
    requires low { negsuc 127 ≤ℤ delta_scale }
    requires high { delta_scale ≤ℤ pos 127 }
    ensures { result ≡ next_scale last_scale delta_scale }
{
    ((i32::from(last_scale) + 256 + delta_scale).unsigned_abs() % 256) as u8
}
