//! MaxDpbMbs by level (Table A-1).

ghost use Rattle.std.specs.Prelude.{◌≡◌};
ghost use Rattle.avc_params.specs.Limits.{max_dpb_mbs as most_in_table};

/// MaxDpbMbs of a level (Table A-1): how many macroblocks the decoded picture buffer holds. Level
/// 11 with constraint_set3_flag is level 1b.
pub(crate) fn max_dpb_mbs(level_idc: u8, constraint_set3_flag: bool) -> Option<u32>
    ensures { result ≡ most_in_table level_idc constraint_set3_flag }
{
    match level_idc {
        11 if constraint_set3_flag => Some(396),
        9 | 10 => Some(396),
        11 => Some(900),
        12 | 13 | 20 => Some(2376),
        21 => Some(4752),
        22 | 30 => Some(8100),
        31 => Some(18000),
        32 => Some(20480),
        40 | 41 => Some(32768),
        42 => Some(34816),
        50 => Some(110_400),
        51 | 52 => Some(184_320),
        60 | 61 | 62 => Some(696_320),
        _ => None,
    }
}
