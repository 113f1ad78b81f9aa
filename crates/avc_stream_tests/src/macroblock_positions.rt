//! Where macroblocks stand in slices, and which are told with them. The bits of the slices are
//! worked by hand.

use avc_macroblocks::run_macroblocks_at;
use avc_reading::MacroblockPosition;
use avc_selection::AtMacroblock;
use std::alloc::Global;
use std::test::Fail;

// Sequence and picture parameter sets of pictures of two macroblocks, an IDR picture of two Intra
// 16x16 macroblocks, which end behind 25 and 58 bits, and three P pictures whose headers have 11
// bits: mb_skip_run 2; mb_skip_run 1 and a P_L0_16x16 of 4 bits; mb_skip_run 0 of a bit, such a
// macroblock, and mb_skip_run 1.
const PAIRS: [u8; 55] = [
    0, 0, 1, 0x67, 0x42, 0xC0, 0x0A, 0xDA, 0x2C, 0x40, 0, 0, 1, 0x68, 0xCE, 0x38, 0x80, 0, 0, 1,
    0x65, 0x88, 0x84, 0x93, 0x93, 0x14, 0x00, 0x09, 0x60, 0, 0, 1, 0x41, 0xE2, 0x2E, 0, 0, 1, 0x41,
    0xE4, 0x2B, 0xE0, 0, 0, 1, 0x41, 0xE6, 0x3F, 0x50, 0, 0, 1, 0x09, 0x10, 0,
];

// Sequence and picture parameter sets of pictures of 3x3 macroblocks, and a P picture with
// mb_skip_run 9.
const NINE: [u8; 24] = [
    0, 0, 1, 0x67, 0x42, 0xC0, 0x0A, 0xDA, 0x37, 0x10, 0, 0, 1, 0x68, 0xCE, 0x38, 0x80, 0, 0, 1,
    0x41, 0xE2, 0x22, 0xA0,
];

// Where a macroblock stands, and how many bytes are told.
fn found(
    alloc: Global,
    stream: &[u8],
    unit: u64,
    address: u32,
) -> Result<(Option<MacroblockPosition>, Vec<u8>), Fail> {
    let mut reader = stream;
    let mut told = Vec::new(alloc);
    let macroblock = AtMacroblock { unit, address };
    match run_macroblocks_at(alloc, macroblock, &mut reader, &mut told) {
        Ok(position) => Ok((position, told)),
        Err(_) => Ok((None, Vec::new(alloc))),
    }
}

fn position(unit: u64, kept_bits: u128, run: Option<u32>) -> Option<MacroblockPosition> {
    Some(MacroblockPosition {
        unit,
        kept_bits,
        run,
    })
}

#[test]
fn macroblocks_stand_where_they_do(rt: HostRuntime) -> Result<(), Fail> {
    let alloc = rt.alloc();
    let stands = [
        (2, 0, 25, None),
        (2, 1, 58, None),
        (3, 0, 11, Some(1)),
        (3, 1, 11, Some(2)),
        (4, 0, 11, Some(1)),
        (4, 1, 18, None),
        (5, 0, 16, None),
        (5, 1, 16, Some(1)),
    ];
    for (unit, address, kept_bits, run) in stands {
        let (at, _) = found(alloc, &PAIRS, unit, address)?;
        assert_eq!(rt; at, position(unit, kept_bits, run));
    }
    Ok(())
}

#[test]
fn macroblocks_that_never_come_stand_nowhere(rt: HostRuntime) -> Result<(), Fail> {
    let alloc = rt.alloc();
    for (unit, address) in [(2, 2), (1, 0), (7, 0), (6, 1)] {
        let (at, told) = found(alloc, &PAIRS, unit, address)?;
        assert_eq!(rt; at, None);
        assert!(rt; told.is_empty() || unit == 2);
    }
    Ok(())
}

// Macroblocks of the nine: the address, where in the run it stands, and what is told with it.
const NEIGHBOURS: [(u32, u32, &str); 3] = [
    (
        4,
        5,
        "2 slice 0 mb 0 P_Skip qp 26 mv 0,0\n2 slice 0 mb 1 P_Skip qp 26 mv 0,0\n\
        2 slice 0 mb 2 P_Skip qp 26 mv 0,0\n2 slice 0 mb 3 P_Skip qp 26 mv 0,0\n2 slice 0 mb 4 P_Skip qp 26 mv 0,0\n",
    ),
    (
        3,
        4,
        "2 slice 0 mb 0 P_Skip qp 26 mv 0,0\n2 slice 0 mb 1 P_Skip qp 26 mv 0,0\n\
        2 slice 0 mb 3 P_Skip qp 26 mv 0,0\n",
    ),
    (
        5,
        6,
        "2 slice 0 mb 1 P_Skip qp 26 mv 0,0\n2 slice 0 mb 2 P_Skip qp 26 mv 0,0\n\
        2 slice 0 mb 4 P_Skip qp 26 mv 0,0\n2 slice 0 mb 5 P_Skip qp 26 mv 0,0\n",
    ),
];

#[test]
fn neighbours_are_told(rt: HostRuntime) -> Result<(), Fail> {
    for (address, run, lines) in NEIGHBOURS {
        let (at, told) = found(rt.alloc(), &NINE, 2, address)?;
        assert_eq!(rt; at, position(2, 11, Some(run)));
        assert_eq!(rt; told.as_slice(), lines.as_bytes());
    }
    Ok(())
}
