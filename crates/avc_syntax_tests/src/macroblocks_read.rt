//! Macroblocks read from a few bytes, and where the data of a slice ends.

use avc_bits::BitReader;
use avc_mbsyntax::{Context, SliceData, read_macroblock};
use avc_types::{Fault, Mb, Syntax};
use std::test::Fail;

// of the first macroblock of an I slice
fn first() -> Context {
    Context {
        is_p: false,
        num_ref_idx_active: 0,
        qp: 26,
        left: None,
        up: None,
    }
}

// Of an Intra 16x16 macroblock: QP_Y, the modes of luma and chroma, the first DC level, how many DC
// levels there are, and the pattern of chroma.
type Fields = (u8, u8, u8, i16, u8, u8);

fn fields_of(mb: &Mb) -> Option<Fields> {
    match &mb.syntax {
        Syntax::I16x16 {
            mode,
            chroma_mode,
            luma_dc,
            levels,
        } => Some((
            mb.qp,
            *mode,
            *chroma_mode,
            luma_dc.as_array()[0],
            luma_dc.total_coeff(),
            levels.chroma_pattern,
        )),
        _ => None,
    }
}

// What the first macroblock of an I slice is, or its fault, and where the reader stands then.
fn read_first(bytes: &[u8]) -> (Result<Option<Fields>, Fault>, u128) {
    let mut reader = BitReader::new(bytes);
    let read = match read_macroblock(&mut reader, &first()) {
        Ok(mb) => Ok(fields_of(&mb)),
        Err(fault) => Err(fault),
    };
    (read, reader.position())
}

#[test]
fn reads_an_intra_16x16_macroblock(rt: HostRuntime) -> Result<(), Fail> {
    assert_eq!(rt;
        read_first(&[0x26, 0xB0]),
        (Ok(Some((26, 2, 0, 1, 1, 0))), 11)
    );
    Ok(())
}

// A macroblock that is cut short, and mb_type 26.
#[test]
fn stays_where_there_is_no_macroblock(rt: HostRuntime) -> Result<(), Fail> {
    assert_eq!(rt;
        [read_first(&[0x26, 0xA0]), read_first(&[0x0D, 0xC0])],
        [(Err(Fault::Truncated), 0), (Err(Fault::OutOfRange), 0)]
    );
    Ok(())
}

// How many macroblocks a slice has, and the fault that comes then, of a picture of three
// macroblocks in which so many remain.
fn read_all(bytes: &[u8], is_p: bool, remaining: u32) -> (u32, Option<Fault>) {
    let mut data = SliceData::new(BitReader::new(bytes), is_p, 1, 26, remaining);
    let mut mb = Mb {
        syntax: Syntax::PSkip,
        qp: 0,
    };
    for count in 0..4 {
        match data.next(None, None, &mut mb) {
            Ok(true) => {}
            Ok(false) => return (count, None),
            Err(fault) => return (count, Some(fault)),
        }
    }
    (4, None)
}

// Runs of 3, of 0 and of 4, and two Intra 16x16 macroblocks, of which one may be too many.
#[test]
fn ends_where_the_data_ends(rt: HostRuntime) -> Result<(), Fail> {
    assert_eq!(rt;
        [
            read_all(&[0x24], true, 3),
            read_all(&[0xC0], true, 3),
            read_all(&[0x2C], true, 3),
            read_all(&[0x26, 0xA4, 0xD6], false, 2),
            read_all(&[0x26, 0xA4, 0xD6], false, 1)
        ],
        [
            (3, None),
            (0, None),
            (0, Some(Fault::TooManyMacroblocks)),
            (2, None),
            (1, Some(Fault::TooManyMacroblocks))
        ]
    );
    Ok(())
}
