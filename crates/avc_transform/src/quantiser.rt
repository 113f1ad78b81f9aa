//! QPc (8.5.8, Table 8-15).

ghost use Rattle.std.specs.Prelude.{◌≡◌, ◌≤◌};
ghost use Rattle.avc_transform.specs.Residual.{chroma_qp};

/// QPc for each value of qPI (Table 8-15).
const CHROMA_QP: [u8; 52] = [
    0, 1, 2, 3, 4, 5, 6, 7, 8, 9, 10, 11, 12, 13, 14, 15, 16, 17, 18, 19, 20, 21, 22, 23, 24, 25,
    26, 27, 28, 29, 29, 30, 31, 32, 32, 33, 34, 34, 35, 35, 36, 36, 37, 37, 37, 38, 38, 38, 39, 39,
    39, 39,
];

/// The quantiser of chroma, 0 to 39, of a luma quantiser and chroma_qp_index_offset (8.5.8).
#[inline(always)]
pub fn chroma_qp(offset: i8, qp: u8) -> u8
    ensures value { result ≡ chroma_qp offset qp }
    ensures range { result ≤ 39 }
{
    let index = (i16::from(qp) + i16::from(offset)).clamp(0, 51);
    CHROMA_QP[index as usize]
}
