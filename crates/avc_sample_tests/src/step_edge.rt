//! A worked row of the deblocking filter: two edges of a step, of which the second filters what the
//! first left (8.7).

ghost use Rattle.std.specs.Prelude.{◌≡◌, ◌<◌, true};

use avc_deblock::{MbInfo, Place, edge};
use avc_plane::{Plane, Planes};
use avc_types::{FilteredEdges, Mv};
use std::test::Fail;

/// An intra macroblock of QP 51.
const INTRA: MbInfo = MbInfo {
    is_intra: true,
    coefficients: 0,
    pictures: [0; 4],
    vectors: [Mv { x: 0, y: 0 }; 16],
    qp: 51,
    slice: 0,
    filtered_edges: FilteredEdges::All,
    offset_a: 0,
    offset_b: 0,
};

/// Twelve samples of each luma line, from four samples left of the step on.
const FILTERED: [u8; 12] = [100, 108, 115, 123, 138, 145, 152, 159, 161, 160, 160, 160];

fn set_step(luma: &mut Plane<0>) {
    for y in 0..16 {
        for x in 0..32 {
            if x < luma.width() && y < luma.height() {
                luma.set(x, y, if x < 16 { 100 } else { 160 });
            }
        }
    }
}

fn has_size(plane: &Plane<0>, width: usize, height: usize) -> bool
    ensures { result ≡ true → (plane.now.width ≡ width) × (plane.now.height ≡ height) }
{
    plane.width() == width && plane.height() == height
}

/// Filters a vertical edge of the second macroblock: the first, between the two, is of strength 4,
/// and the others are of strength 3. Says whether the planes have room for it.
fn filter(planes: &mut Planes<0>, n: usize) -> bool
    requires { n < 4 }
{
    const PLACE: Place = Place {
        column: 1,
        row: 0,
        chroma_qp_index_offset: 0,
    };
    if !has_size(&planes.luma, 32, 16) {
        return false;
    }
    if !has_size(&planes.cb, 16, 8) {
        return false;
    }
    if !has_size(&planes.cr, 16, 8) {
        return false;
    }
    edge::<true, 0>(planes, &INTRA, &INTRA, n, PLACE);
    true
}

fn is_filtered(luma: &Plane<0>) -> bool {
    for y in 0..luma.height() {
        for k in 0..12 {
            let x = 12 + k;
            if x >= luma.width() || luma.get(x, y) != FILTERED[k] {
                return false;
            }
        }
    }
    true
}

#[test]
fn two_edges_of_a_step(rt: HostRuntime) -> Result<(), Fail> {
    let mut planes = Planes::<0>::new(rt.alloc(), 2, 1)?;
    set_step(&mut planes.luma);
    assert!(rt; filter(&mut planes, 0));
    assert!(rt; filter(&mut planes, 1));
    assert!(rt; is_filtered(&planes.luma));
    Ok(())
}
