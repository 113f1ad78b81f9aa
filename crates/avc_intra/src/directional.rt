//! The six directional modes of a 4x4 luma block (clauses 8.3.1.2.4 to 8.3.1.2.9), each from a line
//! of nine samples that go round the block or along one side of it.

ghost use Rattle.std.specs.Prelude.{◌≡◌, ℕ, ◌<◌, map, slice_index};
ghost use Rattle.std.specs.List.{range_with_len};
ghost use Rattle.avc_types.specs.Arithmetic.{mean_of_two, mean_of_three};
ghost use Rattle.avc_intra.specs.Neighbourhood.{Around};
ghost use Rattle.avc_intra.specs.Luma4x4.{predict_diagonal_down_left, predict_diagonal_down_right};
ghost use Rattle.avc_intra.specs.Luma4x4.{predict_vertical_right, predict_vertical_left};
ghost use Rattle.avc_intra.specs.Luma4x4.{predict_horizontal_up, exchanged};
ghost use Rattle.avc_intra.specs.Lines.{line_above, line_left, line_round, pairs_of, triples_of};
ghost use Rattle.avc_intra.specs.Lines.{block4x4};

use crate::means::{mean_of_three, mean_of_two};

/// The mean of each two samples that stand side by side.
fn pairs(line: &[u8; 9]) -> [u8; 8]
    ensures { result ≡ pairs_of line.now }
{
    let mut means = [0; 8];
    for i in 0..8 {
        means[i] = mean_of_two(line[i], line[i + 1]);
    }
    means
}

/// The mean of each three samples that stand side by side.
fn triples(line: &[u8; 9]) -> [u8; 7]
    ensures { result ≡ triples_of line.now }
{
    let mut means = [0; 7];
    for i in 0..7 {
        means[i] = mean_of_three(line[i], line[i + 1], line[i + 2]);
    }
    means
}

/// Intra_4x4_Diagonal_Down_Left, from the samples above.
#[rattlefmt::skip]
pub fn diagonal_down_left(line: &[u8; 9]) -> [u8; 16]
    ensures { (p : Around) → line.now ≡ line_above p →
        result ≡ block4x4 (predict_diagonal_down_left p) }
{
    let t = triples(line);
    [
        t[0], t[1], t[2], t[3],
        t[1], t[2], t[3], t[4],
        t[2], t[3], t[4], t[5],
        t[3], t[4], t[5], t[6],
    ]
}

/// Intra_4x4_Diagonal_Down_Right, from the samples round the corner.
#[rattlefmt::skip]
pub fn diagonal_down_right(line: &[u8; 9]) -> [u8; 16]
    ensures { (p : Around) → line.now ≡ line_round p →
        result ≡ block4x4 (predict_diagonal_down_right p) }
{
    let t = triples(line);
    [
        t[3], t[4], t[5], t[6],
        t[2], t[3], t[4], t[5],
        t[1], t[2], t[3], t[4],
        t[0], t[1], t[2], t[3],
    ]
}

/// Intra_4x4_Vertical_Right, from the samples round the corner.
#[rattlefmt::skip]
pub fn vertical_right(line: &[u8; 9]) -> [u8; 16]
    ensures { (p : Around) → line.now ≡ line_round p →
        result ≡ block4x4 (predict_vertical_right p) }
{
    let p = pairs(line);
    let t = triples(line);
    [
        p[4], p[5], p[6], p[7],
        t[3], t[4], t[5], t[6],
        t[2], p[4], p[5], p[6],
        t[1], t[3], t[4], t[5],
    ]
}

/// Intra_4x4_Horizontal_Down, from the samples round the corner.
#[rattlefmt::skip]
pub fn horizontal_down(line: &[u8; 9]) -> [u8; 16]
    ensures { (p : Around) → line.now ≡ line_round p →
        result ≡ block4x4 (λ x y. predict_vertical_right (exchanged p) y x) }
{
    let p = pairs(line);
    let t = triples(line);
    [
        p[3], t[3], t[4], t[5],
        p[2], t[2], p[3], t[3],
        p[1], t[1], p[2], t[2],
        p[0], t[0], p[1], t[1],
    ]
}

/// Intra_4x4_Vertical_Left, from the samples above.
#[rattlefmt::skip]
pub fn vertical_left(line: &[u8; 9]) -> [u8; 16]
    ensures { (p : Around) → line.now ≡ line_above p → result ≡ block4x4 (predict_vertical_left p) }
{
    let p = pairs(line);
    let t = triples(line);
    [
        p[0], p[1], p[2], p[3],
        t[0], t[1], t[2], t[3],
        p[1], p[2], p[3], p[4],
        t[1], t[2], t[3], t[4],
    ]
}

/// Intra_4x4_Horizontal_Up, from the samples on the left.
#[rattlefmt::skip]
pub fn horizontal_up(line: &[u8; 9]) -> [u8; 16]
    ensures { (p : Around) → line.now ≡ line_left p → result ≡ block4x4 (predict_horizontal_up p) }
{
    let p = pairs(line);
    let t = triples(line);
    [
        p[0], t[0], p[1], t[1],
        p[1], t[1], p[2], t[2],
        p[2], t[2], p[3], t[3],
        p[3], t[3], p[4], t[4],
    ]
}
