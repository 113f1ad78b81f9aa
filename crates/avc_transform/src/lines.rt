//! Four lines of four numbers side by side.

ghost use Rattle.std.specs.Prelude.{ℕ, ℤ, ◌^◌};
ghost use Rattle.avc_transform.specs.Bounds.{AllBelow, HasRows};
ghost use Rattle.avc_transform.specs.Lines.{AreBelow, AreLines};

/// Four lines of four numbers: the columns of a 4x4 block, or its rows. d0 to d3 are named as in
/// 8.5.12.2, where they are one number each; here they are four, which go the same way side by
/// side.
#[derive(Clone, Copy)]
pub struct Lines {
    pub d0: [i32; 4],
    pub d1: [i32; 4],
    pub d2: [i32; 4],
    pub d3: [i32; 4],
}

/// Columns as rows, or rows as columns.
#[inline(always)]
pub fn exchanged(lines: Lines) -> Lines
    requires { AreBelow (2 ^ 31) lines }
    ensures values { (f : ℕ → ℕ → ℤ) → AreLines f lines → AreLines (λ x y. f y x) result }
    ensures small { (n : ℕ) → AreBelow n lines → AreBelow n result }
{
    let Lines { d0, d1, d2, d3 } = lines;
    Lines {
        d0: [d0[0], d1[0], d2[0], d3[0]],
        d1: [d0[1], d1[1], d2[1], d3[1]],
        d2: [d0[2], d1[2], d2[2], d3[2]],
        d3: [d0[3], d1[3], d2[3], d3[3]],
    }
}

/// The sixteen numbers of four rows, row by row.
#[inline(always)]
pub fn in_rows(rows: Lines) -> [i32; 16]
    requires { AreBelow (2 ^ 31) rows }
    ensures values { (f : ℕ → ℕ → ℤ) → AreLines f rows → HasRows (λ x y. f y x) result }
    ensures small { (n : ℕ) → AreBelow n rows → AllBelow 16 n result }
{
    let Lines { d0, d1, d2, d3 } = rows;
    [
        d0[0], d0[1], d0[2], d0[3], d1[0], d1[1], d1[2], d1[3], d2[0], d2[1], d2[2], d2[3], d3[0],
        d3[1], d3[2], d3[3],
    ]
}
