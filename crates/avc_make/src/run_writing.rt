//! The zeros between levels (9.2.3).
ghost use Rattle.std.specs.Prelude.{◌≡◌, ◌+◌, ◌≤◌, false, length};
ghost use Rattle.std.specs.List.{sum};
ghost use Rattle.avc_rbsp.specs.Made.{Puts};
ghost use Rattle.avc_make.specs.BlockWriting.{run_bits, runs_bits, runs_of, zeros_bits};

use crate::block_writing::put_word;
use crate::coefficients::Coefficients;
use avc_rbsp::BitMaker;
use avc_types::OutOfMemory;
use avc_vlc::{run_before_word, total_zeros_word};

/// total_zeros of a block of `most` levels, of which `total` are not 0.
pub(crate) fn put_zeros(
    maker: &mut BitMaker,
    most: usize,
    total: usize,
    zeros: u8,
) -> Result<(), OutOfMemory>
    requires going { maker.old.failed ≡ false }
    requires most { most ≤ 16 }
    requires within { total + zeros ≤ most }
    ensures { Puts result (zeros_bits most total zeros) maker.old maker.new }
{
    if total == 0 || total == most {
        return Ok(());
    }
    put_word(maker, total_zeros_word(total as u8, most == 4, zeros))
}

/// The run of zeros before each level.
pub(crate) fn put_runs(
    maker: &mut BitMaker,
    found: &Coefficients,
    zeros: u8,
) -> Result<(), OutOfMemory>
    requires going { maker.old.failed ≡ false }
    requires zeros { zeros ≡ sum (runs_of found.now) }
    requires few { length found.now + zeros ≤ 16 }
    ensures { Puts result (runs_bits zeros (runs_of found.now)) maker.old maker.new }
{
    let mut zeros_left = zeros;
    let mut others = found.len();
    'runs: for k in 0..found.len() {
        let run = found.run(k);
        others -= 1;
        put_run(maker, others, zeros_left, run)?;
        zeros_left -= run;
    }
    Ok(())
}

// The run before a level with so many others after it.
fn put_run(maker: &mut BitMaker, others: usize, zeros_left: u8, run: u8) -> Result<(), OutOfMemory>
    requires going { maker.old.failed ≡ false }
    requires few { others + 1 + zeros_left ≤ 16 }
    requires run { run ≤ zeros_left }
    ensures { Puts result (run_bits others zeros_left run) maker.old maker.new }
{
    if others == 0 || zeros_left == 0 {
        return Ok(());
    }
    put_word(maker, run_before_word(zeros_left, run))
}
