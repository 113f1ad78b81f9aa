//! The levels of a block that are told.

ghost use Rattle.std.specs.Prelude.{◌≡◌, ◌≤◌, take};
ghost use Rattle.avc_elements.specs.Levels.{up_to_last};

/// How many levels of a block there are up to the last that is not 0.
#[tactic(auto, using(crate::proofs::ToLast::zero_comes, crate::proofs::ToLast::level_comes))]
pub fn count_to_last<const MAXN: usize>(levels: [i16; MAXN]) -> usize
    ensures levels { take result levels.entry ≡ up_to_last levels.entry }
    ensures within { result ≤ MAXN }
{
    let mut end = 0;
    'levels: for k in 0..MAXN {
        if levels[k] != 0 {
            end = k + 1;
        }
    }
    end
}
