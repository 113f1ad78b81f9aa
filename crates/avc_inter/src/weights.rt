//! The weights of four neighbouring samples (8.4.2.2.2).

ghost use Rattle.std.specs.Prelude.{◌≡◌, ◌+◌, ◌-◌, ◌*◌};

use crate::vector::Eighths;

/// The weights in 64ths of a sample, that right of it, that below it and that across: 64 together.
#[derive(Clone, Copy)]
pub struct BilinearWeights {
    pub here: u16,
    pub right: u16,
    pub below: u16,
    pub across: u16,

    ghost whole: { here + right + below + across ≡ 64 },
}

impl BilinearWeights {
    /// By the eighths to the right and down.
    pub fn new(beyond: Eighths) -> BilinearWeights
        ensures here { result.here ≡ (8 - beyond.right) * (8 - beyond.down) }
        ensures right { result.right ≡ beyond.right * (8 - beyond.down) }
        ensures below { result.below ≡ (8 - beyond.right) * beyond.down }
        ensures across { result.across ≡ beyond.right * beyond.down }
    {
        let right = beyond.right;
        let down = beyond.down;
        BilinearWeights {
            here: (8 - right) * (8 - down),
            right: right * (8 - down),
            below: (8 - right) * down,
            across: right * down,
        }
    }
}
