//! What lines are filtered with, in bytes (8.7.2.2).

ghost use Rattle.std.specs.Prelude.{◌≡◌, ◌≤◌, ◌<◌, ℕ, ◌+◌, ◌/◌, slice_index};

/// What a line is filtered with below strength 4.
#[derive(Clone, Copy)]
pub(crate) struct WeakThresholds {
    /// One less than alpha.
    pub(crate) alpha1: u8,

    /// One less than beta.
    pub(crate) beta1: u8,

    /// Not 0 where the strength is 0.
    pub(crate) dead: u8,

    pub(crate) tc0: u8,

    ghost small: { tc0 ≤ 92 },
}

/// What a line is filtered with at strength 4.
#[derive(Clone, Copy)]
pub(crate) struct StrongThresholds {
    /// One less than alpha.
    pub(crate) alpha1: u8,

    /// One less than beta.
    pub(crate) beta1: u8,

    /// One less than a quarter of alpha and two.
    pub(crate) small1: u8,

    ghost quarter: { small1 ≡ (alpha1 + 1) / 4 + 1 },
}

/// What sixteen lines are filtered with below strength 4.
#[derive(Clone, Copy)]
pub(crate) struct Limits {
    /// One less than alpha.
    pub(crate) alpha1: [u8; 16],

    /// One less than beta.
    pub(crate) beta1: [u8; 16],

    /// Not 0 where the strength is 0.
    pub(crate) dead: [u8; 16],

    pub(crate) tc0: [u8; 16],

    ghost small: { (i : ℕ) → i < 16 → slice_index tc0 i ≤ 92 },
}

/// What sixteen lines are filtered with at strength 4.
#[derive(Clone, Copy)]
pub(crate) struct StrongLimits {
    /// One less than alpha.
    pub(crate) alpha1: [u8; 16],

    /// One less than beta.
    pub(crate) beta1: [u8; 16],

    /// One less than a quarter of alpha and two.
    pub(crate) small1: [u8; 16],

    ghost quarter: { (i : ℕ) → i < 16 → slice_index small1 i ≡ (slice_index alpha1 i + 1) / 4 + 1 },
}
