//! Where a run reports to.

/// Where a run reports to while it goes on: each picture and each refusal to `report`, what that
/// tells of refusals on `errors`, and how far the run is to `watch`.
#[derive(Drop)]
pub struct Reporting<'a, 'b, 'c, T, E, V> {
    pub report: &'a mut T,

    pub errors: &'b mut E,

    pub watch: &'c mut V,
}
