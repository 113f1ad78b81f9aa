//! Where a comparison reports to.

/// Where a comparison reports to while it goes on: each picture and each refusal to `report`, and
/// what that tells of refusals on `errors`.
#[derive(Drop)]
pub(crate) struct Reporting<'a, 'b, T, E> {
    pub(crate) report: &'a mut T,
    pub(crate) errors: &'b mut E,
}
