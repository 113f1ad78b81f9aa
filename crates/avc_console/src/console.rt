//! What a command is given beside its input and output: names of files, the standard error, and who
//! watches.

use crate::fault::RunFault;
use crate::reporter::Counts;
use avc_types::Fault;

/// The files that a command reads and writes, by name, where they are no standard streams.
#[derive(Clone, Copy)]
pub struct Names<'a> {
    pub input: Option<&'a str>,

    pub output: Option<&'a str>,
}

/// What a command shows beside what it writes: on `errors` refusals, and faults with the names of
/// files, and by `watch` how far it is.
#[derive(Drop)]
pub struct Console<'a, E, V> {
    pub names: Names<'a>,

    /// Whether behind the line of each refusal one says what it means.
    pub is_explained: bool,

    pub errors: E,

    pub watch: V,
}

/// Whoever is told how far a run is. What becomes of it is no matter of the run: nothing that the
/// run writes or answers hangs on it.
pub trait Watch {
    /// The next bytes of the stream, before they are decoded.
    fn note_bytes(&mut self, piece: &[u8]);

    /// There are no more bytes.
    fn note_end(&mut self);

    /// A picture was written.
    fn note_picture(&mut self);

    /// A refusal was told: the place of a unit among the stream's units, from 0, and its fault.
    fn note_refusal(&mut self, unit: u64, fault: Fault);

    /// After each read: the bytes that it gave, and what the stream has come to.
    fn look(&mut self, piece: &[u8], counts: Counts);

    /// At the end of the run: what the stream has come to, and the fault that ended the run, if one
    /// did.
    fn end(&mut self, counts: Counts, run: Result<(), RunFault>);
}

/// Nobody watches.
#[derive(Clone, Copy)]
pub struct Unwatched;

impl Watch for Unwatched {
    #[inline(always)]
    fn note_bytes(&mut self, piece: &[u8]) {}

    #[inline(always)]
    fn note_end(&mut self) {}

    #[inline(always)]
    fn note_picture(&mut self) {}

    #[inline(always)]
    fn note_refusal(&mut self, unit: u64, fault: Fault) {}

    #[inline(always)]
    fn look(&mut self, piece: &[u8], counts: Counts) {}

    #[inline(always)]
    fn end(&mut self, counts: Counts, run: Result<(), RunFault>) {}
}
