//! Which of the other's pictures are ours of another number.

ghost use Rattle.std.specs.Prelude.{◌≡◌, ◌++◌, [], IfErr, IfOk, OnOk, Some, slice_get};
ghost use Rattle.std.specs.List.{cons_option, position};
ghost use Rattle.avc_console.specs.declared.fault.RunFault.TheVariants as faults;
ghost use Rattle.avc_compare.specs.Displaced.{displaced_at, displaced_pictures, is_at, is_digest};

use crate::digests::Digests;
use avc_console::RunFault;
use avc_types::OutOfMemory;
use std::alloc::Global;
use std::marker::Model;

/// A picture of the other's that is one of ours of another number.
#[derive(Clone, Copy)]
pub struct Displaced {
    /// Its number among the other's pictures, from 0; the greatest number, once there.
    pub number: u64,

    /// The number of ours.
    pub ours: u64,
}

/// The other's pictures that are ours of another number, in the other's order. A contract sees
/// their list.
#[derive(Drop)]
pub struct DisplacedPictures {
    pictures: Vec<Displaced>,
}

impl Model for DisplacedPictures {
    ghost use Rattle.std.specs.Prelude.{List};
    ghost use Rattle.avc_compare.specs.declared.displaced.Displaced.{Displaced};

    ghost Value = { List Displaced };

    ghost view = { λ d. d.pictures.items };
}

impl DisplacedPictures {
    /// None.
    pub(crate) fn new(alloc: Global) -> DisplacedPictures
        ensures { result ≡ [] }
    {
        DisplacedPictures {
            pictures: Vec::new(alloc),
        }
    }

    pub fn as_slice(&self) -> &[Displaced]
        ensures { result.now ≡ self.now }
    {
        self.pictures.as_slice()
    }

    // Adds a picture, if there is one.
    fn push_any(&mut self, picture: Option<Displaced>) -> Result<(), OutOfMemory>
        ensures { OnOk result (self.new ≡ self.old ++ cons_option picture []) }
    {
        match picture {
            Some(displaced) => {
                self.pictures.push(displaced)?;
                Ok(())
            }
            None => Ok(()),
        }
    }
}

/// The other's pictures that are ours of another number, by the MD5s of both, where the first of
/// both have this number.
pub(crate) fn find_displaced(
    alloc: Global,
    first: u64,
    digests: &Digests,
) -> Result<DisplacedPictures, RunFault>
    ensures ok { IfOk result (λ displaced. displaced ≡ displaced_pictures first digests.now) }
    ensures err { IfErr result (λ fault. fault ≡ faults.Memory) }
{
    let ours = digests.ours();
    let theirs = digests.theirs();
    let mut displaced = DisplacedPictures::new(alloc);
    'places: for place in 0..theirs.len() {
        displaced.push_any(displaced_at(first, ours, theirs[place], place))?;
    }
    Ok(displaced)
}

// The other's picture with this MD5, at this place.
fn displaced_at(first: u64, ours: &[[u8; 16]], digest: [u8; 16], place: usize) -> Option<Displaced>
    ensures { result ≡ displaced_at first ours.now digest place }
{
    if is_at(ours, place, digest) {
        return None;
    }
    match place_of(ours, digest) {
        Some(own) => Some(Displaced {
            number: first.saturating_add(place as u64),
            ours: first.saturating_add(own as u64),
        }),
        None => None,
    }
}

fn is_at(ours: &[[u8; 16]], place: usize, digest: [u8; 16]) -> bool
    ensures { result ≡ is_at (slice_get ours.now place) digest }
{
    match ours.get(place) {
        Some(own) => *own == digest,
        None => false,
    }
}

fn place_of(ours: &[[u8; 16]], digest: [u8; 16]) -> Option<usize>
    ensures { result ≡ position (λ own. is_digest own digest) ours.now }
{
    ours.iter().position(|own| *own == digest)
}
