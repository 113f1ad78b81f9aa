//! MD5s of pictures.

ghost use Rattle.std.specs.Prelude.{◌≡◌, ◌∷◌, [], IfErr, IfOk, OnOk};
ghost use Rattle.md5.specs.Md5.{md5};
ghost use Rattle.avc_console.specs.declared.fault.RunFault.TheVariants as faults;
ghost use Rattle.avc_compare.specs.Running.{kept, with_ours, with_theirs};

use avc_console::RunFault;
use avc_types::OutOfMemory;
use md5::{Digest, Md5};
use std::alloc::Global;
use std::marker::Model;

/// So many of the other's pictures, from the first that differs on, are sought among as many of
/// ours.
pub(crate) const MOST_SOUGHT: usize = 17;

/// The MD5s of our first pictures from the first that differs on, and of the other's. A contract
/// sees both lists.
#[derive(Drop)]
pub(crate) struct Digests {
    ours: Vec<[u8; 16]>,
    theirs: Vec<[u8; 16]>,
}

impl Model for Digests {
    ghost use Rattle.avc_compare.specs.Displaced.{Digested};

    ghost Value = { Digested };

    ghost view = { λ d. record { ours = d.ours.items; theirs = d.theirs.items } };
}

impl Digests {
    /// Of a picture of ours and of the other's.
    pub(crate) fn of_both(
        alloc: Global,
        ours: [u8; 16],
        theirs: [u8; 16],
    ) -> Result<Digests, RunFault>
        ensures ok { IfOk result
            (λ digests. digests ≡ record { ours = ours ∷ []; theirs = theirs ∷ [] }) }
        ensures err { IfErr result (λ fault. fault ≡ faults.Memory) }
    {
        Ok(Digests {
            ours: one(alloc, ours)?,
            theirs: one(alloc, theirs)?,
        })
    }

    pub(crate) fn ours(&self) -> &[[u8; 16]]
        ensures { result.now ≡ self.now.ours }
    {
        self.ours.as_slice()
    }

    pub(crate) fn theirs(&self) -> &[[u8; 16]]
        ensures { result.now ≡ self.now.theirs }
    {
        self.theirs.as_slice()
    }

    /// Adds that of a picture of ours, where they are not enough.
    pub(crate) fn add_ours(&mut self, digest: [u8; 16]) -> Result<(), RunFault>
        ensures ok { OnOk result (self.new ≡ with_ours digest self.old) }
        ensures err { IfErr result (λ fault. fault ≡ faults.Memory) }
    {
        add_first(&mut self.ours, digest)?;
        Ok(())
    }

    /// Adds that of a picture of the other's, where they are not enough.
    pub(crate) fn add_theirs(&mut self, digest: [u8; 16]) -> Result<(), RunFault>
        ensures ok { OnOk result (self.new ≡ with_theirs digest self.old) }
        ensures err { IfErr result (λ fault. fault ≡ faults.Memory) }
    {
        add_first(&mut self.theirs, digest)?;
        Ok(())
    }
}

fn one(alloc: Global, digest: [u8; 16]) -> Result<Vec<[u8; 16]>, OutOfMemory>
    ensures { IfOk result (λ digests. digests.items ≡ digest ∷ []) }
{
    let mut digests = Vec::new(alloc);
    digests.push(digest)?;
    Ok(digests)
}

fn add_first(digests: &mut Vec<[u8; 16]>, digest: [u8; 16]) -> Result<(), OutOfMemory>
    ensures { OnOk result (digests.new.items ≡ kept digests.old.items digest) }
{
    if digests.len() < MOST_SOUGHT {
        digests.push(digest)?;
        Ok(())
    } else {
        Ok(())
    }
}

/// The MD5 of some bytes (RFC 1321).
pub(crate) fn digest_of(bytes: &[u8]) -> [u8; 16]
    ensures { result ≡ md5 bytes.now }
{
    let mut hasher = Md5::new();
    hasher.update(bytes);
    hasher.finalize()
}
