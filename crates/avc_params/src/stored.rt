//! Parameter sets under their ids.

ghost use Rattle.std.specs.Prelude.{◌≡◌, ℕ, ◌==◌, ◌<◌, Some, None, OnOk, OnErr, if◌then◌else◌};
ghost use Rattle.std.specs.Option.{option_copied};
ghost use Rattle.std.specs.Vec.{vec_len};
ghost use Rattle.avc_params.specs.Stored.{stored};
ghost use Rattle.avc_params.specs.Tables.{is_id};

use avc_types::OutOfMemory;

/// Makes room for this id, and changes no set.
fn make_room<T: Drop>(sets: &mut Vec<Option<T>>, id: usize) -> Result<(), OutOfMemory>
    requires { id < 256 }
    ensures room { OnOk result (id < vec_len sets.new) }
    ensures same { (k : ℕ) → stored sets.new.items k ≡ stored sets.old.items k }
{
    while sets.len() <= id {
        sets.push(None)?;
    }
    Ok(())
}

/// Keeps the set under its id, in place of the one that is there.
pub(crate) fn put<T: Drop>(sets: &mut Vec<Option<T>>, id: u8, set: T) -> Result<(), OutOfMemory>
    ensures ok { OnOk result ((k : ℕ) → stored sets.new.items k
        ≡ (if is_id k (Some id) then Some set else stored sets.old.items k)) }
    ensures err { OnErr result ((k : ℕ) → stored sets.new.items k ≡ stored sets.old.items k) }
{
    let place = usize::from(id);
    make_room(sets, place)?;
    sets[place] = Some(set);
    Ok(())
}

/// Forgets the set of this id.
pub(crate) fn erase<T: Drop>(sets: &mut Vec<Option<T>>, id: Option<u8>)
    ensures { (k : ℕ) → stored sets.new.items k
        ≡ (if is_id k id then None else stored sets.old.items k) }
{
    if let Some(id) = id {
        let place = usize::from(id);
        if place < sets.len() {
            sets[place] = None;
        }
    }
}

/// The set of this id.
pub(crate) fn get<T>(sets: &Vec<Option<T>>, id: u8) -> Option<&T>
    ensures { option_copied result ≡ stored sets.now.items id }
{
    let place = usize::from(id);
    if place < sets.len() {
        sets[place].as_ref()
    } else {
        None
    }
}
