//! Lines behind those that were told before, as long as all of them were taken.

ghost use Rattle.avc_console.specs.Messages.{loss_text, refusal_text};
ghost use Rattle.avc_console.specs.Telling.{Tells, TellsMore};

use crate::messages::{refusal_line, write_all};
use avc_explain::{explained_line, waits_line};
use avc_types::Fault;
use std::io::Write;

/// Tells of a refusal behind what was told before, where all of that was taken: by its line, and by
/// one that says what it means where that is wanted. Answers whether all was taken. It asks for no
/// memory.
pub(crate) fn tell_refusal<E: Write>(
    is_told: bool,
    is_explained: bool,
    unit: u64,
    fault: Fault,
    errors: &mut E,
) -> bool
    ensures { TellsMore is_told (E.contents errors.old) (E.contents errors.new)
        (refusal_text is_explained (unit, fault)) result }
{
    let told = tell_more(
        is_told,
        refusal_line(unit, fault).as_str().as_bytes(),
        errors,
    );
    if is_explained {
        tell_more(
            told,
            explained_line(unit, fault).as_str().as_bytes(),
            errors,
        )
    } else {
        told
    }
}

/// Tells behind the refusal of a unit that decoding waits from there on, where it does. Answers
/// whether all was taken. It asks for no memory.
pub fn tell_loss<E: Write>(unit: u64, waits: bool, errors: &mut E) -> bool
    ensures { Tells (E.contents errors.old) (E.contents errors.new) (loss_text unit waits) result }
{
    if waits {
        write_what_is_taken(waits_line(unit).as_str().as_bytes(), errors)
    } else {
        write_what_is_taken(&[], errors)
    }
}

/// Tells a text behind what was told before, where all of that was taken. Answers whether all was
/// taken.
pub fn tell_more<E: Write>(is_told: bool, text: &[u8], errors: &mut E) -> bool
    ensures { TellsMore is_told (E.contents errors.old) (E.contents errors.new) text.now result }
{
    if is_told {
        write_what_is_taken(text, errors)
    } else {
        false
    }
}

/// Writes a text, and answers whether all of it was taken.
pub(crate) fn write_what_is_taken<E: Write>(text: &[u8], errors: &mut E) -> bool
    ensures { Tells (E.contents errors.old) (E.contents errors.new) text.now result }
{
    match write_all(text, errors) {
        Ok(()) => true,
        Err(_) => false,
    }
}
