//! The words of the command line, as the system gives them.

use crate::grammar::grammar;
use clap::Error;
use clap::error::ErrorKind;
use std::alloc::{AllocError, Global};
use std::env::Env;
use std::{env, io, str};

/// The most bytes of a word that the system gives.
const LONGEST: usize = 131_072;

/// The words of the command line. Where one of them is no text that is an `Err` with the text to
/// print.
pub fn words_of(rt: &HostRuntime) -> Result<Vec<String>, Error> {
    let alloc = rt.alloc();
    match env::args(rt) {
        Ok(words) => Ok(words.collect(alloc)?),
        Err(error) if error.kind() == io::ErrorKind::OutOfMemory => Err(AllocError.into()),
        Err(_) => Err(no_text(rt)?),
    }
}

// The error that says which word is no text.
fn no_text(rt: &HostRuntime) -> Result<Error, AllocError> {
    let alloc = rt.alloc();
    let mut word = vec![in alloc; 0; LONGEST]?;
    for place in 1..usize::MAX {
        match rt.arg(place, &mut word) {
            Ok(len) if str::from_utf8(&word[..len]).is_err() => {
                return shown_word(alloc, place, &word[..len]);
            }
            Ok(_) => {}
            Err(_) => break,
        }
    }
    of_words(alloc, "a word is not UTF-8")
}

// The error that shows the word at this place.
fn shown_word(alloc: Global, place: usize, word: &[u8]) -> Result<Error, AllocError> {
    let shown = String::from_utf8_lossy(alloc, word)?;
    let message = format!(in alloc; "word {place} is not UTF-8: {shown}")?;
    of_words(alloc, &message)
}

// The error of words that the system gives, with this message.
fn of_words(alloc: Global, message: &str) -> Result<Error, AllocError> {
    let mut command_line = grammar(alloc)?;
    command_line.error(ErrorKind::InvalidValue, message)
}
