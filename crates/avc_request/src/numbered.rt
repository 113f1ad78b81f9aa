//! A name that stands for one file a picture.

ghost use Rattle.std.specs.Prelude.{◌≡◌, ◌++◌, IfOk, OnOk, replicate, string_bytes};
ghost use Rattle.avc_request.specs.Numberings.{file_name, IsNaming, IsNumbering, IsWidth};

use std::alloc::{AllocError, Global};

/// A name that stands for one file a picture: its number stands between two parts.
#[derive(Clone, Copy, PartialEq, Eq)]
pub struct Numbered<'a> {
    pub front: &'a str,

    /// How many digits the number has at least, with zeros in front of it.
    pub digits: u8,

    pub rest: &'a str,
}

impl Numbered<'_> {
    /// The name of the file for the picture of this number.
    pub fn file_name(&self, alloc: Global, number: u64) -> Result<String, AllocError>
        ensures { IfOk result (λ name. string_bytes name ≡ file_name self.now number) }
    {
        let shown = format!(in alloc; "{number}")?;
        let mut name = String::from_str(alloc, self.front)?;
        add_zeros(
            &mut name,
            usize::from(self.digits).saturating_sub(shown.len()),
        )?;
        name.push_str(&shown)?;
        name.push_str(self.rest)?;
        Ok(name)
    }
}

fn add_zeros(name: &mut String, count: usize) -> Result<(), AllocError>
    ensures { OnOk result (string_bytes name.new ≡ string_bytes name.old ++ replicate count 48) }
{
    'zeros: for zero in 0..count {
        name.push_str("0")?;
    }
    Ok(())
}

/// What a name stands for.
#[derive(Clone, Copy)]
pub(crate) enum Naming<'a> {
    /// One file.
    Plain,

    /// One file a picture.
    Numbered(Numbered<'a>),

    /// Nothing: what follows a `%` in it is neither `d` nor a `0`, a digit from 1 to 9 and `d`, or
    /// there are two.
    Wrong,
}

pub(crate) fn naming_of(name: &str) -> Naming<'_>
    ensures { IsNaming name.now result }
{
    match name.split_once('%') {
        Some((front, behind)) => numbering_of(front, behind),
        None => Naming::Plain,
    }
}

// By what stands in front of the first `%` and behind it.
fn numbering_of<'a>(front: &'a str, behind: &'a str) -> Naming<'a>
    ensures { IsNumbering front.now behind.now result }
{
    match behind.split_once('d') {
        Some((word, rest)) => match width_of(word) {
            Some(digits) if !rest.contains('%') => Naming::Numbered(Numbered {
                front,
                digits,
                rest,
            }),
            _ => Naming::Wrong,
        },
        None => Naming::Wrong,
    }
}

// How many digits there are at least, by what stands between `%` and `d`.
fn width_of(word: &str) -> Option<u8>
    ensures { IsWidth word.now result }
{
    match word {
        "" => Some(0),
        "01" => Some(1),
        "02" => Some(2),
        "03" => Some(3),
        "04" => Some(4),
        "05" => Some(5),
        "06" => Some(6),
        "07" => Some(7),
        "08" => Some(8),
        "09" => Some(9),
        _ => None,
    }
}
