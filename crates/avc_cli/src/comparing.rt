//! The command `compare`, with the file that is compared.

ghost use Rattle.std.specs.Prelude.{◌≡◌};
ghost use Rattle.avc_cli.specs.Tasks.{comparison_of, EndsComparingFile, IsExplained, IsNotRead};

use crate::explaining::explain_difference;
use avc_compare::{Comparison, PictureSize, compare};
use avc_console::{Console, Ending, Names, RunFault, Watch, fail};
use avc_request::{Comparing, Request};
use avc_run::Output;
use avc_shell::{Input, OtherPictures, StatedSize, tell_reason};
use std::fs::File;
use std::io::{ErrorKind, Read, Write};

/// The exit status where something differs.
const DIFFERS: u8 = 1;

/// Compares the stream with the pictures of the other file.
pub fn compare_files<R: Read, W: Write, E: Write, V: Watch>(
    rt: &HostRuntime,
    request: &Request<'_>,
    comparing: Comparing,
    reader: &mut R,
    writer: &mut W,
    console: &mut Console<'_, E, V>,
) -> Ending
    ensures { EndsComparingFile console.old.names request.now.other console.old.is_explained
        comparing
        (R.remaining reader.old) (R.remaining reader.new) (W.contents writer.old)
        (W.contents writer.new)
        (E.contents console.old.errors) (E.contents console.new.errors) result }
{
    let name = request.other;
    match name {
        Some(file) => match File::open(rt, file) {
            Ok(file) => {
                let mut other = OtherPictures::new(Input::new(file));
                let ending = compare_with(rt, comparing, reader, &mut other, name, writer, console);
                tell_reason(rt, name, fault_of(&other));
                ending
            }
            Err(error) => {
                let ending = fail_to_read(name, console);
                tell_reason(rt, name, Some(error.kind()));
                ending
            }
        },
        None => {
            let mut other = OtherPictures::new(rt.stdin());
            compare_with(rt, comparing, reader, &mut other, name, writer, console)
        }
    }
}

// Tells more of the first difference, where that is wanted.
fn explain_if_wanted<W: Write, E: Write, V: Watch>(
    rt: &HostRuntime,
    is_wanted: bool,
    how: Comparison,
    name: Option<&str>,
    ending: Ending,
    writer: &mut W,
    console: &mut Console<'_, E, V>,
) -> Ending
    ensures { IsExplained is_wanted (W.contents writer.old) (W.contents writer.new)
        (E.contents console.old.errors)
        (E.contents console.new.errors) ending result }
{
    if !is_wanted || ending.status != DIFFERS {
        return ending;
    }
    match explain_difference(rt, how, console.names.input, name, writer) {
        Ok(()) => ending,
        Err(fault) => fail(fault, &console.names, &mut console.errors),
    }
}

// Compares the stream with these pictures, once their size was asked.
fn compare_with<R: Read, S: Read, W: Write, E: Write, V: Watch>(
    rt: &HostRuntime,
    comparing: Comparing,
    reader: &mut R,
    other: &mut OtherPictures<S>,
    name: Option<&str>,
    writer: &mut W,
    console: &mut Console<'_, E, V>,
) -> Ending
    ensures { EndsComparingFile console.old.names name.entry console.old.is_explained comparing
        (R.remaining reader.old) (R.remaining reader.new) (W.contents writer.old)
        (W.contents writer.new)
        (E.contents console.old.errors) (E.contents console.new.errors) result }
{
    let is_explained = console.is_explained;
    match other.size() {
        Ok(size) => {
            let how = comparison_of(comparing, picture_size(size));
            let ending = compare(rt.alloc(), how, reader, other, name, writer, console);
            explain_if_wanted(rt, is_explained, how, name, ending, writer, console)
        }
        Err(_) => fail_to_read(name, console),
    }
}

fn picture_size(size: Option<StatedSize>) -> Option<PictureSize> {
    match size {
        Some(StatedSize { width, height }) => Some(PictureSize { width, height }),
        None => None,
    }
}

// How pictures are compared where the other's have this size, if that is known.
fn comparison_of(comparing: Comparing, size: Option<PictureSize>) -> Comparison
    ensures { result ≡ comparison_of comparing size }
{
    Comparison {
        output: Output::Full,
        most: comparing.most,
        has_psnr: comparing.has_psnr,
        size,
    }
}

// Tells that the other's file can't be read.
fn fail_to_read<E: Write, V: Watch>(name: Option<&str>, console: &mut Console<'_, E, V>) -> Ending
    ensures { IsNotRead name.entry (E.contents console.old.errors) (E.contents console.new.errors)
        result }
{
    let names = Names {
        input: name,
        output: None,
    };
    fail(RunFault::Read, &names, &mut console.errors)
}

// Why the other's pictures could not be read, where they could not.
fn fault_of<R>(other: &OtherPictures<Input<R>>) -> Option<ErrorKind> {
    if other.is_invalid() {
        Some(ErrorKind::InvalidData)
    } else {
        other.reader().fault()
    }
}
