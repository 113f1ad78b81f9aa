//! From words to what is asked for.

ghost use Rattle.std.specs.Prelude.{◌≡◌, ◌↔◌, IsTrue};
ghost use Rattle.avc_request.specs.Commands.{form_by_name, mode_of, progress_of, task_of_all};
ghost use Rattle.avc_request.specs.Commands.{task_showing, wording_of, IsForm, IsNamed, IsWritten};
ghost use Rattle.avc_request.specs.Numberings.{IsFileNamed};

use crate::file_kind::{FileKind, file_kind};
use crate::grammar::{
    COEFFICIENTS, COMPARE, CUT, DECODE, EARLY, EXPLAIN, FORMAT, FRAME_MD5, FRAME_TIMES, FROM,
    HEADERS, I420, INFO, INPUT, JSON, LIMIT, MACROBLOCKS, MAX_DIFF, MD5, NULL, NUMBER, OTHER,
    OUTPUT, PICTURE, PIECES, PNG, PROGRESS, PSNR, QUIET, SKIP, STRICT, UNITS, VERIFY, Y4M, grammar,
};
use crate::numbered::{Naming, Numbered, naming_of};
use crate::request::{
    Comparing, Form, MacroblockChoice, Manner, Request, Showing, Subject, Task, Telling, Wording,
};
use avc_dpb::Output;
use clap::error::ErrorKind;
use clap::{ArgMatches, Command as Grammar, Error};
use hex::FromHex;
use std::alloc::{AllocError, Global};

/// The commands, which the first word names.
#[derive(Clone, Copy)]
enum Command {
    Decode,
    Units,
    Headers,
    Pieces,
    Macroblocks,
    Info,
    Cut,
    Compare,
    Picture,
}

/// Why words that the grammar takes name nothing to do.
#[derive(Clone, Copy)]
enum Misuse {
    /// There is no command.
    NoCommand,

    /// There is no command of that name.
    OtherCommand,

    /// What `--verify` has is no MD5.
    Digest,

    /// The output's name is that of a container, or of a picture, as no command writes.
    Container,

    /// The output's name has a `%` that stands for no number, or that of a picture where none are
    /// written.
    Numbering,

    /// Two files are to be the standard input.
    SameInput,
}

/// The limit where all pictures are wanted.
const NO_LIMIT: u64 = u64::MAX;

/// The word that names the standard input or output.
const STANDARD: &str = "-";

// The command of this name, if there is one.
fn command_named(name: &str) -> Option<Command>
    ensures { IsNamed name.now result }
{
    match name {
        DECODE => Some(Command::Decode),
        UNITS => Some(Command::Units),
        HEADERS => Some(Command::Headers),
        PIECES => Some(Command::Pieces),
        MACROBLOCKS => Some(Command::Macroblocks),
        INFO => Some(Command::Info),
        CUT => Some(Command::Cut),
        COMPARE => Some(Command::Compare),
        PICTURE => Some(Command::Picture),
        _ => None,
    }
}

// The mode of output, by whether `--early` is among the words.
fn mode_of(early: bool) -> Output
    ensures { result ≡ mode_of early }
{
    if early { Output::Early } else { Output::Full }
}

// The task of a command, if its words are there.
fn task_of(command: Command, matches: &ArgMatches<'_>, kind: FileKind) -> Option<Task> {
    match command {
        Command::Decode => showing_of(matches, kind).map(task_of_showing),
        Command::Units => Some(telling_of(Subject::Units, matches)),
        Command::Headers => Some(telling_of(Subject::Headers, matches)),
        Command::Pieces => Some(telling_of(Subject::Pieces, matches)),
        Command::Macroblocks => Some(telling_of(Subject::Macroblocks(choice_of(matches)), matches)),
        Command::Info => Some(telling_of(Subject::Info, matches)),
        Command::Cut => {
            let number = matches.get_one::<u32>(NUMBER)?;
            Some(Task::Cut(number))
        }
        Command::Compare => Some(Task::Compare(comparing_of(matches))),
        Command::Picture => {
            let number = matches.get_one::<u64>(NUMBER)?;
            Some(Task::Draw(number))
        }
    }
}

// The task of telling this.
fn telling_of(subject: Subject, matches: &ArgMatches<'_>) -> Task {
    Task::Tell(subject, wording_of(matches.get_flag(JSON)))
}

// How pictures are compared.
fn comparing_of(matches: &ArgMatches<'_>) -> Comparing {
    Comparing {
        most: matches.get_one::<u8>(MAX_DIFF).unwrap_or(0),
        has_psnr: matches.get_flag(PSNR),
    }
}

// Which macroblocks are told of, and what.
fn choice_of(matches: &ArgMatches<'_>) -> MacroblockChoice {
    MacroblockChoice {
        has_coefficients: matches.get_flag(COEFFICIENTS),
        picture: matches.get_one::<u64>(PICTURE),
    }
}

// The wording, by whether `--json` is among the words.
fn wording_of(json: bool) -> Wording
    ensures { result ≡ wording_of json }
{
    if json { Wording::Json } else { Wording::Plain }
}

// What is shown, if the words are there.
fn showing_of(matches: &ArgMatches<'_>, kind: FileKind) -> Option<Showing> {
    let form = match word(matches, VERIFY) {
        Some(digits) => Form::Verify(digest_of(digits)?),
        None => form_of(word(matches, FORMAT), kind),
    };
    Some(Showing {
        mode: mode_of(matches.get_flag(EARLY)),
        skip: matches.get_one::<u64>(SKIP).unwrap_or(0),
        limit: matches.get_one::<u64>(LIMIT).unwrap_or(NO_LIMIT),
        form,
    })
}

// The task of showing pictures. All of them have tasks of their own.
fn task_of_showing(showing: Showing) -> Task
    ensures { result ≡ task_showing showing }
{
    if showing.skip == 0 && showing.limit == NO_LIMIT {
        task_of_all(showing)
    } else {
        Task::Show(showing)
    }
}

// Where all are shown.
fn task_of_all(showing: Showing) -> Task
    ensures { result ≡ task_of_all showing showing.form }
{
    match showing.form {
        Form::I420 => Task::Decode(showing.mode),
        Form::Null => Task::Check(showing.mode),
        Form::Md5 | Form::Y4m | Form::FrameMd5 | Form::Png | Form::Verify(_) => {
            Task::Show(showing)
        }
    }
}

// The form of this name; where none is given, that which the name of the output asks for.
fn form_of(name: Option<&str>, kind: FileKind) -> Form {
    match name {
        Some(name) => form_named(name),
        None => form_by_name(kind),
    }
}

// The grammar takes no other name.
fn form_named(name: &str) -> Form
    ensures { IsForm name.now result }
{
    match name {
        NULL => Form::Null,
        MD5 => Form::Md5,
        Y4M => Form::Y4m,
        FRAME_MD5 => Form::FrameMd5,
        PNG => Form::Png,
        _ => Form::I420,
    }
}

// The form that the name of the output asks for.
fn form_by_name(kind: FileKind) -> Form
    ensures { result ≡ form_by_name kind }
{
    match kind {
        FileKind::Y4m => Form::Y4m,
        FileKind::Png => Form::Png,
        FileKind::Container | FileKind::Other => Form::I420,
    }
}

// The MD5 that 32 hex digits name.
fn digest_of(digits: &str) -> Option<[u8; 16]> {
    <[u8; 16] as FromHex>::from_hex(digits).ok()
}

// The word that was given for an option.
fn word<'a>(matches: &ArgMatches<'a>, id: &str) -> Option<&'a str> {
    let words = matches.get_raw(id)?;
    words.first().copied()
}

// The file that the word names, where it is not the standard input or output.
fn file_named<'a>(word: Option<&'a str>) -> Option<&'a str>
    ensures { IsFileNamed word.entry result }
{
    match word {
        Some(STANDARD) => None,
        _ => word,
    }
}

// Whether a command writes files of this kind.
fn is_written(command: Command, kind: FileKind) -> bool
    ensures { IsTrue result ↔ IsWritten command kind }
{
    match kind {
        FileKind::Container => false,
        FileKind::Png => matches!(command, Command::Decode | Command::Picture),
        FileKind::Y4m => !matches!(command, Command::Picture),
        FileKind::Other => true,
    }
}

// The request of a command, or why its words name none.
fn request_of<'a>(
    command: Command,
    matches: &ArgMatches<'a>,
    kind: FileKind,
) -> Result<Request<'a>, Misuse> {
    if !is_written(command, kind) {
        return Err(Misuse::Container);
    }
    let task = match task_of(command, matches, kind) {
        Some(task) => task,
        None => return Err(Misuse::Digest),
    };
    let output = output_word(command, matches);
    let numbered = numbered_of(command, &task, output)?;
    let input = file_named(word(matches, INPUT));
    let other = other_word(command, matches);
    if input.is_none() && other == Some(STANDARD) {
        return Err(Misuse::SameInput);
    }
    Ok(Request {
        task,
        input,
        other: file_named(other),
        output: file_named(output),
        numbered,
        is_standard_output_named: output == Some(STANDARD),
        from: start_of(command, matches),
        frame_times: times_word(command, matches),
        manner: manner_of(command, matches),
    })
}

// What stands for the output.
fn output_word<'a>(command: Command, matches: &ArgMatches<'a>) -> Option<&'a str> {
    match command {
        Command::Decode | Command::Cut | Command::Picture => word(matches, OUTPUT),
        Command::Units
        | Command::Headers
        | Command::Pieces
        | Command::Macroblocks
        | Command::Info
        | Command::Compare => None,
    }
}

// What stands for the file that is compared.
fn other_word<'a>(command: Command, matches: &ArgMatches<'a>) -> Option<&'a str> {
    match command {
        Command::Compare => word(matches, OTHER),
        Command::Decode
        | Command::Units
        | Command::Headers
        | Command::Pieces
        | Command::Macroblocks
        | Command::Info
        | Command::Cut
        | Command::Picture => None,
    }
}

// What the output's name stands for, where it is one file a picture.
fn numbered_of<'a>(
    command: Command,
    task: &Task,
    output: Option<&'a str>,
) -> Result<Option<Numbered<'a>>, Misuse> {
    match (command, output) {
        (Command::Decode, Some(name)) => match naming_of(name) {
            Naming::Plain => Ok(None),
            Naming::Numbered(numbered) if task.is_raw() => Ok(Some(numbered)),
            Naming::Numbered(_) | Naming::Wrong => Err(Misuse::Numbering),
        },
        _ => Ok(None),
    }
}

// With which piece decoding begins.
fn start_of(command: Command, matches: &ArgMatches<'_>) -> Option<u32> {
    match command {
        Command::Decode => matches.get_one::<u32>(FROM),
        Command::Units
        | Command::Headers
        | Command::Pieces
        | Command::Macroblocks
        | Command::Info
        | Command::Compare
        | Command::Cut
        | Command::Picture => None,
    }
}

// The file for times.
fn times_word<'a>(command: Command, matches: &ArgMatches<'a>) -> Option<&'a str> {
    match command {
        Command::Decode => word(matches, FRAME_TIMES),
        Command::Units
        | Command::Headers
        | Command::Pieces
        | Command::Macroblocks
        | Command::Info
        | Command::Compare
        | Command::Cut
        | Command::Picture => None,
    }
}

fn manner_of(command: Command, matches: &ArgMatches<'_>) -> Manner {
    match command {
        Command::Decode => Manner {
            progress: progress_of(matches.get_flag(PROGRESS), matches.get_flag(QUIET)),
            is_quiet: matches.get_flag(QUIET),
            is_strict: matches.get_flag(STRICT),
            is_explained: matches.get_flag(EXPLAIN),
        },
        Command::Compare => Manner {
            progress: Telling::Never,
            is_quiet: false,
            is_strict: false,
            is_explained: matches.get_flag(EXPLAIN),
        },
        Command::Units
        | Command::Headers
        | Command::Pieces
        | Command::Macroblocks
        | Command::Info
        | Command::Cut
        | Command::Picture => Manner {
            progress: Telling::Never,
            is_quiet: false,
            is_strict: false,
            is_explained: false,
        },
    }
}

// When progress is told, by whether `--progress` or `--quiet` is among the words.
fn progress_of(is_wanted: bool, is_quiet: bool) -> Telling
    ensures { result ≡ progress_of is_wanted is_quiet }
{
    match (is_wanted, is_quiet) {
        (_, true) => Telling::Never,
        (true, false) => Telling::Always,
        (false, false) => Telling::ToTerminals,
    }
}

/// Reads the words of the command line, of which the first is the program's name. What it does not
/// take, and a request for help, is an `Err` with the text to print.
pub fn requested(alloc: Global, words: &[String]) -> Result<Request<'_>, Error> {
    let mut command_line = grammar(alloc)?;
    requested_by(alloc, &mut command_line, words)
}

// What the words ask for, by this grammar.
fn requested_by<'a>(
    alloc: Global,
    command_line: &mut Grammar<'a>,
    words: &'a [String],
) -> Result<Request<'a>, Error> {
    let matches = command_line.try_get_matches_from_mut(words)?;
    match request_among(alloc, &matches)? {
        Ok(request) => Ok(request),
        Err(misuse) => Err(command_line.error(misuse_kind(misuse), misuse_text(misuse))?),
    }
}

// The request that the words are, or why they are none.
fn request_among<'a>(
    alloc: Global,
    matches: &ArgMatches<'a>,
) -> Result<Result<Request<'a>, Misuse>, AllocError> {
    let (name, words) = match matches.subcommand() {
        Some(found) => found,
        None => return Ok(Err(Misuse::NoCommand)),
    };
    match command_named(name) {
        Some(command) => {
            let kind = output_kind(alloc, output_word(command, words))?;
            Ok(request_of(command, words, kind))
        }
        None => Ok(Err(Misuse::OtherCommand)),
    }
}

// What the output is by its name, where it has one.
fn output_kind(alloc: Global, output: Option<&str>) -> Result<FileKind, AllocError> {
    match output {
        Some(name) => file_kind(alloc, name),
        None => Ok(FileKind::Other),
    }
}

fn misuse_kind(misuse: Misuse) -> ErrorKind {
    match misuse {
        Misuse::NoCommand => ErrorKind::MissingSubcommand,
        Misuse::OtherCommand => ErrorKind::InvalidSubcommand,
        Misuse::Digest | Misuse::Container | Misuse::Numbering | Misuse::SameInput => {
            ErrorKind::ValueValidation
        }
    }
}

fn misuse_text(misuse: Misuse) -> &'static str {
    match misuse {
        Misuse::NoCommand => "a command is missing",
        Misuse::OtherCommand => "there is no such command",
        Misuse::Digest => "--verify takes an MD5 of 32 hex digits",
        Misuse::Numbering => {
            concat!(
                "--output takes one %d in the name, or %01d to %09d, for one file a picture, ",
                "with the formats i420, y4m and png, and no other %"
            )
        }
        Misuse::SameInput => "OTHER and INPUT can't both be standard input",
        Misuse::Container => {
            concat!(
                "--output takes no container, nor a picture of another format: FILE.yuv, ",
                "FILE.y4m or FILE.png is written, FILE.png by picture, and FILE.264 by cut"
            )
        }
    }
}
