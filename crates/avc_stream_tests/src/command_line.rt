//! Tests of what words of the command line ask for.

// What no contract says: what the words of the command line mean. Where an allocation is refused
// (`rt try --test --fail-alloc N`), a test ends in that error, and not at an assertion.
use avc_request::{
    Comparing, Form, MacroblockChoice, Manner, Request, Showing, Subject, Task, Telling, Wording,
    requested,
};
use avc_run::Output;
use clap::error::ErrorKind;
use std::alloc::{AllocError, Global};
use std::test::Fail;

fn add_words(alloc: Global, line: &str, words: &mut Vec<String>) -> Result<(), AllocError> {
    for word in line.split_whitespace() {
        words.push(String::from_str(alloc, word)?)?;
    }
    Ok(())
}

// How the words are taken: a request, or an error of this kind with this exit status.
fn taken(
    alloc: Global,
    line: &str,
    wanted: Result<Request<'_>, (ErrorKind, i32)>,
) -> Result<bool, clap::Error> {
    let mut words = Vec::new(alloc);
    add_words(alloc, line, &mut words)?;
    match requested(alloc, &words) {
        Err(error) if error.kind() == ErrorKind::OutOfMemory => Err(error),
        Err(error) => Ok(wanted == Err((error.kind(), error.exit_code()))),
        Ok(request) => Ok(wanted == Ok(request)),
    }
}

// When a line says how far this task is, where no word says it.
fn usual_progress(task: Task) -> Telling {
    match task {
        Task::Decode(_) | Task::Check(_) | Task::Show(_) => Telling::ToTerminals,
        _ => Telling::Never,
    }
}

// From standard input to standard output, where no word says how.
fn plain(task: Task) -> Request<'static> {
    Request {
        task,
        input: None,
        other: None,
        output: None,
        is_standard_output_named: false,
        numbered: None,
        from: None,
        frame_times: None,
        manner: Manner {
            progress: usual_progress(task),
            is_quiet: false,
            is_strict: false,
            is_explained: false,
        },
    }
}

const FULL: Task = Task::Decode(Output::Full);

const Y4M: Task = Task::Show(Showing {
    mode: Output::Full,
    skip: 0,
    limit: u64::MAX,
    form: Form::Y4m,
});

const PNG: Task = Task::Show(Showing {
    mode: Output::Full,
    skip: 0,
    limit: u64::MAX,
    form: Form::Png,
});

// Words that name no file, and what they ask for.
const WITHOUT_FILES: &[(&str, Task)] = &[
    ("avcdec decode", FULL),
    ("avcdec decode --early", Task::Decode(Output::Early)),
    ("avcdec decode --format i420", FULL),
    ("avcdec decode --format null", Task::Check(Output::Full)),
    ("avcdec decode --format y4m", Y4M),
    ("avcdec decode --format png", PNG),
    ("avcdec units", Task::Tell(Subject::Units, Wording::Plain)),
    (
        "avcdec units --json",
        Task::Tell(Subject::Units, Wording::Json),
    ),
    (
        "avcdec headers --json",
        Task::Tell(Subject::Headers, Wording::Json),
    ),
    ("avcdec pieces", Task::Tell(Subject::Pieces, Wording::Plain)),
    (
        "avcdec pieces --json",
        Task::Tell(Subject::Pieces, Wording::Json),
    ),
    ("avcdec info", Task::Tell(Subject::Info, Wording::Plain)),
    (
        "avcdec info --json",
        Task::Tell(Subject::Info, Wording::Json),
    ),
    ("avcdec cut 4294967295", Task::Cut(4_294_967_295)),
];

#[test]
fn takes_words(rt: HostRuntime) -> Result<(), Fail> {
    for case in WITHOUT_FILES {
        let (line, task) = *case;
        assert!(rt; taken(rt.alloc(), line, Ok(plain(task)))?, "{line}");
    }
    Ok(())
}

// Words that choose pictures or their form: the mode, how many are left out, how many are decoded,
// and the form.
const CHOSEN: &[(&str, Output, u64, u64, Form)] = &[
    (
        "avcdec decode --skip 1 --limit 2 --early",
        Output::Early,
        1,
        2,
        Form::I420,
    ),
    (
        "avcdec decode --format null --limit 2",
        Output::Full,
        0,
        2,
        Form::Null,
    ),
    (
        "avcdec decode --format md5",
        Output::Full,
        0,
        u64::MAX,
        Form::Md5,
    ),
    (
        "avcdec decode --format framemd5",
        Output::Full,
        0,
        u64::MAX,
        Form::FrameMd5,
    ),
    (
        "avcdec decode --verify 000102030405060708090a0b0c0d0e0F",
        Output::Full,
        0,
        u64::MAX,
        Form::Verify([0, 1, 2, 3, 4, 5, 6, 7, 8, 9, 10, 11, 12, 13, 14, 15]),
    ),
    (
        "avcdec decode -s 1 -l 2 -f null",
        Output::Full,
        1,
        2,
        Form::Null,
    ),
    (
        "avcdec decode --early -f md5",
        Output::Early,
        0,
        u64::MAX,
        Form::Md5,
    ),
];

#[test]
fn takes_choices_of_pictures(rt: HostRuntime) -> Result<(), Fail> {
    for case in CHOSEN {
        let (line, mode, skip, limit, form) = *case;
        let task = Task::Show(Showing {
            mode,
            skip,
            limit,
            form,
        });
        assert!(rt; taken(rt.alloc(), line, Ok(plain(task)))?, "{line}");
    }
    Ok(())
}

// Which macroblocks are told of: with their levels or without, and of which picture.
const OF_MACROBLOCKS: &[(&str, bool, Option<u64>, Wording)] = &[
    (
        "avcdec macroblocks --picture 3 --coefficients --json",
        true,
        Some(3),
        Wording::Json,
    ),
    ("avcdec macroblocks", false, None, Wording::Plain),
];

#[test]
fn takes_choices_of_macroblocks(rt: HostRuntime) -> Result<(), Fail> {
    for case in OF_MACROBLOCKS {
        let (line, has_coefficients, picture, wording) = *case;
        let choice = MacroblockChoice {
            has_coefficients,
            picture,
        };
        let task = Task::Tell(Subject::Macroblocks(choice), wording);
        assert!(rt; taken(rt.alloc(), line, Ok(plain(task)))?, "{line}");
    }
    Ok(())
}

// Words that name files: that which is read, and that which is written.
const WITH_FILES: &[(&str, Task, Option<&str>, Option<&str>)] = &[
    (
        "avcdec decode in.264 -o out.yuv",
        FULL,
        Some("in.264"),
        Some("out.yuv"),
    ),
    ("avcdec decode -o out.y4m", Y4M, None, Some("out.y4m")),
    ("avcdec decode -o OUT.Y4M", Y4M, None, Some("OUT.Y4M")),
    (
        "avcdec decode in.mp4 -o out.mp4.yuv",
        FULL,
        Some("in.mp4"),
        Some("out.mp4.yuv"),
    ),
    (
        "avcdec decode --format i420 -o out.y4m",
        FULL,
        None,
        Some("out.y4m"),
    ),
    ("avcdec decode -o out.PNG", PNG, None, Some("out.PNG")),
    (
        "avcdec picture 7 in.264 -o out.png",
        Task::Draw(7),
        Some("in.264"),
        Some("out.png"),
    ),
    (
        "avcdec headers in.264",
        Task::Tell(Subject::Headers, Wording::Plain),
        Some("in.264"),
        None,
    ),
    (
        "avcdec cut 0 --output piece.264 in.264",
        Task::Cut(0),
        Some("in.264"),
        Some("piece.264"),
    ),
];

#[test]
fn takes_files(rt: HostRuntime) -> Result<(), Fail> {
    for case in WITH_FILES {
        let (line, task, input, output) = *case;
        let mut request = plain(task);
        request.input = input;
        request.output = output;
        assert!(rt; taken(rt.alloc(), line, Ok(request))?, "{line}");
    }
    Ok(())
}

// Words that name the standard output.
const TO_STANDARD_OUTPUT: &[(&str, Task)] = &[
    ("avcdec decode - -o -", FULL),
    ("avcdec cut 0 -o -", Task::Cut(0)),
];

#[test]
fn takes_standard_output(rt: HostRuntime) -> Result<(), Fail> {
    for case in TO_STANDARD_OUTPUT {
        let (line, task) = *case;
        let mut request = plain(task);
        request.is_standard_output_named = true;
        assert!(rt; taken(rt.alloc(), line, Ok(request))?, "{line}");
    }
    Ok(())
}

// Words of a comparison: how far samples may lie apart, whether it is told how near pictures are,
// and the files, the other's first.
const COMPARED: &[(&str, u8, bool, Option<&str>, Option<&str>)] = &[
    (
        "avcdec compare a.yuv in.264",
        0,
        false,
        Some("a.yuv"),
        Some("in.264"),
    ),
    (
        "avcdec compare --max-diff 3 - in.264",
        3,
        false,
        None,
        Some("in.264"),
    ),
    ("avcdec compare a.yuv", 0, false, Some("a.yuv"), None),
    (
        "avcdec compare --psnr a.yuv in.264",
        0,
        true,
        Some("a.yuv"),
        Some("in.264"),
    ),
];

#[test]
fn takes_comparisons(rt: HostRuntime) -> Result<(), Fail> {
    for case in COMPARED {
        let (line, most, has_psnr, other, input) = *case;
        let mut request = plain(Task::Compare(Comparing { most, has_psnr }));
        request.other = other;
        request.input = input;
        assert!(rt; taken(rt.alloc(), line, Ok(request))?, "{line}");
    }
    Ok(())
}

// Words on how decoding is done: when a line tells how far it is, and whether it is quiet, strict
// and explained.
const IN_A_MANNER: &[(&str, Telling, bool, bool, bool)] = &[
    (
        "avcdec decode --progress",
        Telling::Always,
        false,
        false,
        false,
    ),
    ("avcdec decode --quiet", Telling::Never, true, false, false),
    ("avcdec decode -q", Telling::Never, true, false, false),
    (
        "avcdec decode --strict",
        Telling::ToTerminals,
        false,
        true,
        false,
    ),
    (
        "avcdec decode --explain",
        Telling::ToTerminals,
        false,
        false,
        true,
    ),
];

#[test]
fn takes_manners(rt: HostRuntime) -> Result<(), Fail> {
    for case in IN_A_MANNER {
        let (line, progress, is_quiet, is_strict, is_explained) = *case;
        let mut request = plain(FULL);
        request.manner = Manner {
            progress,
            is_quiet,
            is_strict,
            is_explained,
        };
        assert!(rt; taken(rt.alloc(), line, Ok(request))?, "{line}");
    }
    Ok(())
}

// Words that ask for nothing, of what kind the error is, and with which status the program ends.
const NOT_ASKING: &[(&str, ErrorKind, i32)] = &[
    ("avcdec decode -o out.mp4", ErrorKind::ValueValidation, 2),
    (
        "avcdec decode --format y4m -o out.MKV",
        ErrorKind::ValueValidation,
        2,
    ),
    ("avcdec cut 0 -o piece.ts", ErrorKind::ValueValidation, 2),
    (
        "avcdec decode --verify 000102030405060708090a0b0c0d0e",
        ErrorKind::ValueValidation,
        2,
    ),
    (
        "avcdec decode --verify 000102030405060708090a0b0c0d0e0F -o out",
        ErrorKind::ArgumentConflict,
        2,
    ),
    (
        "avcdec decode --verify 000102030405060708090a0b0c0d0e0F --format null",
        ErrorKind::ArgumentConflict,
        2,
    ),
    ("avcdec decode --skip -1", ErrorKind::UnknownArgument, 2),
    ("avcdec units --limit 2", ErrorKind::UnknownArgument, 2),
    ("avcdec cut 0 -o piece.png", ErrorKind::ValueValidation, 2),
    ("avcdec decode --format jpeg", ErrorKind::InvalidValue, 2),
    ("avcdec units --early", ErrorKind::UnknownArgument, 2),
    ("avcdec picture 7 -o out.y4m", ErrorKind::ValueValidation, 2),
    ("avcdec picture", ErrorKind::MissingRequiredArgument, 2),
    ("avcdec compare -", ErrorKind::ValueValidation, 2),
    (
        "avcdec compare --max-diff 256 a.yuv in.264",
        ErrorKind::ValueValidation,
        2,
    ),
    ("avcdec compare", ErrorKind::MissingRequiredArgument, 2),
    ("avcdec decode --json", ErrorKind::UnknownArgument, 2),
    ("avcdec cut 0 --json", ErrorKind::UnknownArgument, 2),
    ("avcdec info --strict", ErrorKind::UnknownArgument, 2),
    ("avcdec units --explain", ErrorKind::UnknownArgument, 2),
    (
        "avcdec decode --quiet --progress",
        ErrorKind::ArgumentConflict,
        2,
    ),
    ("avcdec cut 0 --quiet", ErrorKind::UnknownArgument, 2),
    ("avcdec cut 4294967296", ErrorKind::ValueValidation, 2),
    ("avcdec cut", ErrorKind::MissingRequiredArgument, 2),
    ("avcdec --help", ErrorKind::DisplayHelp, 0),
    ("avcdec --version", ErrorKind::DisplayVersion, 0),
    ("avcdec help units", ErrorKind::DisplayHelp, 0),
    ("avcdec", ErrorKind::MissingSubcommand, 2),
    ("avcdec unit", ErrorKind::InvalidSubcommand, 2),
    ("avcdec units in more", ErrorKind::UnknownArgument, 2),
];

#[test]
fn takes_no_other_words(rt: HostRuntime) -> Result<(), Fail> {
    for case in NOT_ASKING {
        let (line, kind, status) = *case;
        assert!(rt; taken(rt.alloc(), line, Err((kind, status)))?, "{line}");
    }
    Ok(())
}
