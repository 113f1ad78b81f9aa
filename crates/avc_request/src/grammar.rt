//! The words that the program takes, as clap reads them and shows them for help.

use clap::builder::ValueParser;
use clap::{Arg, ArgAction, Command as Grammar};
use std::alloc::{AllocError, Global};

pub(crate) const DECODE: &str = "decode";

pub(crate) const UNITS: &str = "units";

pub(crate) const HEADERS: &str = "headers";

pub(crate) const PIECES: &str = "pieces";

pub(crate) const MACROBLOCKS: &str = "macroblocks";

pub(crate) const INFO: &str = "info";

pub(crate) const CUT: &str = "cut";

// the command, and the option of macroblocks
pub(crate) const PICTURE: &str = "picture";

pub(crate) const COEFFICIENTS: &str = "coefficients";

pub(crate) const COMPARE: &str = "compare";

pub(crate) const EARLY: &str = "early";

pub(crate) const NUMBER: &str = "N";

pub(crate) const INPUT: &str = "INPUT";

pub(crate) const OTHER: &str = "OTHER";

pub(crate) const MAX_DIFF: &str = "max-diff";

pub(crate) const PSNR: &str = "psnr";

pub(crate) const OUTPUT: &str = "output";

pub(crate) const FORMAT: &str = "format";

pub(crate) const I420: &str = "i420";

pub(crate) const NULL: &str = "null";

pub(crate) const MD5: &str = "md5";

pub(crate) const Y4M: &str = "y4m";

pub(crate) const FRAME_MD5: &str = "framemd5";

pub(crate) const PNG: &str = "png";

const FORMATS: &[&str] = &[I420, Y4M, PNG, NULL, MD5, FRAME_MD5];

pub(crate) const VERIFY: &str = "verify";

pub(crate) const FROM: &str = "from";

pub(crate) const SKIP: &str = "skip";

pub(crate) const LIMIT: &str = "limit";

pub(crate) const FRAME_TIMES: &str = "frametimes";

pub(crate) const PROGRESS: &str = "progress";

pub(crate) const QUIET: &str = "quiet";

pub(crate) const STRICT: &str = "strict";

pub(crate) const EXPLAIN: &str = "explain";

pub(crate) const JSON: &str = "json";

const STATUSES: &str = concat!(
    "Exit status: 0 all well, 1 decode refused something, found another MD5 or, with --strict, no picture, ",
    "compare found a difference, or a stream has no such piece or picture, 2 wrong words, ",
    "3 reading or writing failed, 4 out of memory"
);

/// What stands for a word on the command line, and what it takes.
#[derive(Clone, Copy)]
enum Kind {
    /// An option without a value.
    Flag,

    /// An option with a number of pictures.
    Pictures,

    /// An option with the number of a piece.
    Start,

    /// An option with an MD5.
    Digest,

    /// An option with one of the formats.
    Format,

    /// An option with the file to write.
    Output,

    /// An option with another file to write.
    Times,

    /// The file to read, which may be left out.
    Input,

    /// The number of a piece.
    Piece,

    /// The number of a picture.
    Picture,

    /// An option with how far samples may be apart.
    Distance,

    /// The file that is compared.
    Other,
}

/// A word that a command takes.
struct Word {
    name: &'static str,
    short: Option<char>,
    kind: Kind,
    help: &'static str,

    /// The options that may not stand beside it.
    conflicts: &'static [&'static str],
}

/// A command, with the words that it takes.
struct CommandWords {
    name: &'static str,
    about: &'static str,
    example: &'static str,
    words: &'static [Word],
}

const INPUT_WORD: Word = Word {
    name: INPUT,
    short: None,
    kind: Kind::Input,
    help: "The file to read; standard input where none is named, and for -",
    conflicts: &[],
};

const OUTPUT_WORD: Word = Word {
    name: OUTPUT,
    short: Some('o'),
    kind: Kind::Output,
    help: concat!(
        "The file to write, which is emptied first; standard output where none is named, and ",
        "for -, which may be a terminal; by decode one file a picture, where %d, or %05d, ",
        "stands for its number"
    ),
    conflicts: &[],
};

const EXPLAIN_WORD: Word = Word {
    name: EXPLAIN,
    short: None,
    kind: Kind::Flag,
    help: concat!(
        "Tells on standard error what each refusal means, how many pictures and refusals there ",
        "are, and what a stream without a picture is"
    ),
    conflicts: &[],
};

const JSON_WORD: Word = Word {
    name: JSON,
    short: None,
    kind: Kind::Flag,
    help: "Prints each line as an object of JSON, for programs; info prints one object in all",
    conflicts: &[],
};

const COMMANDS: &[CommandWords] = &[
    CommandWords {
        name: DECODE,
        about: "Writes the decoded pictures as I420, cropped, in output order",
        example: concat!(
            "Example: avcdec decode in.264 -o out.yuv\n",
            "         avcdec decode --format framemd5 in.264 | diff - other.framemd5"
        ),
        words: &[
            Word {
                name: EARLY,
                short: None,
                kind: Kind::Flag,
                help: "Writes a picture as soon as the stream's reorder number lets it go out",
                conflicts: &[],
            },
            Word {
                name: FORMAT,
                short: Some('f'),
                kind: Kind::Format,
                help: concat!(
                    "How the pictures are written: i420 unless FILE ends in .y4m or .png, md5 ",
                    "writes their MD5 alone, framemd5 that of each, null nothing; png is for ",
                    "one file a picture"
                ),
                conflicts: &[],
            },
            Word {
                name: VERIFY,
                short: None,
                kind: Kind::Digest,
                help: concat!(
                    "Writes nothing; the status is 1 where the pictures have another MD5, in ",
                    "hex digits, or there are none"
                ),
                conflicts: &[FORMAT, OUTPUT],
            },
            Word {
                name: FROM,
                short: None,
                kind: Kind::Start,
                help: concat!(
                    "Begins with the piece of this number, from 0, as pieces lists them; what ",
                    "stands before it is not decoded"
                ),
                conflicts: &[],
            },
            Word {
                name: SKIP,
                short: Some('s'),
                kind: Kind::Pictures,
                help: "Leaves out the first N pictures",
                conflicts: &[],
            },
            Word {
                name: LIMIT,
                short: Some('l'),
                kind: Kind::Pictures,
                help: "Decodes until N pictures are out, those left out not counted",
                conflicts: &[],
            },
            Word {
                name: FRAME_TIMES,
                short: None,
                kind: Kind::Times,
                help: concat!(
                    "Writes a line for each picture to this file: the nanoseconds that it took; ",
                    "standard error for -"
                ),
                conflicts: &[],
            },
            Word {
                name: PROGRESS,
                short: None,
                kind: Kind::Flag,
                help: "Shows on standard error how far decoding is, also where that is no terminal",
                conflicts: &[QUIET],
            },
            Word {
                name: QUIET,
                short: Some('q'),
                kind: Kind::Flag,
                help: concat!(
                    "Shows no progress, and does not tell that whoever reads the output has ",
                    "left; refusals and other faults are told"
                ),
                conflicts: &[],
            },
            Word {
                name: STRICT,
                short: None,
                kind: Kind::Flag,
                help: "The status is 1 also where no picture was found",
                conflicts: &[],
            },
            Word {
                name: EXPLAIN,
                short: None,
                kind: Kind::Flag,
                help: concat!(
                    "Tells on standard error what each refusal means and loses, how many ",
                    "pictures, refusals and slices passed over there are, and what a stream ",
                    "without a picture is"
                ),
                conflicts: &[],
            },
            OUTPUT_WORD,
            INPUT_WORD,
        ],
    },
    CommandWords {
        name: UNITS,
        about: "Prints a line for each unit: INDEX OFFSET LENGTH TYPE REFIDC",
        example: "Example: avcdec units in.264 | head -3",
        words: &[JSON_WORD, INPUT_WORD],
    },
    CommandWords {
        name: HEADERS,
        about: "Prints a line for each parameter set and slice",
        example: concat!(
            "Example: avcdec headers in.264 | grep sps\n",
            "         avcdec headers --json in.264 | jq 'select(.kind == \"slice\").SliceQPY'"
        ),
        words: &[JSON_WORD, INPUT_WORD],
    },
    CommandWords {
        name: PIECES,
        about: concat!(
            "Prints a line for each piece that cut can write: N INDEX OFFSET, of the unit with ",
            "which it begins, and how many pictures it has"
        ),
        example: "Example: avcdec pieces in.264 | tail -1",
        words: &[JSON_WORD, INPUT_WORD],
    },
    CommandWords {
        name: MACROBLOCKS,
        about: concat!(
            "Prints a line for each macroblock as it is read, without decoding: INDEX slice N ",
            "mb ADDRESS, its type, QP and syntax elements; faults that only decoding finds are ",
            "not seen"
        ),
        example: concat!(
            "Example: avcdec macroblocks in.264 | grep -c P_Skip\n",
            "         avcdec macroblocks --json in.264 | jq 'select(.mb_type == \"P_8x8\").mvd_l0'"
        ),
        words: &[
            Word {
                name: COEFFICIENTS,
                short: None,
                kind: Kind::Flag,
                help: "Tells the levels of each block too",
                conflicts: &[],
            },
            Word {
                name: PICTURE,
                short: None,
                kind: Kind::Pictures,
                help: "Tells of the picture of this number alone, from 0, in decoding order",
                conflicts: &[],
            },
            JSON_WORD,
            INPUT_WORD,
        ],
    },
    CommandWords {
        name: INFO,
        about: concat!(
            "Prints the size, profile, level and frame rate, and counts of pictures and slices, ",
            "without decoding"
        ),
        example: "Example: avcdec info in.264",
        words: &[JSON_WORD, INPUT_WORD],
    },
    CommandWords {
        name: COMPARE,
        about: concat!(
            "Says where the pictures of another decoder, as I420 or Y4M, differ first; nothing ",
            "where they are the same"
        ),
        example: "Example: avcdec compare other.yuv in.264",
        words: &[
            Word {
                name: MAX_DIFF,
                short: None,
                kind: Kind::Distance,
                help: "Samples that are at most N apart do not differ",
                conflicts: &[],
            },
            Word {
                name: PSNR,
                short: None,
                kind: Kind::Flag,
                help: "Tells of each picture that is compared the PSNR of luma, Cb and Cr, in decibels",
                conflicts: &[],
            },
            EXPLAIN_WORD,
            Word {
                name: OTHER,
                short: None,
                kind: Kind::Other,
                help: "The file with the other decoder's pictures; - is standard input",
                conflicts: &[],
            },
            INPUT_WORD,
        ],
    },
    CommandWords {
        name: PICTURE,
        about: "Writes one picture as PNG, to look at",
        example: "Example: avcdec picture 7 in.264 -o out.png",
        words: &[
            Word {
                name: NUMBER,
                short: None,
                kind: Kind::Picture,
                help: "The number of the picture, from 0, in output order",
                conflicts: &[],
            },
            OUTPUT_WORD,
            INPUT_WORD,
        ],
    },
    CommandWords {
        name: CUT,
        about: "Writes one of the pieces that can be decoded by themselves, each from an IDR picture on",
        example: "Example: avcdec cut 2 in.264 | avcdec decode -o piece.yuv",
        words: &[
            Word {
                name: NUMBER,
                short: None,
                kind: Kind::Piece,
                help: "The number of the piece, from 0",
                conflicts: &[],
            },
            OUTPUT_WORD,
            INPUT_WORD,
        ],
    },
];

/// What words the program takes.
pub(crate) fn grammar<'a>(alloc: Global) -> Result<Grammar<'a>, AllocError> {
    let program = Grammar::new(alloc, "avcdec")
        .version("0.2.0")
        .about("Reads an H.264 byte stream (Annex B)")
        .after_help(STATUSES)
        .subcommand_required(true);
    with_commands(alloc, program, commands())
}

fn commands() -> &'static [CommandWords] {
    COMMANDS
}

// The program by its name, with these commands.
fn with_commands<'a>(
    alloc: Global,
    mut program: Grammar<'a>,
    commands: &[CommandWords],
) -> Result<Grammar<'a>, AllocError> {
    for command in commands {
        program = program.subcommand(command_of(alloc, command)?)?;
    }
    program.bin_name("avcdec")
}

fn command_of<'a>(alloc: Global, command: &CommandWords) -> Result<Grammar<'a>, AllocError> {
    let mut grammar = Grammar::new(alloc, command.name)
        .about(command.about)
        .after_help(command.example);
    for word in command.words {
        grammar = grammar.arg(arg_of(alloc, word)?)?;
    }
    Ok(grammar)
}

fn arg_of<'a>(alloc: Global, word: &Word) -> Result<Arg<'a>, AllocError> {
    let mut arg = Arg::new(alloc, word.name)
        .help(word.help)
        .required(is_required(word.kind))
        .action(action_of(word.kind));
    if has_dashes(word.kind) {
        arg = arg.long(word.name);
    }
    if let Some(letter) = word.short {
        arg = arg.short(letter);
    }
    if let Some(name) = value_name(word.kind) {
        arg = arg.value_name(name);
    }
    if let Some(parser) = parser_of(word.kind) {
        arg = arg.value_parser(parser);
    }
    arg.conflicts_with_all(word.conflicts)
}

// Whether it may not be left out.
fn is_required(kind: Kind) -> bool {
    matches!(kind, Kind::Piece | Kind::Picture | Kind::Other)
}

// Whether it is an option, whose name stands on the command line.
fn has_dashes(kind: Kind) -> bool {
    !is_required(kind) && !matches!(kind, Kind::Input)
}

fn action_of(kind: Kind) -> ArgAction {
    match kind {
        Kind::Flag => ArgAction::SetTrue,
        _ => ArgAction::Set,
    }
}

// What help calls the value of an option.
fn value_name(kind: Kind) -> Option<&'static str> {
    match kind {
        Kind::Pictures | Kind::Start | Kind::Distance => Some(NUMBER),
        Kind::Digest => Some("MD5"),
        Kind::Format => Some("format"),
        Kind::Output | Kind::Times => Some("FILE"),
        Kind::Flag | Kind::Input | Kind::Piece | Kind::Picture | Kind::Other => None,
    }
}

// How its value is read, where it is not taken as it is.
fn parser_of<'a>(kind: Kind) -> Option<ValueParser<'a>> {
    match kind {
        Kind::Pictures | Kind::Picture => Some(clap::value_parser!(u64)),
        Kind::Start | Kind::Piece => Some(clap::value_parser!(u32)),
        Kind::Distance => Some(clap::value_parser!(u8)),
        Kind::Format => Some(ValueParser::from(FORMATS)),
        Kind::Flag | Kind::Digest | Kind::Output | Kind::Times | Kind::Input | Kind::Other => None,
    }
}
