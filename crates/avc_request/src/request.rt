//! What is asked for.

ghost use Rattle.std.specs.Prelude.{◌≡◌};
ghost use Rattle.avc_request.specs.Commands.{is_raw, is_raw_form};

use crate::numbered::Numbered;
use avc_dpb::Output;

/// What the words of the command line ask for.
#[derive(Clone, Copy, PartialEq, Eq)]
pub struct Request<'a> {
    pub task: Task,

    /// The file that is read, where it is not the standard input.
    pub input: Option<&'a str>,

    /// The file whose pictures are compared, where it is not the standard input, if any are.
    pub other: Option<&'a str>,

    /// The file that is written, where it is not the standard output.
    pub output: Option<&'a str>,

    /// What the name of the file that is written stands for, where it is one file a picture.
    pub numbered: Option<Numbered<'a>>,

    /// Whether the standard output was named as the output: then it may be a terminal, whatever is
    /// written.
    pub is_standard_output_named: bool,

    /// The number of the piece with which decoding begins, from 0, where it is not the stream's
    /// beginning.
    pub from: Option<u32>,

    /// The file into which it is written how long each picture took; `-` for the standard error.
    pub frame_times: Option<&'a str>,

    pub manner: Manner,
}

/// How it is done, and what is told beside it.
#[derive(Clone, Copy, PartialEq, Eq)]
pub struct Manner {
    pub progress: Telling,

    /// Whether it is not told that whoever reads the output has left.
    pub is_quiet: bool,

    /// Whether a stream without a picture ends as one of which something is refused.
    pub is_strict: bool,

    /// Whether it is told what refusals mean, and what a stream without a picture is.
    pub is_explained: bool,
}

/// When a line says how far decoding is.
#[derive(Clone, Copy, PartialEq, Eq)]
pub enum Telling {
    Always,

    /// Where the standard error is a terminal.
    ToTerminals,

    Never,
}

/// What is done with a stream.
#[derive(Clone, Copy, PartialEq, Eq)]
pub enum Task {
    /// The pictures are written, each as soon as it goes out in this mode.
    Decode(Output),

    /// The pictures are decoded so, and not written.
    Check(Output),

    /// Some of the pictures are decoded so, and written or compared in another way.
    Show(Showing),

    /// This is told of the stream in this form, without decoding it.
    Tell(Subject, Wording),

    /// The piece of this number.
    Cut(u32),

    /// The picture of this number, in output order, from 0, as PNG.
    Draw(u64),

    /// The pictures are compared with another decoder's.
    Compare(Comparing),
}

impl Task {
    /// Whether what it writes is no text.
    pub fn is_raw(&self) -> bool
        ensures { result ≡ is_raw self.now }
    {
        match self {
            Task::Decode(_) | Task::Cut(_) | Task::Draw(_) => true,
            Task::Show(showing) => is_raw_form(&showing.form),
            Task::Check(_) | Task::Tell(..) | Task::Compare(_) => false,
        }
    }
}

/// How pictures are compared.
#[derive(Clone, Copy, PartialEq, Eq)]
pub struct Comparing {
    /// Samples that are at most so far apart are the same.
    pub most: u8,

    /// Whether a line tells how near each picture is.
    pub has_psnr: bool,
}

/// What is told of a stream.
#[derive(Clone, Copy, PartialEq, Eq)]
pub enum Subject {
    /// A line for each unit.
    Units,

    /// A line for each parameter set and slice.
    Headers,

    /// A line for each piece.
    Pieces,

    /// A line for each of these macroblocks.
    Macroblocks(MacroblockChoice),

    /// What the headers say of the stream.
    Info,
}

/// Which macroblocks are told of, and what.
#[derive(Clone, Copy, PartialEq, Eq)]
pub struct MacroblockChoice {
    /// With the levels of each block.
    pub has_coefficients: bool,

    /// The number of the picture whose macroblocks they are, in decoding order, from 0, where they
    /// are not all.
    pub picture: Option<u64>,
}

/// How it is told.
#[derive(Clone, Copy, PartialEq, Eq)]
pub enum Wording {
    /// In words and numbers, for people.
    Plain,

    /// In JSON, for programs.
    Json,
}

/// Which pictures, and what becomes of them.
#[derive(Clone, Copy, PartialEq, Eq)]
pub struct Showing {
    pub mode: Output,

    /// How many pictures are left out first.
    pub skip: u64,

    /// How many are decoded behind these at most.
    pub limit: u64,

    pub form: Form,
}

/// What becomes of pictures.
#[derive(Clone, Copy, PartialEq, Eq)]
pub enum Form {
    /// They are written as I420.
    I420,

    /// They are not written.
    Null,

    /// Their MD5 is written.
    Md5,

    /// They are written as YUV4MPEG2.
    Y4m,

    /// The MD5 of each picture is written, as framemd5 does.
    FrameMd5,

    /// They are written as PNG.
    Png,

    /// Their MD5 is compared with this one.
    Verify([u8; 16]),
}

// Whether what is written in this form is no text.
fn is_raw_form(form: &Form) -> bool
    ensures { result ≡ is_raw_form form.now }
{
    match form {
        Form::I420 | Form::Y4m | Form::Png => true,
        Form::Null | Form::Md5 | Form::FrameMd5 | Form::Verify(_) => false,
    }
}
