//! The line that says how far decoding is.

ghost use Rattle.std.specs.Prelude.{◌≡◌, ◌<◌, ◌++◌, false, None, IfOk, IfSome, OnOk, string_bytes};
ghost use Rattle.std.specs.Option.{option_map};
ghost use Rattle.avc_progress.specs.Progress.{clock_text, counts_text, left_text, place_by};
ghost use Rattle.avc_progress.specs.Progress.{place_text, progress_line, speed_text};
ghost use Rattle.avc_progress.specs.Progress.{place_after, tenths_text, times_by, times_text};
ghost use Rattle.avc_progress.specs.Progress.{IsLast};
ghost use Rattle.avc_progress.specs.Progress.{IsFirst, IsReadOn};
ghost use Rattle.avc_progress.specs.Rates.{Looks};

use crate::progress_state::ProgressState;
use avc_console::Counts;
use std::alloc::{AllocError, Global};
use std::cell::Cell;
use std::time::Instant;

/// How far reading is.
#[derive(Clone, Copy)]
pub struct BytesRead {
    /// How many bytes were read.
    pub read: u64,

    /// How many there are, where that is known.
    pub size: Option<u64>,
}

/// A line on the standard error that says how far decoding is, rewritten as that goes on, where it
/// is wanted.
#[derive(Drop)]
pub struct Progress<'a> {
    meter: Option<Meter<'a>>,
}

impl Progress<'_> {
    /// No line where it is not wanted, nor where the system has no clock. The input has so many
    /// bytes, where that is known, and it is noted whether a line stands.
    pub fn new<'a>(
        rt: &'a HostRuntime,
        is_wanted: bool,
        size: Option<u64>,
        stands: &'a Cell<bool>,
    ) -> Progress<'a>
        ensures unwanted { is_wanted ≡ false → result.meter ≡ None }
        ensures first { IfSome result.meter (λ m. IsFirst size m.state) }
    {
        let meter = if is_wanted {
            Meter::new(rt, size, stands)
        } else {
            None
        };
        Progress { meter }
    }

    /// After each read: the bytes that it gave, and what the stream has come to.
    pub fn look(&mut self, piece: &[u8], counts: Counts)
        ensures { IsReadOn piece.now counts (option_map (λ m. m.state) self.old.meter)
            (option_map (λ m. m.state) self.new.meter) }
    {
        match &mut self.meter {
            Some(meter) => meter.look(piece, counts),
            None => {}
        }
    }

    /// At the end of the run: what the stream has come to.
    pub fn end(&mut self, counts: Counts)
        ensures { IsLast counts (option_map (λ m. m.state) self.old.meter)
            (option_map (λ m. m.state) self.new.meter) }
    {
        match &mut self.meter {
            Some(meter) => meter.end(counts),
            None => {}
        }
    }
}

// The line, and what is to stand in it.
#[derive(Drop)]
struct Meter<'a> {
    rt: &'a HostRuntime,
    start: Instant,
    state: ProgressState,

    /// Whether the line stands, and is not ended.
    stands: &'a Cell<bool>,
}

impl Meter<'_> {
    fn new<'a>(rt: &'a HostRuntime, size: Option<u64>, stands: &'a Cell<bool>) -> Option<Meter<'a>>
        ensures { IfSome result (λ m. IsFirst size m.state) }
    {
        let start = Instant::now(rt).ok()?;
        Some(Meter {
            rt,
            start,
            state: ProgressState::new(rt.alloc(), size),
            stands,
        })
    }

    fn look(&mut self, piece: &[u8], counts: Counts)
        ensures counts { self.new.state.counts ≡ counts }
        ensures place { self.new.state.place ≡ place_after self.old.state.place piece.now }
        ensures rate { Looks self.old.state.rate.searched piece.now self.old.state.rate
            self.new.state.rate }
    {
        self.state.note_read(piece, counts);
        self.tell_if_due();
    }

    // Where the system has no clock, memory or the standard error fails, there is no line.
    fn tell_if_due(&mut self)
        ensures { self.new.state ≡ record self.old.state { told_at = self.new.state.told_at } }
    {
        let Ok(elapsed) = self.start.elapsed(self.rt) else {
            return;
        };
        if !self.state.is_line_due(elapsed) {
            return;
        }
        self.stands.set(true);
        let _ = self
            .state
            .tell(self.rt.alloc(), elapsed, &mut self.rt.stderr());
    }

    // The last line stays.
    fn end(&mut self, counts: Counts)
        ensures counts { self.new.state.counts ≡ counts }
        ensures place { self.new.state.place ≡ self.old.state.place }
        ensures rate { self.new.state.rate ≡ self.old.state.rate }
    {
        self.state.note_end(counts);
        let Ok(elapsed) = self.start.elapsed(self.rt) else {
            return;
        };
        self.stands.set(false);
        let _ = self
            .state
            .tell_last(self.rt.alloc(), elapsed, &mut self.rt.stderr());
    }
}

/// The line after so many milliseconds, where the stream has so many frames in a thousand seconds.
pub fn progress_line(
    alloc: Global,
    counts: Counts,
    place: BytesRead,
    millis: u64,
    rate: Option<u64>,
) -> Result<String, AllocError>
    ensures { IfOk result (λ line. string_bytes line ≡ progress_line counts place millis rate) }
{
    let mut line = String::from_str(alloc, "\r")?;
    add_counts(&mut line, counts)?;
    add_speed(&mut line, counts.pictures, millis)?;
    add_times(&mut line, counts.pictures, millis, rate)?;
    add_place(&mut line, place, millis)?;
    line.push_str("\x1b[K")?;
    Ok(line)
}

fn add_counts(line: &mut String, counts: Counts) -> Result<(), AllocError>
    ensures { OnOk result (string_bytes line.new ≡ string_bytes line.old ++ counts_text counts) }
{
    let pictures = counts.pictures;
    let refused = counts.refused;
    write!(line, "pictures {pictures}, refused {refused}")?;
    Ok(())
}

fn add_speed(line: &mut String, pictures: u64, millis: u64) -> Result<(), AllocError>
    ensures { OnOk result (string_bytes line.new ≡ string_bytes line.old
        ++ speed_text pictures millis) }
{
    if millis == 0 {
        return Ok(());
    }
    line.push_str(", ")?;
    add_tenths(line, 10_000 * u128::from(pictures) / u128::from(millis))?;
    line.push_str(" a second")?;
    Ok(())
}

fn add_times(
    line: &mut String,
    pictures: u64,
    millis: u64,
    rate: Option<u64>,
) -> Result<(), AllocError>
    ensures { OnOk result (string_bytes line.new ≡ string_bytes line.old
        ++ times_text pictures millis rate) }
{
    match rate {
        Some(rate) => add_times_of(line, pictures, u128::from(millis) * u128::from(rate)),
        None => Ok(()),
    }
}

// Where the stream's frame rate brings so many millionths of a picture in the time.
fn add_times_of(line: &mut String, pictures: u64, due: u128) -> Result<(), AllocError>
    ensures { OnOk result (string_bytes line.new ≡ string_bytes line.old ++ times_by pictures due) }
{
    if due == 0 {
        return Ok(());
    }
    line.push_str(", ")?;
    add_tenths(line, 10_000_000 * u128::from(pictures) / due)?;
    line.push_str(" times the frame rate")?;
    Ok(())
}

fn add_tenths(line: &mut String, tenths: u128) -> Result<(), AllocError>
    ensures { OnOk result (string_bytes line.new ≡ string_bytes line.old ++ tenths_text tenths) }
{
    let whole = tenths / 10;
    let tenth = tenths % 10;
    write!(line, "{whole}.{tenth}")?;
    Ok(())
}

fn add_place(line: &mut String, place: BytesRead, millis: u64) -> Result<(), AllocError>
    ensures { OnOk result (string_bytes line.new ≡ string_bytes line.old
        ++ place_text place millis) }
{
    match place.size {
        Some(size) => add_place_of(line, place.read, size, millis),
        None => Ok(()),
    }
}

// Where so many bytes of a file were read in that time.
fn add_place_of(line: &mut String, read: u64, size: u64, millis: u64) -> Result<(), AllocError>
    ensures { OnOk result (string_bytes line.new ≡ string_bytes line.old
        ++ place_by read size millis) }
{
    if read == 0 || size == 0 {
        return Ok(());
    }
    let hundredths = 100 * u128::from(read.min(size)) / u128::from(size);
    write!(line, ", {hundredths}%")?;
    add_left(line, read, size - read.min(size), millis)
}

// Where so many bytes are left.
fn add_left(line: &mut String, read: u64, rest: u64, millis: u64) -> Result<(), AllocError>
    requires { 0 < read }
    ensures { OnOk result (string_bytes line.new ≡ string_bytes line.old
        ++ left_text read rest millis) }
{
    if rest == 0 {
        return Ok(());
    }
    line.push_str(", ")?;
    add_clock(
        line,
        u128::from(millis) * u128::from(rest) / (1000 * u128::from(read)),
    )?;
    line.push_str(" left")?;
    Ok(())
}

// Minutes and seconds.
fn add_clock(line: &mut String, seconds: u128) -> Result<(), AllocError>
    ensures { OnOk result (string_bytes line.new ≡ string_bytes line.old ++ clock_text seconds) }
{
    let minutes = seconds / 60;
    let tens = seconds % 60 / 10;
    let ones = seconds % 10;
    write!(line, "{minutes}:{tens}{ones}")?;
    Ok(())
}
