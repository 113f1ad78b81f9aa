//! The lines of `headers`.

ghost use Rattle.std.specs.Prelude.{◌≡◌, [], ◌∷◌, ◌++◌, ◌+◌, ◌-◌, ◌*◌, false, IfOk, OnOk, Some};
ghost use Rattle.std.specs.Prelude.{◌^◌, ◌<◌, length, string_bytes};
ghost use Rattle.std.specs.Fmt.{decimal};
ghost use Rattle.std.specs.Option.{option_copied};
ghost use Rattle.avc_params.specs.Tables.{sets_after};
ghost use Rattle.avc_slice.specs.Header.{slice_qp};
ghost use Rattle.avc_units.specs.Grouping.{set_units};
ghost use Rattle.avc_tools.specs.Showing.{AreShown, header_lines_under};
ghost use Rattle.avc_tools.specs.Streams.{after_more, after_units_left, max_unit, units_left};
ghost use Rattle.avc_tools.specs.Lines.{flag_number, header_line, header_lines};
ghost use Rattle.avc_tools.specs.Lines.{header_lines_so_far, line_of, newline, order_type};
ghost use Rattle.avc_tools.specs.Lines.{pps_fields, pps_flags, pps_identity, pps_text, qp_number};
ghost use Rattle.avc_tools.specs.Lines.{refused_text, set_text, shown_height, shown_width};
ghost use Rattle.avc_tools.specs.Lines.{slice_fields, slice_picture, slice_place, slice_qp_under};
ghost use Rattle.avc_tools.specs.Lines.{slice_text, sps_frames, sps_identity, sps_size, sps_text};
ghost use Rattle.avc_tools.specs.Lines.{text_of, type_name};

use crate::listing_form::{ForPeople, ListingForm};
use crate::stream_text::StreamText;
use crate::units::{MAX_UNIT, take_more};
use avc_annexb::laws::units_stay;
use avc_annexb::{Splitter, Unit};
use avc_params::{OrderCount, Pps, Sps};
use avc_slice::Header;
use avc_types::{Fault, OutOfMemory, WantOfMemory};
use avc_units::{Brought, HeaderReader, ParameterSet};
use std::alloc::Global;
use std::marker::Model;

/// A line for each unit of a whole byte stream (Annex B) that brings a parameter set or a slice:
/// its place among the units, and what the set (7.3.2.1.1, 7.3.2.2) or the slice header (7.3.3)
/// says, or why it is refused. A slice is read with the sets in force there. Data partitions, and
/// units whose forbidden_zero_bit is 1, are refused.
pub fn show_headers(alloc: Global, bytes: &[u8]) -> Result<String, OutOfMemory>
    ensures { IfOk result (λ text. string_bytes text ≡ header_lines bytes.now) }
{
    let mut splitter = Splitter::<MAX_UNIT>::new(alloc);
    splitter.feed(bytes)?;
    splitter.finish()?;
    let mut reader = HeaderReader::new(alloc);
    let text = lines_of_headers_left(alloc, &ForPeople, &mut splitter, &mut reader)?;
    Ok(text)
}

/// A line of a form for each unit that brings a parameter set or a slice, of a stream that comes in
/// pieces, each once its unit has ended. A contract sees what came of the stream.
#[derive(Drop)]
pub struct HeaderLines<F> {
    alloc: Global,
    form: F,
    splitter: Splitter<MAX_UNIT>,
    reader: HeaderReader,
    failed: WantOfMemory,
}

impl<F> Model for HeaderLines<F> {
    ghost use Rattle.std.specs.Prelude.{◌≡◌, false};
    ghost use Rattle.avc_tools.specs.Streams.{StreamSoFar, max_unit};
    ghost use Rattle.avc_tools.specs.Showing.{AreShown};

    ghost Value = { StreamSoFar };

    ghost view = { λ l. record {
      bytes = l.splitter.bytes;
      ended = l.splitter.ended;
      failed = l.failed;
    } };

    ghost invariant = { λ l. l.failed ≡ false → AreShown max_unit l.splitter l.reader };
}

impl<F> HeaderLines<F> {
    ghost use Rattle.avc_tools.specs.Streams.{new_stream};

    /// At the start of a stream.
    pub fn new(alloc: Global, form: F) -> HeaderLines<F>
        ensures { result ≡ new_stream }
    {
        HeaderLines {
            alloc,
            form,
            splitter: Splitter::new(alloc),
            reader: HeaderReader::new(alloc),
            failed: WantOfMemory::none(),
        }
    }
}

impl<F: ListingForm> StreamText for HeaderLines<F> {
    ghost so_far = { λ l. l };

    ghost number = { λ _. 0 };

    ghost text = { λ _. header_lines_so_far F.of_header };

    // a further unit may have a line
    ghost over = { λ _ _ _. false };

    fn feed(&mut self, piece: &[u8]) -> Result<Vec<u8>, OutOfMemory> {
        self.failed.check()?;
        let lines = lines_of_more(
            self.alloc,
            &self.form,
            &mut self.splitter,
            &mut self.reader,
            piece,
            false,
        );
        self.failed.keep(lines)
    }

    fn finish(&mut self) -> Result<Vec<u8>, OutOfMemory> {
        self.failed.check()?;
        let lines = lines_of_more(
            self.alloc,
            &self.form,
            &mut self.splitter,
            &mut self.reader,
            &[],
            true,
        );
        self.failed.keep(lines)
    }

    fn is_over(&self) -> bool {
        false
    }

    #[tactic(auto, using(crate::proofs::Taking::header_lines_grow))]
    fn text_only_grows(&self) {
        units_stay();
    }
}

// Takes the next bytes of the stream, or its end, and makes the lines that come of it.
fn lines_of_more<F: ListingForm>(
    alloc: Global,
    form: &F,
    splitter: &mut Splitter<MAX_UNIT>,
    reader: &mut HeaderReader,
    piece: &[u8],
    ends: bool,
) -> Result<Vec<u8>, OutOfMemory>
    requires { AreShown max_unit splitter.old reader.old }
    ensures taken { OnOk result (splitter.new
        ≡ after_units_left max_unit (after_more splitter.old piece.now ends)) }
    ensures shown { OnOk result (AreShown max_unit splitter.new reader.new) }
    ensures added { IfOk result (λ added. length splitter.new.bytes < 2 ^ 64 →
        header_lines_so_far F.of_header splitter.new.bytes splitter.new.ended
        ≡ header_lines_so_far F.of_header splitter.old.bytes splitter.old.ended ++ added.items) }
{
    take_more(splitter, piece, ends)?;
    let lines = lines_of_headers_left(alloc, form, splitter, reader)?;
    Ok(lines.into_bytes())
}

// Takes all units whose end has been seen, makes their lines, and keeps their parameter sets.
fn lines_of_headers_left<F: ListingForm>(
    alloc: Global,
    form: &F,
    splitter: &mut Splitter<MAX_UNIT>,
    reader: &mut HeaderReader,
) -> Result<String, OutOfMemory>
    requires { splitter.old.failed ≡ false }
    ensures text { IfOk result (λ text. string_bytes text
        ≡ header_lines_under F.of_header reader.old (units_left max_unit splitter.old)) }
    ensures sets { OnOk result (reader.new ≡ reader.old
        ++ set_units (units_left max_unit splitter.old)) }
    ensures taken { OnOk result (splitter.new ≡ after_units_left max_unit splitter.old) }
{
    let mut text = String::new(alloc);
    while let Some(unit) = splitter.next_unit() {
        form.add_header(alloc, &mut text, reader, &unit)?;
    }
    Ok(text)
}

/// Takes the next unit, and adds its line for people, where it brings a parameter set or a slice.
pub(crate) fn add_header_line(
    text: &mut String,
    reader: &mut HeaderReader,
    unit: &Unit,
) -> Result<(), OutOfMemory>
    ensures text { OnOk result (string_bytes text.new ≡ string_bytes text.old
        ++ header_line (sets_after reader.old) unit.now) }
    ensures sets { OnOk result (reader.new ≡ reader.old ++ set_units (unit.now ∷ [])) }
{
    let brought = reader.read(unit)?;
    add_brought(text, reader, unit.index, &brought)
}

// of a unit that brings this
fn add_brought(
    text: &mut String,
    reader: &HeaderReader,
    index: u64,
    brought: &Brought,
) -> Result<(), OutOfMemory>
    ensures { OnOk result (string_bytes text.new ≡ string_bytes text.old
        ++ line_of index (text_of (sets_after reader.now) brought.now)) }
{
    match brought {
        Brought::Nothing => Ok(()),
        Brought::Set(set) => add_set(text, index, set),
        Brought::Slice(header) => add_slice_line(text, index, reader, header),
        Brought::Refused(fault) => add_refusal(text, index, *fault),
    }
}

fn add_set(text: &mut String, index: u64, set: &ParameterSet) -> Result<(), OutOfMemory>
    ensures { OnOk result (string_bytes text.new ≡ string_bytes text.old
        ++ line_of index (Some (set_text set.now))) }
{
    match set {
        ParameterSet::OfSequence(Ok(sps)) => add_sps_line(text, index, sps),
        ParameterSet::OfSequence(Err(refused)) => add_refusal(text, index, refused.fault),
        ParameterSet::OfPicture(Ok(pps)) => add_pps_line(text, index, pps),
        ParameterSet::OfPicture(Err(refused)) => add_refusal(text, index, refused.fault),
    }
}

fn add_refusal(text: &mut String, index: u64, fault: Fault) -> Result<(), OutOfMemory>
    ensures { OnOk result (string_bytes text.new ≡ string_bytes text.old
        ++ line_of index (Some (refused_text fault))) }
{
    let number = fault.number();
    let name = fault.name();
    writeln!(text, "{index} refused {number} {name}")?;
    Ok(())
}

fn begin_line(text: &mut String, index: u64) -> Result<(), OutOfMemory>
    ensures { OnOk result (string_bytes text.new ≡ string_bytes text.old ++ decimal index) }
{
    write!(text, "{index}")?;
    Ok(())
}

fn end_line(text: &mut String) -> Result<(), OutOfMemory>
    ensures { OnOk result (string_bytes text.new ≡ string_bytes text.old ++ newline) }
{
    text.push_str("\n")?;
    Ok(())
}

fn add_sps_line(text: &mut String, index: u64, sps: &Sps) -> Result<(), OutOfMemory>
    ensures { OnOk result (string_bytes text.new ≡ string_bytes text.old
        ++ line_of index (Some (sps_text sps.now))) }
{
    begin_line(text, index)?;
    add_sps_identity(text, sps)?;
    add_sps_size(text, sps)?;
    add_sps_frames(text, sps)?;
    end_line(text)?;
    Ok(())
}

fn add_sps_identity(text: &mut String, sps: &Sps) -> Result<(), OutOfMemory>
    ensures { OnOk result (string_bytes text.new ≡ string_bytes text.old ++ sps_identity sps.now) }
{
    let id = sps.seq_parameter_set_id;
    let profile = sps.profile_idc;
    let level = sps.level_idc;
    write!(text, " sps {id} profile {profile} level {level}")?;
    Ok(())
}

fn add_sps_size(text: &mut String, sps: &Sps) -> Result<(), OutOfMemory>
    ensures { OnOk result (string_bytes text.new ≡ string_bytes text.old ++ sps_size sps.now) }
{
    let width = shown_width(sps);
    let height = shown_height(sps);
    write!(text, " size {width}x{height}")?;
    Ok(())
}

fn add_sps_frames(text: &mut String, sps: &Sps) -> Result<(), OutOfMemory>
    ensures { OnOk result (string_bytes text.new ≡ string_bytes text.old ++ sps_frames sps.now) }
{
    let refs = sps.max_num_ref_frames;
    let poc = order_type(&sps.order_count);
    let dpb = sps.dpb_size();
    write!(text, " refs {refs} poc {poc} dpb {dpb}")?;
    Ok(())
}

/// The width of what is shown, in luma samples.
pub fn shown_width(sps: &Sps) -> u64
    ensures { result ≡ shown_width sps.now }
{
    let width = 16 * u64::from(sps.width_in_mbs());
    match &sps.frame_cropping {
        Some(c) => without(width, c.frame_crop_left_offset, c.frame_crop_right_offset),
        None => width,
    }
}

/// The height of what is shown, in luma samples.
pub fn shown_height(sps: &Sps) -> u64
    ensures { result ≡ shown_height sps.now }
{
    let height = 16 * u64::from(sps.height_in_mbs());
    match &sps.frame_cropping {
        Some(c) => without(height, c.frame_crop_top_offset, c.frame_crop_bottom_offset),
        None => height,
    }
}

// The cropping offsets are in units of two luma samples.
fn without(size: u64, before: u16, behind: u16) -> u64
    ensures { result ≡ size - 2 * (before + behind) }
{
    size.saturating_sub(2 * (u64::from(before) + u64::from(behind)))
}

/// pic_order_cnt_type, 0 to 2.
pub fn order_type(order: &OrderCount) -> u8
    ensures { result ≡ order_type order.now }
{
    match order {
        OrderCount::Type0 { .. } => 0,
        OrderCount::Type1 { .. } => 1,
        OrderCount::Type2 => 2,
    }
}

fn add_pps_line(text: &mut String, index: u64, pps: &Pps) -> Result<(), OutOfMemory>
    ensures { OnOk result (string_bytes text.new ≡ string_bytes text.old
        ++ line_of index (Some (pps_text pps.now))) }
{
    begin_line(text, index)?;
    add_pps_identity(text, pps)?;
    add_pps_fields(text, pps)?;
    add_pps_flags(text, pps)?;
    end_line(text)?;
    Ok(())
}

fn add_pps_identity(text: &mut String, pps: &Pps) -> Result<(), OutOfMemory>
    ensures { OnOk result (string_bytes text.new ≡ string_bytes text.old ++ pps_identity pps.now) }
{
    let id = pps.pic_parameter_set_id;
    let sps_id = pps.seq_parameter_set_id;
    write!(text, " pps {id} sps {sps_id}")?;
    Ok(())
}

fn add_pps_fields(text: &mut String, pps: &Pps) -> Result<(), OutOfMemory>
    ensures { OnOk result (string_bytes text.new ≡ string_bytes text.old ++ pps_fields pps.now) }
{
    let qp = qp_of(pps, 0);
    let refs = u32::from(pps.num_ref_idx_l0_default_active_minus1) + 1;
    write!(text, " qp {qp} refs {refs}")?;
    Ok(())
}

fn add_pps_flags(text: &mut String, pps: &Pps) -> Result<(), OutOfMemory>
    ensures { OnOk result (string_bytes text.new ≡ string_bytes text.old ++ pps_flags pps.now) }
{
    let control = flag_number(pps.deblocking_filter_control_present_flag);
    let constrained = flag_number(pps.constrained_intra_pred_flag);
    write!(text, " control {control} constrained {constrained}")?;
    Ok(())
}

/// A flag as 0 or 1.
pub fn flag_number(flag: bool) -> u8
    ensures { result ≡ flag_number flag }
{
    u8::from(flag)
}

/// SliceQPY (7.4.3), which is not below 0.
fn qp_of(pps: &Pps, slice_qp_delta: i32) -> u64
    ensures { result ≡ qp_number (slice_qp pps.now slice_qp_delta) }
{
    let qp = 26 + i64::from(pps.pic_init_qp_minus26) + i64::from(slice_qp_delta);
    qp.unsigned_abs()
}

fn add_slice_line(
    text: &mut String,
    index: u64,
    reader: &HeaderReader,
    header: &Header,
) -> Result<(), OutOfMemory>
    ensures { OnOk result (string_bytes text.new ≡ string_bytes text.old
        ++ line_of index (Some (slice_text (sets_after reader.now) header.now))) }
{
    begin_line(text, index)?;
    add_slice_place(text, header)?;
    add_slice_picture(text, header)?;
    add_slice_fields(text, reader, header)?;
    end_line(text)?;
    Ok(())
}

fn add_slice_place(text: &mut String, header: &Header) -> Result<(), OutOfMemory>
    ensures { OnOk result (string_bytes text.new ≡ string_bytes text.old
        ++ slice_place header.now) }
{
    let first = header.first_mb_in_slice.get();
    let slice_type = type_name(header);
    write!(text, " slice {first} type {slice_type}")?;
    Ok(())
}

fn add_slice_picture(text: &mut String, header: &Header) -> Result<(), OutOfMemory>
    ensures { OnOk result (string_bytes text.new ≡ string_bytes text.old
        ++ slice_picture header.now) }
{
    let pps = header.pic_parameter_set_id;
    let frame = header.frame_num;
    write!(text, " pps {pps} frame {frame}")?;
    Ok(())
}

fn add_slice_fields(
    text: &mut String,
    reader: &HeaderReader,
    header: &Header,
) -> Result<(), OutOfMemory>
    ensures { OnOk result (string_bytes text.new ≡ string_bytes text.old
        ++ slice_fields (sets_after reader.now) header.now) }
{
    let qp = slice_qp_under(reader.pps(header.pic_parameter_set_id), header);
    let idr = flag_number(header.is_idr());
    write!(text, " qp {qp} idr {idr}")?;
    Ok(())
}

/// The name of slice_type (Table 7-6): P or I.
pub fn type_name(header: &Header) -> &'static str
    ensures { result.now ≡ type_name header.now }
{
    if header.is_p() { "P" } else { "I" }
}

/// SliceQPY (7.4.3) of a slice under this picture parameter set, which is not below 0; 0 without
/// one.
pub fn slice_qp_under(pps: Option<&Pps>, header: &Header) -> u64
    ensures { result ≡ slice_qp_under (option_copied pps.entry) header.now }
{
    match pps {
        Some(pps) => qp_of(pps, header.slice_qp_delta),
        None => 0,
    }
}
