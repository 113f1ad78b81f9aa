//! The functions that libavcdec exports.

ghost use Rattle.std.specs.Prelude.{◌≡◌, Some, None, IfOk};
ghost use Rattle.avc_decoder.specs.Machine.{after_feed, after_flush};
ghost use Rattle.avc_c.specs.Exports.{IsOpened, IsFed, IsUnitFed, IsReset, IsTaken};
ghost use Rattle.avc_c.specs.Exports.{IsI420CopiedOut, IsPlaneCopiedOut, IsPlaneLentOut, IsCounted};
ghost use Rattle.avc_c.specs.Exports.{new_decoder, IsDroppedTaken, IsInfoToldOut, IsMarkMade};
ghost use Rattle.avc_c.specs.FaultNames.{IsNamed};

use crate::address::OpenDecoder;
use crate::awaited::Awaited;
use crate::event::EventRecord;
use crate::fault::copy_name;
use crate::handle::DecoderHandle;
use crate::marks::Marks;
use avc_c_picture::{InfoRecord, LastPicture, LentRows, Status};
use avc_decoder::laws::pictures_are_whole;
use avc_decoder::{Decoder, Output};
use avc_types::OutOfMemory;
use std::alloc::Global;

/// A decoder of no bytes, and with no picture.
fn new_decoder(alloc: Global, output: Output) -> Result<Box<OpenDecoder>, OutOfMemory>
    ensures { IfOk result (λ open_decoder. open_decoder.value ≡ new_decoder output) }
{
    let open = OpenDecoder {
        decoder: Decoder::sharing(alloc, output),
        picture: LastPicture::none(),
        marks: Marks::none(),
        awaited: Awaited::none(),
    };
    let open = Box::new(alloc, open)?;
    Ok(open)
}

/// Opens a decoder that is closed.
#[unsafe(no_mangle)]
pub extern "C" fn avcdec_open(alloc: Global, decoder: &mut DecoderHandle, early: bool) -> u32
    ensures { IsOpened early decoder.old.address.decoder result decoder.new.address.decoder }
{
    if decoder.is_open {
        return Status::IsOpen.number();
    }
    let output = if early { Output::Early } else { Output::Full };
    match new_decoder(alloc, output) {
        Ok(open) => {
            decoder.insert(open);
            Status::Ok.number()
        }
        Err(refusal) => Status::from(refusal).number(),
    }
}

/// Closes a decoder and frees what it holds. A closed one stays closed.
#[unsafe(no_mangle)]
pub extern "C" fn avcdec_close(alloc: Global, decoder: &mut DecoderHandle)
    ensures { decoder.new.address.decoder ≡ None }
{
    if decoder.is_open {
        let _ = decoder.remove(alloc);
    }
}

/// Gives the next bytes of the stream.
#[unsafe(no_mangle)]
pub extern "C" fn avcdec_feed(alloc: Global, decoder: &mut DecoderHandle, bytes: &[u8]) -> u32
    ensures { IsFed (after_feed bytes.now) decoder.old.address.decoder result
        decoder.new.address.decoder }
{
    if !decoder.is_open {
        return Status::Closed.number();
    }
    let mut open = decoder.remove(alloc);
    let answer = open.decoder.feed(bytes);
    decoder.insert(open);
    Status::of_call(answer).number()
}

/// Gives the next bytes of the stream up to where a unit has ended, or all where none ends. `used`
/// says how many those are.
#[unsafe(no_mangle)]
pub extern "C" fn avcdec_feed_unit(
    alloc: Global,
    decoder: &mut DecoderHandle,
    bytes: &[u8],
    used: &mut usize,
) -> u32
    ensures { IsUnitFed bytes.now decoder.old.address.decoder result used.new
        decoder.new.address.decoder }
{
    *used = 0;
    if !decoder.is_open {
        return Status::Closed.number();
    }
    let mut open = decoder.remove(alloc);
    let answer = open.decoder.feed_unit(bytes);
    decoder.insert(open);
    *used = answer.unwrap_or(0);
    Status::of_unit(answer).number()
}

/// Ends the stream.
#[unsafe(no_mangle)]
pub extern "C" fn avcdec_flush(alloc: Global, decoder: &mut DecoderHandle) -> u32
    ensures { IsFed after_flush decoder.old.address.decoder result decoder.new.address.decoder }
{
    if !decoder.is_open {
        return Status::Closed.number();
    }
    let mut open = decoder.remove(alloc);
    let answer = open.decoder.flush();
    decoder.insert(open);
    Status::of_call(answer).number()
}

/// Gives a value to the units that begin with the bytes from here on. Each event has that of its
/// unit.
#[unsafe(no_mangle)]
pub extern "C" fn avcdec_mark(alloc: Global, decoder: &mut DecoderHandle, value: u64) -> u32
    ensures { IsMarkMade value decoder.old.address.decoder result decoder.new.address.decoder }
{
    if !decoder.is_open {
        return Status::Closed.number();
    }
    let mut open = decoder.remove(alloc);
    let status = open.mark(value);
    decoder.insert(open);
    status.number()
}

/// Begins a new stream.
#[unsafe(no_mangle)]
pub extern "C" fn avcdec_reset(alloc: Global, decoder: &mut DecoderHandle) -> u32
    ensures { IsReset decoder.old.address.decoder result decoder.new.address.decoder }
{
    if !decoder.is_open {
        return Status::Closed.number();
    }
    let mut open = decoder.remove(alloc);
    open.decoder.reset();
    open.picture = LastPicture::none();
    open.marks = Marks::none();
    open.awaited = Awaited::none();
    decoder.insert(open);
    Status::Ok.number()
}

/// Takes the next event. Its picture is there until the next take, reset or close.
#[unsafe(no_mangle)]
pub extern "C" fn avcdec_take(
    alloc: Global,
    decoder: &mut DecoderHandle,
    event: &mut EventRecord,
) -> u32
    ensures { IsTaken decoder.old.address.decoder event.old result event.new
        decoder.new.address.decoder }
{
    if !decoder.is_open {
        return Status::Closed.number();
    }
    pictures_are_whole();
    let mut open = decoder.remove(alloc);
    let answer = open.decoder.take();
    let status = Status::of_take(&answer);
    *event = EventRecord::of(&answer, &open.marks);
    open.note(&answer);
    open.picture.replace(answer);
    decoder.insert(open);
    status.number()
}

/// Tells the oldest value that no event will have: its mark stands before that of an IDR picture
/// that was taken, and no event of its units was. It goes.
#[unsafe(no_mangle)]
pub extern "C" fn avcdec_take_dropped(
    alloc: Global,
    decoder: &mut DecoderHandle,
    value: &mut u64,
) -> u32
    ensures { IsDroppedTaken decoder.old.address.decoder value.old result value.new
        decoder.new.address.decoder }
{
    if !decoder.is_open {
        return Status::Closed.number();
    }
    let mut open = decoder.remove(alloc);
    let status = open.awaited.tell_dropped(value);
    decoder.insert(open);
    status.number()
}

/// Tells what is known of the picture that was taken last, beside its samples.
#[unsafe(no_mangle)]
pub extern "C" fn avcdec_picture_info(
    alloc: Global,
    decoder: &mut DecoderHandle,
    info: &mut InfoRecord,
) -> u32
    ensures decoder { decoder.new.address.decoder ≡ decoder.old.address.decoder }
    ensures told { IsInfoToldOut decoder.old.address.decoder info.old result info.new }
{
    if !decoder.is_open {
        return Status::Closed.number();
    }
    let open = decoder.remove(alloc);
    let status = open.picture.tell_info(info);
    decoder.insert(open);
    status.number()
}

/// Copies what is shown of the picture that was taken last, as I420.
#[unsafe(no_mangle)]
pub extern "C" fn avcdec_copy_i420(
    alloc: Global,
    decoder: &mut DecoderHandle,
    out: &mut [u8],
) -> u32
    ensures decoder { decoder.new.address.decoder ≡ decoder.old.address.decoder }
    ensures copied { IsI420CopiedOut decoder.old.address.decoder out.old result out.new }
{
    if !decoder.is_open {
        return Status::Closed.number();
    }
    let open = decoder.remove(alloc);
    let status = open.picture.copy_i420(out);
    decoder.insert(open);
    status.number()
}

/// Copies what is shown of one plane of the picture that was taken last, a row every `stride`
/// bytes.
#[unsafe(no_mangle)]
pub extern "C" fn avcdec_copy_plane(
    alloc: Global,
    decoder: &mut DecoderHandle,
    plane: u32,
    out: &mut [u8],
    stride: usize,
) -> u32
    ensures decoder { decoder.new.address.decoder ≡ decoder.old.address.decoder }
    ensures copied { IsPlaneCopiedOut decoder.old.address.decoder plane out.old stride result
        out.new }
{
    if !decoder.is_open {
        return Status::Closed.number();
    }
    let open = decoder.remove(alloc);
    let status = open.picture.copy_plane(plane, out, stride);
    decoder.insert(open);
    status.number()
}

/// Tells where what is shown of one plane of the picture that was taken last lies. It is to be read
/// until the next take, reset or close.
#[unsafe(no_mangle)]
pub extern "C" fn avcdec_lend_plane(
    alloc: Global,
    decoder: &mut DecoderHandle,
    plane: u32,
    rows: &mut LentRows,
) -> u32
    ensures decoder { decoder.new.address.decoder ≡ decoder.old.address.decoder }
    ensures lent { IsPlaneLentOut decoder.old.address.decoder plane rows.old result rows.new }
{
    if !decoder.is_open {
        return Status::Closed.number();
    }
    let open = decoder.remove(alloc);
    let status = open.picture.lend_plane(plane, rows);
    decoder.insert(open);
    status.number()
}

/// How many macroblocks have been read since the last reset; 0 where the decoder is closed.
#[unsafe(no_mangle)]
pub extern "C" fn avcdec_turns(alloc: Global, decoder: &mut DecoderHandle) -> u64
    ensures decoder { decoder.new.address.decoder ≡ decoder.old.address.decoder }
    ensures turns { IsCounted decoder.old.address.decoder result }
{
    if !decoder.is_open {
        return 0;
    }
    let open = decoder.remove(alloc);
    let turns = open.decoder.turns();
    decoder.insert(open);
    turns
}

/// Copies the name of a fault, and a 0 behind it.
#[unsafe(no_mangle)]
pub extern "C" fn avcdec_fault_name(fault: u32, name: &mut [u8]) -> u32
    ensures { IsNamed fault name.old result name.new }
{
    copy_name(fault, name).number()
}

/// The version of the library: 65536 times its first number, 256 times its second, and its third.
#[unsafe(no_mangle)]
pub extern "C" fn avcdec_version() -> u32
    ensures { result ≡ 0x00_02_00 }
{
    0x00_02_00
}
