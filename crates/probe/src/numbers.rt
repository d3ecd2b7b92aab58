// The entry points that take numbers alone.
use crate::parts::Request;
use crate::say::{Item, Line, Word};
use crate::{parts, values};
use pdi::{BitLen, ByteLen, PdiOffset, PdiSegment};
use std::io;
use sync_manager_channel::{Control, Enable, Status};
use wire::Reason;

// A length in bits; one that is too long for the type is its longest, which is refused like it.
fn bit_len(bits: u64) -> BitLen {
    BitLen(u32::try_from(bits).unwrap_or(u32::MAX))
}

fn rounded(answer: Result<ByteLen, Reason>) -> Line {
    answer.map_or_else(Line::refused, |bytes| Line::from([Item::from(bytes.0)]))
}

fn round_up(bits: u64) -> Result<ByteLen, Reason> {
    bit_len(bits).round_up()
}

fn moved(answer: Result<PdiOffset, Reason>) -> Line {
    answer.map_or_else(Line::refused, |next| {
        Line::from([Item::from(next.start_address)])
    })
}

fn increment(start_address: u32, bytes: u32) -> Result<PdiOffset, Reason> {
    let offset = PdiOffset { start_address };
    offset.increment(ByteLen((bytes & 0xffff) as u16))
}

fn increment_byte_aligned(start_address: u32, bits: u64) -> Result<PdiOffset, Reason> {
    let offset = PdiOffset { start_address };
    offset.increment_byte_aligned(bit_len(bits))
}

fn between(segment: PdiSegment) -> Line {
    Line::from([
        Item::from(segment.start),
        Item::from(segment.end),
        Item::from(segment.len()),
    ])
}

fn up_to(start_address: u32, end: u32) -> PdiSegment {
    let start = PdiOffset { start_address };
    start.up_to(PdiOffset { start_address: end })
}

fn counted(answer: Result<PdiSegment, Reason>) -> Line {
    answer.map_or_else(Line::refused, |counted| {
        Line::from([Item::from(counted.start), Item::from(counted.end)])
    })
}

fn less(start: u32, end: u32, group: u32) -> Result<PdiSegment, Reason> {
    let segment = PdiSegment { start, end };
    segment.less(group)
}

// The fields of each register in turn.
pub fn control_fields(control: Control) -> [u8; 5] {
    [
        control.operation_mode.number(),
        control.direction.number(),
        u8::from(control.ecat_event_enable),
        u8::from(control.dls_user_event_enable),
        u8::from(control.watchdog_enable),
    ]
}

pub fn status_fields(status: Status) -> [u8; 6] {
    [
        u8::from(status.has_write_event),
        u8::from(status.has_read_event),
        u8::from(status.mailbox_full),
        status.buffer_state.number(),
        u8::from(status.read_buffer_open),
        u8::from(status.write_buffer_open),
    ]
}

pub fn enable_fields(enable: Enable) -> [u8; 6] {
    [
        u8::from(enable.enable),
        u8::from(enable.repeat),
        u8::from(enable.enable_dc_event_bus_write),
        u8::from(enable.enable_dc_event_local_write),
        u8::from(enable.channel_pdi_disabled),
        u8::from(enable.repeat_ack),
    ]
}

fn control_line(control: Control) -> Line {
    Line::fields(&control_fields(control), Item::Byte(control.pack()))
}

fn status_line(status: Status) -> Line {
    Line::fields(&status_fields(status), Item::Byte(status.pack()))
}

fn enable_line(enable: Enable) -> Line {
    Line::fields(&enable_fields(enable), Item::Bytes(enable.pack()))
}

// The last byte of c.
fn low(c: u32) -> u8 {
    (c & 0xff) as u8
}

// By the letters of docs/PROBE.md, which are bytes from outside. a and b stay, and c is one value after another.
pub fn lines(rt: &impl Print, request: Request) -> io::Result<()> {
    let a = request.a();
    let b = request.b();
    match request.letter() {
        b'r' => values::lines(rt, request, |c| round_up(parts::joined(a, c)), rounded),
        b'i' => values::lines(rt, request, |c| increment(a, c), moved),
        b'b' => values::lines(
            rt,
            request,
            |c| increment_byte_aligned(a, parts::joined(b, c)),
            moved,
        ),
        b'u' => values::lines(rt, request, |c| up_to(a, c), between),
        b'g' => values::lines(rt, request, |c| less(a, b, c), counted),
        b'k' => values::lines(rt, request, |c| Control::unpack(low(c)), control_line),
        b'j' => values::lines(rt, request, |c| Status::unpack(low(c)), status_line),
        b'e' => values::lines(
            rt,
            request,
            |c| Enable::unpack(low(c), low(c >> 8)),
            enable_line,
        ),
        _ => rt.print(Word::Unknown),
    }
}
