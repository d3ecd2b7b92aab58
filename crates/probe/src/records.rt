// The entry points that take an image, or a record and lent room.
use crate::numbers::{control_fields, enable_fields, status_fields};
use crate::parts;
use crate::parts::Request;
use crate::say::{Hex, Item, Numbers};
use fmmu::Fmmu;
use pdi::{ByteLen, PdiSegment};
use std::io;
use sync_manager_channel::{
    BufferState, Control, Direction, Enable, OperationMode, Status, SyncManagerChannel,
};
use wire::Reason;

pub fn set(bytes: &[u8], at: usize) -> bool {
    wire::byte_at(bytes, at) != 0
}

// An FMMU record of fourteen bytes.
fn fmmu_of(bytes: &[u8]) -> Fmmu {
    Fmmu {
        logical_start_address: parts::number4(bytes, 0),
        length_bytes: ByteLen(parts::number2(bytes, 4)),
        logical_start_bit: wire::byte_at(bytes, 6),
        logical_end_bit: wire::byte_at(bytes, 7),
        physical_start_address: parts::number2(bytes, 8),
        physical_start_bit: wire::byte_at(bytes, 10),
        read_enable: set(bytes, 11),
        write_enable: set(bytes, 12),
        enable: set(bytes, 13),
    }
}

// A mode and a direction by their numbers, or as the case with the number.
fn mode_of(number: u8, unnamed: bool) -> OperationMode {
    match (unnamed, number) {
        (true, _) => OperationMode::Unnamed(number),
        (false, 0) => OperationMode::Normal,
        (false, _) => OperationMode::Mailbox,
    }
}

fn direction_of(number: u8, unnamed: bool) -> Direction {
    match (unnamed, number) {
        (true, _) => Direction::Unnamed(number),
        (false, 0) => Direction::MasterRead,
        (false, _) => Direction::MasterWrite,
    }
}

// A sync manager record of twenty-one bytes, in its parts; two more say whether mode and direction are the case with the number.
fn control_of(bytes: &[u8]) -> Control {
    Control {
        operation_mode: mode_of(wire::byte_at(bytes, 4), set(bytes, 21)),
        direction: direction_of(wire::byte_at(bytes, 5), set(bytes, 22)),
        ecat_event_enable: set(bytes, 6),
        dls_user_event_enable: set(bytes, 7),
        watchdog_enable: set(bytes, 8),
    }
}

fn status_of(bytes: &[u8]) -> Status {
    Status {
        has_write_event: set(bytes, 9),
        has_read_event: set(bytes, 10),
        mailbox_full: set(bytes, 11),
        buffer_state: BufferState::from(wire::byte_at(bytes, 12) & 0x03),
        read_buffer_open: set(bytes, 13),
        write_buffer_open: set(bytes, 14),
    }
}

fn enable_of(bytes: &[u8]) -> Enable {
    Enable {
        enable: set(bytes, 15),
        repeat: set(bytes, 16),
        enable_dc_event_bus_write: set(bytes, 17),
        enable_dc_event_local_write: set(bytes, 18),
        channel_pdi_disabled: set(bytes, 19),
        repeat_ack: set(bytes, 20),
    }
}

fn channel_of(bytes: &[u8]) -> SyncManagerChannel {
    SyncManagerChannel {
        physical_start_address: parts::number2(bytes, 0),
        length_bytes: ByteLen(parts::number2(bytes, 2)),
        control: control_of(bytes),
        status: status_of(bytes),
        enable: enable_of(bytes),
    }
}

pub fn fmmu_read(rt: &impl Print, request: Request) -> io::Result<()> {
    match Fmmu::unpack_from_slice(request.fmmus()) {
        Ok(f) => print!(rt;
            "{} {} {} {} {} {} {} {} {}",
            f.logical_start_address,
            f.length_bytes.0,
            f.logical_start_bit,
            f.logical_end_bit,
            f.physical_start_address,
            f.physical_start_bit,
            u8::from(f.read_enable),
            u8::from(f.write_enable),
            u8::from(f.enable)
        ),
        Err(reason) => rt.print(Item::Refused(reason)),
    }
}

fn channel_fields(rt: &impl Print, channel: SyncManagerChannel) -> io::Result<()> {
    print!(rt;
        "{} {}{}{}{}",
        channel.physical_start_address,
        channel.length_bytes.0,
        Numbers(&control_fields(channel.control)),
        Numbers(&status_fields(channel.status)),
        Numbers(&enable_fields(channel.enable))
    )
}

pub fn channel_read(rt: &impl Print, request: Request) -> io::Result<()> {
    match SyncManagerChannel::unpack_from_slice(request.channels()) {
        Ok(channel) => channel_fields(rt, channel),
        Err(reason) => rt.print(Item::Refused(reason)),
    }
}

// The image by value.
pub fn channel_packed(rt: &impl Print, request: Request) -> io::Result<()> {
    rt.print(Hex(&channel_of(request.channels()).pack()))
}

// What is written into room that is filled with `~` first, as a text.
fn text<F: FnOnce(&mut [u8]) -> Result<usize, Reason>>(
    rt: &impl Print,
    request: Request,
    write: F,
) -> io::Result<()>
    requires { F.IsAlwaysCallable write }
{
    let mut space = [b'~'; 20480];
    let room = parts::front_mut(&mut space, usize::from(request.room()));
    match write(room) {
        Ok(length) => print!(rt; "{length} |")?,
        Err(reason) => print!(rt; "{} |", Item::Refused(reason))?,
    }
    rt.write_all(room)?;
    rt.print("|")
}

// What is written into room that is filled with 0xff first, as an image.
fn image<F: FnOnce(&mut [u8]) -> Result<usize, Reason>>(
    rt: &impl Print,
    request: Request,
    write: F,
) -> io::Result<()>
    requires { F.IsAlwaysCallable write }
{
    let mut space = [0xff; 20480];
    let room = parts::front_mut(&mut space, usize::from(request.room()));
    match write(room) {
        Ok(_) => print!(rt; "ok {}", Hex(room)),
        Err(reason) => print!(rt; "{} {}", Item::Refused(reason), Hex(room)),
    }
}

pub fn segment_text(rt: &impl Print, request: Request) -> io::Result<()> {
    let segment = PdiSegment {
        start: request.a(),
        end: request.b(),
    };
    text(rt, request, |room| segment.fmt(room))
}

pub fn fmmu_text(rt: &impl Print, request: Request) -> io::Result<()> {
    let fmmu = fmmu_of(request.fmmus());
    text(rt, request, |room| fmmu.fmt(room))
}

pub fn fmmu_image(rt: &impl Print, request: Request) -> io::Result<()> {
    let fmmu = fmmu_of(request.fmmus());
    image(rt, request, |room| fmmu.pack_to_slice(room))
}

pub fn channel_text(rt: &impl Print, request: Request) -> io::Result<()> {
    let channel = channel_of(request.channels());
    text(rt, request, |room| channel.fmt(room))
}

pub fn channel_image(rt: &impl Print, request: Request) -> io::Result<()> {
    let channel = channel_of(request.channels());
    image(rt, request, |room| channel.pack_to_slice(room))
}
