// The entry points that write device data as a sheet.
use crate::again::over_and_over;
use crate::parts::Request;
use crate::say::{Hex, Item};
use crate::{arrivals, parts, records};
use pdi::ByteLen;
use sheet::{Device, SyncManager};
use std::{array, io};
use sync_manager_channel::{Control, Direction, OperationMode};
use wire::Reason;

// What stands in the room up to a length, and how many bytes behind that aren't as they were.
pub fn tell_room(rt: &impl Print, room: &[u8], length: usize) -> io::Result<()> {
    let wrong = arrivals::wrong(room, length, room);
    print!(rt; " {} {wrong}", Hex(wire::front(room, length)))
}

// A refusal, and how many bytes of the whole room aren't as they were.
pub fn tell_refused(rt: &impl Print, reason: Reason, room: &[u8]) -> io::Result<()> {
    let wrong = arrivals::wrong(room, 0, room);
    print!(rt; "{} {wrong}", Item::Refused(reason))
}

// What writing answered, and the room.
pub fn tell(rt: &impl Print, answer: Result<usize, Reason>, room: &[u8]) -> io::Result<()> {
    match answer {
        Ok(length) => {
            rt.print(length)?;
            tell_room(rt, room, length)
        }
        Err(reason) => tell_refused(rt, reason, room),
    }
}

// Device data into room that is filled with 0xff first, the request's sheet being the lent bytes. Inlined, so that on the stack its
// room lies where those of other letters do, and not on top of them.
#[inline(always)]
fn roomed(rt: &impl Print, d: Device, request: Request, times: u32) -> io::Result<()> {
    let mut space = [0xffu8; 20480];
    let room = parts::front_mut(&mut space, usize::from(request.room()));
    let bytes = request.sheet();
    let answer = over_and_over(times, || writer::write(d, bytes, room));
    tell(rt, answer, room)
}

// A sheet's own device data, as often as a says.
pub fn again(rt: &impl Print, request: Request) -> io::Result<()> {
    match sheet::read(request.sheet()) {
        Ok(d) => roomed(rt, d, request, request.a()),
        Err(reason) => rt.print(Item::Refused(reason)),
    }
}

// Four bytes say whether the mode is the case with a number, that number, and so of the direction; else the control byte says it.
fn mode(said: OperationMode, given: &[u8]) -> OperationMode {
    if records::set(given, 0) {
        OperationMode::Unnamed(wire::byte_at(given, 1))
    } else {
        said
    }
}

fn direction(said: Direction, given: &[u8]) -> Direction {
    if records::set(given, 2) {
        Direction::Unnamed(wire::byte_at(given, 3))
    } else {
        said
    }
}

fn control(byte: u8, given: &[u8]) -> Control {
    let said = Control::unpack(byte);
    Control {
        operation_mode: mode(said.operation_mode, given),
        direction: direction(said.direction, given),
        ..said
    }
}

// A sync manager of five bytes, and of four behind all of the record.
fn manager(bytes: &[u8], given: &[u8]) -> SyncManager {
    SyncManager {
        start_addr: parts::number2(bytes, 0),
        control: control(wire::byte_at(bytes, 2), given),
        enable: records::set(bytes, 3),
        usage_type: wire::byte_at(bytes, 4),
    }
}

// The sixteen sync managers of a record.
fn managers(record: &[u8]) -> [SyncManager; 16] {
    array::from_fn(|k| {
        manager(
            parts::part(record, 32 + 5 * k, 5),
            parts::part(record, 128 + 4 * k, 4),
        )
    })
}

// The sixteen FMMU usages of a record.
fn usages(record: &[u8]) -> [u8; 16] {
    array::from_fn(|k| wire::byte_at(record, 112 + k))
}

// A device record of 128 bytes, or of 192.
fn device_of(record: &[u8]) -> Device {
    Device {
        has_mailbox: records::set(record, 0),
        coe_protocol: records::set(record, 1),
        complete_access: records::set(record, 2),
        receive_size: ByteLen(parts::number2(record, 3)),
        send_size: ByteLen(parts::number2(record, 5)),
        managers: managers(record),
        n: parts::number8(record, 7) as usize,
        usages: usages(record),
        f: parts::number8(record, 15) as usize,
        pdos: parts::number8(record, 23) as usize,
        p: wire::byte_at(record, 31),
    }
}

// Device data that is given by its fields, once.
pub fn given(rt: &impl Print, request: Request) -> io::Result<()> {
    roomed(rt, device_of(request.fmmus()), request, 1)
}
