// The entry points that take a dump of the category area.
use crate::again::over_and_over;
use crate::parts::Request;
use crate::{bays, parts, writing};
use dump::Head;
use pdi::ByteLen;
use sheet::Device;
use std::io;
use wire::Reason;

// What a request says and a dump doesn't: the flags in byte 1, the mailboxes' sizes in b.
fn head(request: Request) -> Head {
    Head {
        flags: request.byte1(),
        receive_size: ByteLen(parts::number2(request.0, 8)),
        send_size: ByteLen(parts::number2(request.0, 10)),
    }
}

// What reading answered, and the room, at whose front the PDO records stand.
fn tell(rt: &impl Print, read: Result<Device, Reason>, room: &[u8]) -> io::Result<()> {
    match read {
        Ok(d) => {
            bays::device(rt, d)?;
            writing::tell_room(rt, room, 7 * usize::from(d.p))
        }
        Err(reason) => writing::tell_refused(rt, reason, room),
    }
}

// A dump's device data, its PDO records put into room that is filled with 0xff first.
pub fn read(rt: &impl Print, request: Request) -> io::Result<()> {
    let mut space = [0xffu8; 20480];
    let room = parts::front_mut(&mut space, usize::from(request.room()));
    let (dump, head) = (request.sheet(), head(request));
    let read = over_and_over(request.a(), || dump::read(dump, head, room));
    tell(rt, read, room)
}

// A dump's sheet, written into room that is filled likewise.
pub fn write(rt: &impl Print, request: Request) -> io::Result<()> {
    let mut space = [0xffu8; 20480];
    let room = parts::front_mut(&mut space, usize::from(request.room()));
    let (dump, head) = (request.sheet(), head(request));
    let answer = over_and_over(request.a(), || dump::write_sheet(dump, head, room));
    writing::tell(rt, answer, room)
}
