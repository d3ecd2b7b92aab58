// A device's own EEPROM dump: the category area of ETG2010, read as device data of the EEPROM path.
#![tactic(auto)]

ghost use Rattle.std.specs.Prelude.{◌≡◌, cond, ◌||◌, eqb, map, ◌++◌, ◌+◌, ◌*◌, ◌-◌, ◌/◌, ◌≤◌, length, replicate, ltb};
ghost use Rattle.wire.specs.Number.{little_at};
ghost use Rattle.wire.specs.Lists.{some_of};
ghost use Rattle.wire.specs.Room.{over};
ghost use Rattle.area.specs.Area.{flat, stored_at};
ghost use Rattle.sheet.specs.Sheet.{some_unnamed, no_manager};
ghost use Rattle.writer.specs.Form.{pdo_bytes};
ghost use Rattle.dump.specs.Parts.{parts_of, rest_of};
ghost use Rattle.dump.specs.Categories.{category_long, categories};
ghost use Rattle.dump.specs.Categories as Categories;
ghost use Rattle.dump.specs.Looked.{LongIs, front_content, from_place, first_noted, known_type, comes_before, Finds, standing, more_than, number_of, pdos_from};
ghost use Rattle.dump.specs.Records.{usage_for, manager_long, manager_for, pdo_long, bits_in, pdo_for, pdos_for, nonempty};
ghost use Rattle.dump.specs.Dump.{rule_broken, device_with, ReadsDump, WritesSheet};

use channel_bytes::Control;
use pdi::ByteLen;
use sheet::{Device, SyncManager};
use wire::Reason;

// What a sheet's head says and a category area doesn't: the flags, as in its byte 3, and the mailboxes' sizes.
#[derive(Clone, Copy, Debug, PartialEq, Eq)]
pub struct Head {
    pub flags: u8,
    pub receive_size: ByteLen,
    pub send_size: ByteLen,
}

// The types of the categories that device data is made of, and the type that is the end mark: the words that a dump has,
// matched where they are read.
const FMMU: u16 = 40;

const SYNC_MANAGER: u16 = 41;

const TX_PDO: u16 = 50;

const RX_PDO: u16 = 51;

const END_MARK: u16 = 0xffff;

// What a sheet calls the PDOs of a TxPDO category, and of an RxPDO category.
#[derive(Clone, Copy, Debug, PartialEq, Eq)]
enum Kind {
    Input = 1,
    Output = 2,
}

// The number in the first two bytes, the low one first; past the end there is 0.
fn word(bytes: &[u8]) -> u16
    ensures { result ≡ little_at bytes.now 0 2 }
{
    wire::le16(wire::byte_at(bytes, 0), wire::byte_at(bytes, 1))
}

// How long the category at the front is, where one stands there; the end mark is none.
fn category_long(rest: &[u8]) -> Option<usize>
    ensures { LongIs (category_long rest.now) result }
{
    if rest.len() < 4 {
        return None;
    }
    if wire::le16(rest[0], rest[1]) == END_MARK {
        return None;
    }
    let long = 4 + 2 * usize::from(wire::le16(rest[2], rest[3]));
    (long <= rest.len()).then_some(long)
}

// Whether the end mark stands at the front.
fn marked(rest: &[u8]) -> bool
    ensures { result ≡ Categories.marked rest.now }
{
    word(rest) == END_MARK
}

// The content of the category at the front; where none stands there, nothing.
fn content(rest: &[u8]) -> &[u8]
    ensures { result.now ≡ front_content (categories rest.now) }
{
    wire::behind(wire::front(rest, category_long(rest).unwrap_or(0)), 4)
}

// Where the first category of each of the four types begins, where there is one.
#[derive(Clone, Copy)]
struct Places {
    fmmus: Option<usize>,
    managers: Option<usize>,
    inputs: Option<usize>,
    outputs: Option<usize>,
}

impl Places {
    // With a category of a type at a place: the first of each type counts.
    fn with(self, kind: u16, at: usize) -> Places
        ensures fmmus { result.fmmus ≡ first_noted self.fmmus at (eqb kind 40) }
        ensures managers { result.managers ≡ first_noted self.managers at (eqb kind 41) }
        ensures inputs { result.inputs ≡ first_noted self.inputs at (eqb kind 50) }
        ensures outputs { result.outputs ≡ first_noted self.outputs at (eqb kind 51) }
    {
        match kind {
            FMMU => Places {
                fmmus: self.fmmus.or(Some(at)),
                ..self
            },
            SYNC_MANAGER => Places {
                managers: self.managers.or(Some(at)),
                ..self
            },
            TX_PDO => Places {
                inputs: self.inputs.or(Some(at)),
                ..self
            },
            RX_PDO => Places {
                outputs: self.outputs.or(Some(at)),
                ..self
            },
            _ => self,
        }
    }
}

// What a walk over a dump finds: those places, how many categories are of the four types, and where all of them end.
#[derive(Clone, Copy)]
struct Found {
    places: Places,
    known: usize,
    end: usize,
}

// Whether a type is one of the four.
fn is_known(kind: u16) -> bool
    ensures { cond result 1 0 ≡ known_type kind }
{
    kind == FMMU || kind == SYNC_MANAGER || kind == TX_PDO || kind == RX_PDO
}

// Walks over all categories once.
fn find(dump: &[u8]) -> Found
    ensures { Finds dump.now result }
{
    let mut places = Places {
        fmmus: None,
        managers: None,
        inputs: None,
        outputs: None,
    };
    let mut known = 0;
    let mut end = 0;
    // a while: each category says its own length, and the places are noted
    while let Some(long) = category_long(wire::behind(dump, end)) {
        let rest = wire::behind(dump, end);
        let kind = wire::le16(rest[0], rest[1]);
        places = places.with(kind, end);
        known += usize::from(is_known(kind));
        end += long;
    }
    Found { places, known, end }
}

// The dump from a place on; nothing where there is no place.
fn from_place(dump: &[u8], place: Option<usize>) -> &[u8]
    ensures { result.now ≡ from_place place dump.now }
{
    wire::behind(dump, place.unwrap_or(dump.len()))
}

// Whether the one place comes before the other; what isn't there comes last.
fn comes_before(one: Option<usize>, other: Option<usize>) -> bool
    ensures { result ≡ comes_before one other }
{
    match (one, other) {
        (Some(one), Some(other)) => one < other,
        (Some(_), None) => true,
        (None, _) => false,
    }
}

// Whether a category stands at the front.
fn stands(rest: &[u8]) -> bool
    ensures { cond result 1 0 ≡ standing (categories rest.now) }
{
    category_long(rest).is_some()
}

// Whether a second category of a type stands there: more categories are of the four types than types occur.
fn second(known: usize, fmmus: &[u8], managers: &[u8], inputs: &[u8], outputs: &[u8]) -> bool
    ensures { result ≡ more_than (categories fmmus.now) (categories managers.now) (categories inputs.now) (categories outputs.now) known }
{
    usize::from(stands(fmmus))
        + usize::from(stands(managers))
        + usize::from(stands(inputs))
        + usize::from(stands(outputs))
        < known
}

// A sync manager, from its record at the front.
fn manager(rest: &[u8]) -> SyncManager
    ensures { result ≡ manager_for rest.now }
{
    SyncManager {
        start_addr: word(rest),
        control: Control::unpack(wire::byte_at(rest, 4)),
        enable: wire::flag(wire::byte_at(rest, 6), 0),
        usage_type: wire::byte_at(rest, 7),
    }
}

// Whether a sync manager's usage has no name.
fn some_manager_unnamed(records: &[u8]) -> bool
    ensures { result ≡ some_of (λ m. ltb 4 m.usage_type) (map manager_for (parts_of manager_long records.now)) }
{
    (0..records.len() / 8).any(|k| 4 < records[8 * k + 7])
}

// 5: whether a control has an unnamed mode or direction.
fn some_control_unnamed(records: &[u8]) -> bool
    ensures { result ≡ some_unnamed (map manager_for (parts_of manager_long records.now)) }
{
    (0..records.len() / 8).any(|k| Control::unpack(records[8 * k + 4]).unnamed())
}

// The sync managers.
fn managers_of(records: &[u8]) -> [SyncManager; 16]
    requires { length records.now / 8 ≤ 16 }
    ensures { result ≡ map manager_for (parts_of manager_long records.now) ++ replicate (16 - length records.now / 8) no_manager }
{
    let mut list = [sheet::NO_MANAGER; 16];
    for k in 0..records.len() / 8 {
        list[k] = manager(wire::behind(records, 8 * k));
    }
    list
}

// An FMMU's usage: 0xFF is unused.
fn usage(byte: u8) -> u8
    ensures { result ≡ usage_for byte }
{
    if byte == 0xff {
        return 0;
    }
    byte
}

// Whether an FMMU's usage has no name.
fn some_usage_unnamed(bytes: &[u8]) -> bool
    ensures { result ≡ some_of (ltb 3) (map usage_for bytes.now) }
{
    bytes.iter().map(|&byte| usage(byte)).any(|usage| 3 < usage)
}

// The FMMU usages.
fn usages_of(bytes: &[u8]) -> [u8; 16]
    requires { length bytes.now ≤ 16 }
    ensures { result ≡ map usage_for bytes.now ++ replicate (16 - length bytes.now) 0 }
{
    let mut list = [0u8; 16];
    for (k, &byte) in bytes.iter().enumerate() {
        list[k] = usage(byte);
    }
    list
}

// How long the PDO record at the front is, where one stands there.
fn pdo_long(rest: &[u8]) -> Option<usize>
    ensures { LongIs (pdo_long rest.now) result }
{
    let long = 8 + 8 * usize::from(wire::byte_at(rest, 2));
    (long <= rest.len()).then_some(long)
}

// PDO records from the front on: how many stand there, and whether something is left behind the last one.
#[derive(Clone, Copy)]
struct Records {
    count: usize,
    cut: bool,
}

fn pdo_records(bytes: &[u8]) -> Records
    ensures { (result.count ≡ length (parts_of pdo_long bytes.now)) × (result.cut ≡ nonempty (rest_of pdo_long bytes.now)) × (result.count ≤ length bytes.now) }
{
    let mut count = 0;
    let mut end = 0;
    // a while: each record says its own length, and where the last one ends is asked for
    while let Some(long) = pdo_long(wire::behind(bytes, end)) {
        end += long;
        count += 1;
    }
    Records {
        count,
        cut: end < bytes.len(),
    }
}

// A PDO's bits: its entries' together.
fn bits(rest: &[u8]) -> u16
    ensures { result ≡ bits_in rest.now }
{
    let mut sum = 0;
    for k in 0..usize::from(wire::byte_at(rest, 2)) {
        sum += u16::from(wire::byte_at(rest, 8 + 8 * k + 5));
    }
    sum
}

// A PDO as a sheet has it, from its record at the front.
fn pdo_bytes(rest: &[u8], kind: Kind) -> [u8; 7]
    ensures { result ≡ pdo_bytes (pdo_for (number_of kind) rest.now) }
{
    let index = word(rest).to_be_bytes();
    let bits = bits(rest).to_be_bytes();
    [
        kind as u8,
        wire::byte_at(rest, 3),
        index[0],
        index[1],
        2,
        bits[0],
        bits[1],
    ]
}

// Stores PDOs as a sheet has them, from a place on, and answers where they end.
fn put_pdos(bytes: &[u8], kind: Kind, room: &mut [u8], to: usize) -> usize
    requires { to + 7 * length (parts_of pdo_long bytes.now) ≤ length room.old }
    ensures { (result ≡ to + 7 * length (parts_of pdo_long bytes.now)) × (room.new ≡ stored_at to (flat (map pdo_bytes (pdos_for (number_of kind) bytes.now))) room.old) }
{
    let mut at = 0;
    let mut place = to;
    // a while: each record says its own length
    while let Some(long) = pdo_long(wire::behind(bytes, at)) {
        area::store(&pdo_bytes(wire::behind(bytes, at), kind), room, place);
        at += long;
        place += 7;
    }
    place
}

// 17: whether there is a second category of a type, or one of the three contents isn't whole records.
fn not_records(twice: bool, records: &[u8], inputs_cut: bool, outputs_cut: bool) -> bool
    ensures { result ≡ twice || (nonempty (rest_of manager_long records.now) || (inputs_cut || outputs_cut)) }
{
    twice || records.len() % 8 != 0 || inputs_cut || outputs_cut
}

// Stores the PDOs of two categories, the one's behind the other's, from the front of the room on.
fn put_both(first: &[u8], kind: Kind, last: &[u8], other: Kind, room: &mut [u8])
    requires { 7 * (length (parts_of pdo_long first.now) + length (parts_of pdo_long last.now)) ≤ length room.old }
    ensures { room.new ≡ over (flat (map pdo_bytes (pdos_for (number_of kind) first.now ++ pdos_for (number_of other) last.now))) room.old }
{
    let next = put_pdos(first, kind, room, 0);
    put_pdos(last, other, room, next);
}

// Stores the PDOs as a sheet has them, the inputs' or the outputs' first.
fn put_records(inputs_first: bool, inputs: &[u8], outputs: &[u8], room: &mut [u8])
    requires { 7 * length (pdos_from inputs_first (categories inputs.now) (categories outputs.now)) ≤ length room.old }
    ensures { room.new ≡ over (flat (map pdo_bytes (pdos_from inputs_first (categories inputs.now) (categories outputs.now)))) room.old }
{
    let tx = content(inputs);
    let rx = content(outputs);
    if inputs_first {
        put_both(tx, Kind::Input, rx, Kind::Output, room);
    } else {
        put_both(rx, Kind::Output, tx, Kind::Input, room);
    }
}

// 4: whether another rule of the sheet is broken.
fn rule_broken(flags: u8, records: &[u8], usages: &[u8], p: usize) -> bool
    ensures { result ≡ rule_broken flags (map manager_for (parts_of manager_long records.now)) (map usage_for usages.now) p }
{
    7 < flags
        || 16 < records.len() / 8
        || 16 < usages.len()
        || 255 < p
        || some_manager_unnamed(records)
        || some_usage_unnamed(usages)
}

// The record of what a dump holds.
fn device_of(head: Head, records: &[u8], usages: &[u8], p: u8) -> Device
    requires { (length records.now / 8 ≤ 16) × (length usages.now ≤ 16) }
    ensures { result ≡ device_with head (map manager_for (parts_of manager_long records.now)) (map usage_for usages.now) p }
{
    Device {
        has_mailbox: wire::flag(head.flags, 0),
        coe_protocol: wire::flag(head.flags, 1),
        complete_access: wire::flag(head.flags, 2),
        receive_size: head.receive_size,
        send_size: head.send_size,
        managers: managers_of(records),
        n: records.len() / 8,
        usages: usages_of(usages),
        f: usages.len(),
        pdos: 0,
        p,
    }
}

// Reads a dump: device data, with what the caller gives, its PDO records written into the room from its front on. 16: a
// category runs past the dump, or there is no end mark; 17: a category isn't whole records, or is a second one of its type; 4
// and 5: as of a sheet; 12: the room is too short.
pub fn read(dump: &[u8], head: Head, room: &mut [u8]) -> Result<Device, Reason>
    ensures { ReadsDump head dump.now room.old result room.new }
{
    let found = find(dump);
    if !marked(wire::behind(dump, found.end)) {
        return Err(Reason::DumpCutShort);
    }
    let fmmus = from_place(dump, found.places.fmmus);
    let managers = from_place(dump, found.places.managers);
    let inputs = from_place(dump, found.places.inputs);
    let outputs = from_place(dump, found.places.outputs);
    let usages = content(fmmus);
    let records = content(managers);
    let tx = pdo_records(content(inputs));
    let rx = pdo_records(content(outputs));
    let twice = second(found.known, fmmus, managers, inputs, outputs);
    if not_records(twice, records, tx.cut, rx.cut) {
        return Err(Reason::DumpRecords);
    }
    let p = tx.count + rx.count;
    if rule_broken(head.flags, records, usages, p) {
        return Err(Reason::SheetRule);
    }
    if some_control_unnamed(records) {
        return Err(Reason::UnnamedControl);
    }
    if room.len() < 7 * p {
        return Err(Reason::RoomTooShort);
    }
    put_records(
        comes_before(found.places.inputs, found.places.outputs),
        inputs,
        outputs,
        room,
    );
    // `rule_broken` left no p above 255
    Ok(device_of(head, records, usages, p as u8))
}

// Writes a dump's sheet into the room, whole or not at all, and answers its length; 1,892 bytes are always enough. It is
// refused as reading is, with 12 where the room is too short for the sheet.
pub fn write_sheet(dump: &[u8], head: Head, room: &mut [u8]) -> Result<usize, Reason>
    ensures { WritesSheet head dump.now room.old result room.new }
{
    // 255 PDOs are the most, of 7 bytes each
    let mut records = [0u8; 1785];
    let device = read(dump, head, &mut records)?;
    writer::write(device, &records, room)
}
