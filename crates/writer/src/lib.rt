// Writes device data as a sheet: the reader's other way, over the same grammar.
#![tactic(auto)]

ghost use Rattle.std.specs.Prelude.{◌≡◌, ◌+◌, ◌*◌, ◌≤◌, ◌<◌, map, length, take, ltb, MatchResult};
ghost use Rattle.wire.specs.Lists.{some_of};
ghost use Rattle.wire.specs.Room.{over};
ghost use Rattle.wire.specs.declared.Reason.TheVariants.{SheetLength};
ghost use Rattle.area.specs.Area.{flat, stored_at};
ghost use Rattle.sheet.specs.Sheet.{some_unnamed};
ghost use Rattle.writer.specs.Form.{flags_byte, manager_bytes};
ghost use Rattle.writer.specs.Writing.{rule_broken, Writes};
ghost use Rattle.writer.specs.Laid.{head_laid, sheet_laid};

use sheet::{Device, SyncManager};
use wire::Reason;

// The bytes of a sync manager.
fn manager_bytes(m: SyncManager) -> [u8; 5]
    ensures { result ≡ manager_bytes m }
{
    let start = m.start_addr.to_be_bytes();
    [
        start[0],
        start[1],
        m.control.pack(),
        u8::from(m.enable),
        m.usage_type,
    ]
}

// The flags: a mailbox, CoE among the protocols, complete access.
fn flags_of(mailbox: bool, protocol: bool, complete: bool) -> u8
    ensures { result ≡ flags_byte mailbox protocol complete }
{
    u8::from(mailbox) + 2 * u8::from(protocol) + 4 * u8::from(complete)
}

// What stands before the sync managers; L is what follows its two bytes, of `total`.
fn head_of(d: Device, total: u16) -> [u8; 11]
    requires { (11 ≤ total) × (d.n ≤ 16) × (d.f ≤ 16) }
    ensures { result ≡ head_laid d total }
{
    let follow = (total - 2).to_be_bytes();
    let receive = d.receive_size.0.to_be_bytes();
    let send = d.send_size.0.to_be_bytes();
    [
        follow[0],
        follow[1],
        1,
        flags_of(d.has_mailbox, d.coe_protocol, d.complete_access),
        receive[0],
        receive[1],
        send[0],
        send[1],
        // sixteen at most
        d.n as u8,
        d.f as u8,
        d.p,
    ]
}

// Stores sync managers, one behind the other, where they stand in a sheet.
fn put_managers(list: &[SyncManager], room: &mut [u8])
    requires { 11 + 5 * length list.now ≤ length room.old }
    ensures { room.new ≡ stored_at 11 (flat (map manager_bytes list.now)) room.old }
{
    for (k, &m) in list.iter().enumerate() {
        area::store(
            &manager_bytes(m),
            room,
            grammar::HEAD_BYTES + grammar::MANAGER_BYTES * k,
        );
    }
}

// Stores a sheet's parts, one behind the other: the head, the sync managers, the FMMU usages, the PDO records.
fn put_sheet(d: Device, records: &[u8], total: u16, room: &mut [u8])
    requires { (d.n ≤ 16) × (d.f ≤ 16) × (total ≡ 11 + 5 * d.n + d.f + length records.now) × (total ≤ length room.old) }
    ensures { room.new ≡ over (sheet_laid d total records.now) room.old }
{
    let place = grammar::HEAD_BYTES + grammar::MANAGER_BYTES * d.n;
    area::store(&head_of(d, total), room, 0);
    put_managers(&d.managers[..d.n], room);
    area::store(&d.usages[..d.f], room, place);
    area::store(records, room, place + d.f);
}

// Whether a sync manager's usage has no name.
fn some_manager_unnamed(list: &[SyncManager]) -> bool
    ensures { result ≡ some_of (λ m. ltb 4 m.usage_type) list.now }
{
    list.iter().any(|m| 4 < m.usage_type)
}

// Whether a mode or a direction is unnamed. No `any`: in a loop a wrong program can forget those before, which must-fail/ tries.
fn some_control_unnamed(list: &[SyncManager]) -> bool
    ensures { result ≡ some_unnamed list.now }
{
    let mut unnamed = false;
    for m in list {
        unnamed = unnamed | m.control.unnamed();
    }
    unnamed
}

// Whether an FMMU's usage has no name.
fn some_usage_unnamed(list: &[u8]) -> bool
    ensures { result ≡ some_of (ltb 3) list.now }
{
    list.iter().any(|&usage| 3 < usage)
}

// L, with so many bytes of PDO records. 2: it is above 16,384.
fn length_of(n: usize, f: usize, long: usize) -> Result<u16, Reason>
    requires { long ≤ 66300 }
    ensures { MatchResult result (λ l. (l ≡ 9 + 5 * n + f + long) × (l ≤ 16384)) (λ r. (r ≡ SheetLength) × (16384 < 9 + 5 * n + f + long)) }
{
    // n and f are any numbers: none is added where the sum could wrap
    if 16384 < n || 16384 < f {
        return Err(Reason::SheetLength);
    }
    let follow = 9 + 5 * n + f + long;
    if 16384 < follow {
        return Err(Reason::SheetLength);
    }
    // not above that, it fits
    Ok(follow as u16)
}

// 4: whether another rule of the sheet is broken; the sync managers are the first n.
fn rule_broken(d: Device, managers: &[SyncManager], records: &[u8]) -> bool
    requires { managers.now ≡ take d.n d.managers }
    ensures { result ≡ rule_broken d records.now }
{
    16 < d.n
        || 16 < d.f
        || some_manager_unnamed(managers)
        || some_usage_unnamed(&d.usages[..d.f])
        || !grammar::are_pdos(records, d.p)
}

// Writes device data as a sheet, its PDO records standing in the lent bytes from `pdos` on, and answers the sheet's length.
// It goes into the room whole, or not at all. 2: the sheet would be too long; 4: the data breaks a rule of the sheet; 5: a
// mode or a direction is unnamed; 12: the room is too short.
pub fn write(device: Device, bytes: &[u8], room: &mut [u8]) -> Result<usize, Reason>
    ensures { Writes device bytes.now room.old result room.new }
{
    let behind = wire::behind(bytes, device.pdos);
    let long = grammar::pdos_end(behind, device.p);
    let total = length_of(device.n, device.f, long)? + 2;
    let records = wire::front(behind, long);
    let managers = &device.managers[..device.n.min(16)];
    // all are asked before one is given
    let broken = rule_broken(device, managers, records);
    let nameless = some_control_unnamed(managers);
    let short = room.len() < usize::from(total);
    if broken {
        return Err(Reason::SheetRule);
    }
    if nameless {
        return Err(Reason::UnnamedControl);
    }
    if short {
        return Err(Reason::RoomTooShort);
    }
    put_sheet(device, records, total, room);
    Ok(usize::from(total))
}
