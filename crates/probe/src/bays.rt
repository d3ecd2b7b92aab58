// The entry points that take a sheet or register areas.
use crate::again::over_and_over;
use crate::parts;
use crate::parts::Request;
use crate::say::{Hex, Item, Line, Word};
use counting::Position;
use mailboxes::{Mailbox, MailboxConfig};
use passes::{Both, FmmuMode, FmmuPair, Settings};
use pdi::{PdiOffset, PdiSegment};
use pdo::Oversampling;
use sheet::{Device, SyncManager};
use std::io;
use wire::Reason;

// A sync manager of a sheet: address, control byte, ENABLE, usage.
fn manager(rt: &impl Print, m: SyncManager) -> io::Result<()> {
    print!(rt;
        " {}/{:02x}/{}/{}",
        m.start_addr,
        m.control.pack(),
        u8::from(m.enable),
        m.usage_type
    )
}

fn managers(rt: &impl Print, d: Device) -> io::Result<()> {
    for m in d.managers.iter().take(d.n) {
        manager(rt, *m)?;
    }
    Ok(())
}

fn usages(rt: &impl Print, d: Device) -> io::Result<()> {
    for usage in d.usages.iter().take(d.f) {
        print!(rt; " {usage}")?;
    }
    Ok(())
}

// Device data, as far as it counts.
pub fn device(rt: &impl Print, d: Device) -> io::Result<()> {
    print!(rt;
        "{} {} {} {} {} managers",
        u8::from(d.has_mailbox),
        u8::from(d.coe_protocol),
        u8::from(d.complete_access),
        d.receive_size.0,
        d.send_size.0
    )?;
    managers(rt, d)?;
    rt.print(" usages")?;
    usages(rt, d)?;
    print!(rt; " pdos {}", d.p)
}

// What reading a sheet answered.
pub fn tell_read(rt: &impl Print, read: Result<Device, Reason>) -> io::Result<()> {
    match read {
        Ok(d) => device(rt, d),
        Err(reason) => rt.print(Item::Refused(reason)),
    }
}

pub fn read(rt: &impl Print, request: Request) -> io::Result<()> {
    tell_read(rt, sheet::read(request.sheet()))
}

// A mailbox, if there is one: address, size, sync manager.
fn mailbox(rt: &impl Print, mailbox: Option<Mailbox>) -> io::Result<()> {
    match mailbox {
        None => rt.print(" none"),
        Some(m) => print!(rt; " {}/{}/{}", m.address, m.len.0, m.sync_manager),
    }
}

fn config(rt: &impl Print, c: MailboxConfig) -> io::Result<()> {
    rt.print("ok")?;
    mailbox(rt, c.read)?;
    mailbox(rt, c.write)?;
    print!(rt; " {} {}", u8::from(c.has_coe), u8::from(c.complete_access))
}

// The mailbox pass, over a copy of the channel part.
pub fn mailboxes(rt: &impl Print, request: Request) -> io::Result<()> {
    let mut space = [0u8; 512];
    let channels = parts::copied(request.channels(), &mut space);
    match mailboxes::configure_mailboxes(request.sheet(), channels) {
        Ok(c) => config(rt, c)?,
        Err(reason) => rt.print(Item::Refused(reason))?,
    }
    print!(rt; " {}", Hex(channels))
}

// Both segments, or a refusal.
fn segments(rt: &impl Print, answer: Result<Both<PdiSegment>, Reason>) -> io::Result<()> {
    match answer {
        Ok(Both { inputs, outputs }) => print!(rt;
            "{} {} {} {}",
            inputs.start, inputs.end, outputs.start, outputs.end
        ),
        Err(reason) => rt.print(Item::Refused(reason)),
    }
}

// The call, over copies of the FMMU bytes behind the pairs and of the channel part.
pub fn call(rt: &impl Print, request: Request, settings: Settings) -> io::Result<()> {
    let mut records = [parts::NO_RECORD; 256];
    let mut pairs = [parts::NO_PAIR; 256];
    let mut entries = [0u8; 512];
    let mut images = [0u8; 512];
    let fmmus = parts::copied(request.behind_pairs(), &mut entries);
    let channels = parts::copied(request.channels(), &mut images);
    let Both {
        mut inputs,
        mut outputs,
    } = request.offsets();
    let answer = lent::configure_fmmus(
        request.sheet(),
        request.table(&mut records),
        request.pairs(&mut pairs),
        fmmus,
        channels,
        &mut inputs,
        &mut outputs,
        settings,
    );
    called(rt, answer)?;
    print!(rt;
        " {} {} {} {}",
        inputs.start_address,
        outputs.start_address,
        Hex(fmmus),
        Hex(channels)
    )
}

// What a call answered, told before the offsets as they then are.
fn called(rt: &impl Print, answer: Result<Both<PdiSegment>, Reason>) -> io::Result<()> {
    if answer.is_ok() {
        rt.print("ok ")?;
    }
    segments(rt, answer)
}

// Where an address leads: a device address, none, or a refusal.
pub type Reached = Result<Option<u16>, Reason>;

pub fn translated(answer: Reached) -> Line {
    answer.map_or_else(Line::refused, |reached| Line::from([Item::from(reached)]))
}

pub fn translate(request: Request, address: u32) -> Reached {
    translation::translate(request.fmmus(), request.direction(), address)
}

pub fn counted(answer: Result<Option<Position>, Reason>) -> Line {
    match answer {
        Ok(Some(position)) => Line::from([
            Item::from(position.sync_manager),
            Item::from(position.byte),
            Item::from(position.device),
        ]),
        Ok(None) => Line::word(Word::None),
        Err(reason) => Line::refused(reason),
    }
}

pub fn count(request: Request, address: u32) -> Result<Option<Position>, Reason> {
    let mut records = [parts::NO_RECORD; 256];
    lent::count(
        request.sheet(),
        request.table(&mut records),
        request.offset(),
        request.direction(),
        address,
    )
}

// One side of an agreement.
fn side(answer: Reached) -> Item {
    answer.map_or_else(Item::Short, Item::from)
}

// What both answer, where they differ.
pub fn differing(request: Request, address: u32) -> Option<(Reached, Reached)> {
    let one = translate(request, address);
    let two = count(request, address).map(|position| position.and_then(|p| p.device));
    if one == two { None } else { Some((one, two)) }
}

pub fn agreed(differing: Option<(Reached, Reached)>) -> Line {
    match differing {
        None => Line::word(Word::Same),
        Some((one, two)) => Line::from([Item::Word(Word::Differ), side(one), side(two)]),
    }
}

// What lockerplan prints for the sheet, without the last line's end; where areas are given, over those. Every report fits.
pub fn plan(rt: &impl Print, request: Request) -> io::Result<()> {
    let mut fmmus = [0u8; 256];
    let mut channels = [0u8; 128];
    wire::copy(request.fmmus(), &mut fmmus);
    wire::copy(request.channels(), &mut channels);
    let mut text = [0u8; 4096];
    let length = report::report(request.sheet(), fmmus, channels, &mut text).unwrap_or(0);
    rt.write_all(wire::front(&text, length.saturating_sub(1)))
}

// The mailbox pass and the call over areas of zeros, from offset 0.
fn plan_once(
    sheet: &[u8],
    table: &[Oversampling],
    pairs: &[FmmuPair],
    settings: Settings,
) -> Result<Both<PdiSegment>, Reason> {
    let mut fmmus = [0u8; 256];
    let mut channels = [0u8; 128];
    mailboxes::configure_mailboxes(sheet, &mut channels)?;
    let mut inputs = PdiOffset { start_address: 0 };
    let mut outputs = inputs;
    lent::configure_fmmus(
        sheet,
        table,
        pairs,
        &mut fmmus,
        &mut channels,
        &mut inputs,
        &mut outputs,
        settings,
    )
}

// The same plan so many times, in group 0, the outputs straight after the inputs; by own numbers it is lent no pair.
fn plans(request: Request, mode: FmmuMode, times: u32) -> Result<Both<PdiSegment>, Reason> {
    let mut records = [parts::NO_RECORD; 256];
    let mut list = [parts::NO_PAIR; 256];
    let sheet = request.sheet();
    let table = request.table(&mut records);
    let pairs = request.pairs(&mut list);
    let clean = Settings::clean(0);
    match mode {
        // by itself, so that what a table asks for isn't counted where there is none
        FmmuMode::OwnNumber if table.is_empty() => {
            over_and_over(times, || plan_once(sheet, &[], &[], clean))
        }
        FmmuMode::OwnNumber => over_and_over(times, || plan_once(sheet, table, &[], clean)),
        FmmuMode::Paired => over_and_over(times, || {
            plan_once(sheet, table, pairs, Settings { mode, ..clean })
        }),
    }
}

// As often as a says.
pub fn again(rt: &impl Print, request: Request, mode: FmmuMode) -> io::Result<()> {
    match request.a() {
        0 => rt.print(Word::None),
        times => segments(rt, plans(request, mode, times)),
    }
}
