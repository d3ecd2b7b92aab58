// The device sheet: the one form in which a bay comes in, read whole.
#![tactic(auto, unfolding(crate::specs::Sheet::sheet_data))]

ghost use Rattle.std.specs.Prelude.{◌≡◌, false, min, ◌+◌, ◌≤◌, length};
ghost use Rattle.wire.specs.Outcome.{decide};
ghost use Rattle.wire.specs.Number.{big_at};
ghost use Rattle.grammar.specs.Grammar.{manager_count, manager_place, usages_place, broken};
ghost use Rattle.sheet.specs.Sheet.{manager_at, some_unnamed, sheet_refusals, sheet_data, managers_of, usages_of, device_of, answer_of, ReadsAs};

use channel_bytes::{Control, Direction, OperationMode};
use pdi::ByteLen;
use wire::Reason;

// A sync manager as the sheet has it. Its usage is a byte, of which those above 4 have no name and are refused with 4,
// whoever made it up.
#[derive(Clone, Copy, Debug, PartialEq, Eq)]
pub struct SyncManager {
    pub start_addr: u16,
    pub control: Control,
    pub enable: bool,
    pub usage_type: u8,
}

// Device data: what planning reads. Its PDO records stay in the lent bytes, `p` of them from the place `pdos` on. There is no
// heap, so lists are arrays of sixteen, of which n and f count; these may be any numbers, and too large ones are refused.
#[derive(Clone, Copy, Debug, PartialEq, Eq)]
pub struct Device {
    pub has_mailbox: bool,
    pub coe_protocol: bool,
    pub complete_access: bool,
    pub receive_size: ByteLen,
    pub send_size: ByteLen,
    pub managers: [SyncManager; 16],
    pub n: usize,
    pub usages: [u8; 16],
    pub f: usize,
    pub pdos: usize,
    pub p: u8,
}

const NO_CONTROL: Control = Control {
    operation_mode: OperationMode::Normal,
    direction: Direction::MasterRead,
    ecat_event_enable: false,
    dls_user_event_enable: false,
    watchdog_enable: false,
};

pub const NO_MANAGER: SyncManager = SyncManager {
    start_addr: 0,
    control: NO_CONTROL,
    enable: false,
    usage_type: 0,
};

// Whether some control has an unnamed mode or direction.
fn some_unnamed(sheet: &[u8]) -> bool
    requires { usages_place sheet.now ≤ length sheet.now }
    ensures { result ≡ some_unnamed (sheet_data sheet.now).managers }
{
    // by number: chunks cost an instruction more for each
    for k in 0..grammar::manager_count(sheet) {
        let control = sheet[grammar::manager_place(k) + grammar::CONTROL];
        if Control::unpack(control).unnamed() {
            return true;
        }
    }
    false
}

// Whether a sheet keeps every rule; if not, the first of the reasons 2 to 5 that holds.
pub fn check(sheet: &[u8]) -> Result<(), Reason>
    ensures { answer_of {A = Unit {0}} result tt ≡ decide (sheet_refusals sheet.now) tt }
{
    if grammar::wrong_length(sheet) {
        return Err(Reason::SheetLength);
    }
    if sheet[2] != 1 {
        return Err(Reason::SheetVersion);
    }
    if grammar::rule_broken(sheet) {
        return Err(Reason::SheetRule);
    }
    if some_unnamed(sheet) {
        return Err(Reason::UnnamedControl);
    }
    Ok(())
}

// What stands in a sheet; past its end there is 0. The flags: a mailbox, CoE among the protocols, complete access.
pub fn has_mailbox(sheet: &[u8]) -> bool
    ensures { result ≡ (sheet_data sheet.now).mailbox }
{
    wire::flag(wire::byte_at(sheet, 3), 0)
}

pub fn coe_protocol(sheet: &[u8]) -> bool
    ensures { result ≡ (sheet_data sheet.now).coe_protocol }
{
    wire::flag(wire::byte_at(sheet, 3), 1)
}

pub fn complete_access(sheet: &[u8]) -> bool
    ensures { result ≡ (sheet_data sheet.now).complete }
{
    wire::flag(wire::byte_at(sheet, 3), 2)
}

// The mailboxes' sizes.
pub fn receive_size(sheet: &[u8]) -> ByteLen
    ensures { result.0 ≡ (sheet_data sheet.now).receive }
{
    ByteLen(word_at(sheet, 4))
}

pub fn send_size(sheet: &[u8]) -> ByteLen
    ensures { result.0 ≡ (sheet_data sheet.now).send }
{
    ByteLen(word_at(sheet, 6))
}

// Two bytes as a number, the high one first.
fn word_at(sheet: &[u8], at: usize) -> u16
    requires { at ≤ 1286 }
    ensures { result ≡ big_at sheet.now at 2 }
{
    u16::from_be_bytes([wire::byte_at(sheet, at), wire::byte_at(sheet, at + 1)])
}

// How many sync managers are looked at: sixteen at most, and a sheet that keeps the rules has no more.
pub fn front_count(sheet: &[u8]) -> u8
    ensures { result ≡ min (manager_count sheet.now) 16 }
{
    grammar::manager_count(sheet).min(16)
}

// The usage of the sync manager with a number.
pub fn usage_of(sheet: &[u8], k: u8) -> u8
    ensures { result ≡ (manager_at sheet.now (manager_place k)).usage_type }
{
    wire::byte_at(sheet, grammar::manager_place(k) + grammar::USAGE)
}

// Its start address.
pub fn start_of(sheet: &[u8], k: u8) -> u16
    ensures { result ≡ (manager_at sheet.now (manager_place k)).start_addr }
{
    word_at(sheet, grammar::manager_place(k))
}

// Its control.
fn control_of(sheet: &[u8], k: u8) -> Control
    ensures { result ≡ (manager_at sheet.now (manager_place k)).control }
{
    Control::unpack(wire::byte_at(sheet, grammar::manager_place(k) + grammar::CONTROL))
}

// Whether it is enabled.
fn enable_of(sheet: &[u8], k: u8) -> bool
    ensures { result ≡ (manager_at sheet.now (manager_place k)).enable }
{
    wire::flag(
        wire::byte_at(sheet, grammar::manager_place(k) + grammar::ENABLE),
        0,
    )
}

// The sync manager itself.
pub fn manager(sheet: &[u8], k: u8) -> SyncManager
    ensures { result ≡ manager_at sheet.now (manager_place k) }
{
    SyncManager {
        start_addr: start_of(sheet, k),
        control: control_of(sheet, k),
        enable: enable_of(sheet, k),
        usage_type: usage_of(sheet, k),
    }
}

// The sync managers of a sheet.
fn managers_of(sheet: &[u8], n: u8) -> [SyncManager; 16]
    requires { n ≤ 16 }
    ensures { result ≡ managers_of sheet.now n }
{
    let mut list = [NO_MANAGER; 16];
    for k in 0..n {
        list[usize::from(k)] = manager(sheet, k);
    }
    list
}

// The FMMU usages of a sheet.
fn usages_of(sheet: &[u8], at: usize, f: usize) -> [u8; 16]
    requires { (f ≤ 16) × (at + f ≤ length sheet.now) }
    ensures { result ≡ usages_of sheet.now at f }
{
    let mut list = [0u8; 16];
    list[..f].copy_from_slice(&sheet[at..at + f]);
    list
}

// The device data of a sheet that keeps every rule.
fn device_of(sheet: &[u8]) -> Device
    requires { broken sheet.now ≡ false }
    ensures { result ≡ device_of sheet.now }
{
    let n = grammar::manager_count(sheet);
    let f = usize::from(grammar::usage_count(sheet));
    Device {
        has_mailbox: has_mailbox(sheet),
        coe_protocol: coe_protocol(sheet),
        complete_access: complete_access(sheet),
        receive_size: receive_size(sheet),
        send_size: send_size(sheet),
        managers: managers_of(sheet, n),
        n: usize::from(n),
        usages: usages_of(sheet, grammar::usages_place(sheet), f),
        f,
        pdos: grammar::pdos_place(sheet),
        p: grammar::pdo_count(sheet),
    }
}

// Reads a sheet whole: its device data, or the first of the reasons 2 to 5 that holds.
pub fn read(sheet: &[u8]) -> Result<Device, Reason>
    ensures { ReadsAs sheet.now result }
{
    check(sheet)?;
    Ok(device_of(sheet))
}
