// src/subdevice: types.rs (mailboxes) and configuration.rs (the mailbox pass).
#![tactic(auto)]

ghost use Rattle.std.specs.Prelude.{◌≡◌};
ghost use Rattle.grammar.specs.Grammar.{manager_place};
ghost use Rattle.sheet.specs.Sheet.{manager_at, sheet_data};
ghost use Rattle.channels.specs.Channels.{written, channels_after, channel_area};
ghost use Rattle.mailboxes.specs.Mailbox.{size_for, mailbox_size, later_of, recorded_of, slot_of, record_of, ConfiguresMailboxes};

use pdi::ByteLen;
use wire::Reason;

// A mailbox: its device address, its size, its sync manager's number.
#[derive(Clone, Copy, Debug, PartialEq, Eq)]
pub struct Mailbox {
    pub address: u16,
    pub len: ByteLen,
    pub sync_manager: u8,
}

// What the mailbox pass records.
#[derive(Clone, Copy, Debug, PartialEq, Eq)]
pub struct MailboxConfig {
    pub read: Option<Mailbox>,
    pub write: Option<Mailbox>,
    pub has_coe: bool,
    pub complete_access: bool,
}

// Writes a mailbox's sync manager: usage 1 with the receive size, usage 2 with the send size.
fn write_mailbox(channels: &mut [u8], sheet: &[u8], k: u8, receive: ByteLen, send: ByteLen)
    ensures { channels.new ≡ channel_area (written k (manager_at sheet.now (manager_place k)) (size_for receive.0 send.0 (manager_at sheet.now (manager_place k)))) channels.old }
{
    match sheet::usage_of(sheet, k) {
        1 => channels::write_channel(channels, sheet, k, receive),
        2 => channels::write_channel(channels, sheet, k, send),
        _ => {}
    }
}

// What is recorded after one more sync manager: itself if it has the usage, else what was recorded so far.
fn later(before: Option<Mailbox>, sheet: &[u8], k: u8, usage: u8, len: ByteLen) -> Option<Mailbox>
    ensures { slot_of result ≡ later_of usage len.0 (slot_of before) k (manager_at sheet.now (manager_place k)) }
{
    if sheet::usage_of(sheet, k) != usage {
        return before;
    }
    Some(Mailbox {
        address: sheet::start_of(sheet, k),
        len,
        sync_manager: k,
    })
}

// The mailboxes of a sheet: recorded, and their sync managers written.
fn mailboxes_of(sheet: &[u8], channels: &mut [u8]) -> MailboxConfig
    ensures { (record_of result ≡ recorded_of (sheet_data sheet.now)) × (channels.new ≡ channel_area (channels_after (mailbox_size (sheet_data sheet.now)) 0 (sheet_data sheet.now).managers) channels.old) }
{
    let receive = sheet::receive_size(sheet);
    let send = sheet::send_size(sheet);
    let mut read = None;
    let mut write = None;
    for k in 0..grammar::manager_count(sheet) {
        write_mailbox(channels, sheet, k, receive, send);
        write = later(write, sheet, k, 1, receive);
        read = later(read, sheet, k, 2, send);
    }
    MailboxConfig {
        read,
        write,
        has_coe: pdo::coe_on(sheet),
        complete_access: sheet::complete_access(sheet),
    }
}

// First stage: the mailboxes. Lent the sheet and the sync manager area.
pub fn configure_mailboxes(sheet: &[u8], channels: &mut [u8]) -> Result<MailboxConfig, Reason>
    ensures { ConfiguresMailboxes sheet.now channels.old result channels.new }
{
    if channels.len() != 128 {
        return Err(Reason::AreaLength);
    }
    sheet::check(sheet)?;
    if !sheet::has_mailbox(sheet) {
        return Ok(MailboxConfig {
            read: None,
            write: None,
            has_coe: false,
            complete_access: false,
        });
    }
    Ok(mailboxes_of(sheet, channels))
}
