// Translation through the FMMU bytes: from a logical address to a device address. Added by design; the crate has none.
#![tactic(auto)]

ghost use Rattle.std.specs.Prelude.{◌≡◌, map};
ghost use Rattle.translation.specs.Translate as meaning;
ghost use Rattle.translation.specs.Translate.{reached_of, said_of, translated_of, first_said, or_none};

use fmmu::Fmmu;
use pdi::ByteLen;
use pdo::PdoDirection;
use wire::Reason;

// A device address, or none over 65,535.
pub fn named(x: u64) -> Option<u16>
    ensures { reached_of result ≡ meaning.named x }
{
    u16::try_from(x).ok()
}

// Whether so many bytes from a start on hold an address.
pub fn within(start: u64, size: ByteLen, address: u32) -> bool
    ensures { result ≡ meaning.within start size.0 address }
{
    let at = u64::from(address);
    start <= at && at - start < u64::from(size.0)
}

// Whether an entry is enabled and has the direction's bit.
#[tactic(auto, unfolding(crate::specs::Translate::carries))]
fn carries(direction: PdoDirection, entry: Fmmu) -> bool
    ensures { result ≡ meaning.carries direction entry }
{
    match direction {
        PdoDirection::MasterRead => entry.enable && entry.read_enable,
        PdoDirection::MasterWrite => entry.enable && entry.write_enable,
    }
}

// 11: whether an entry of the direction isn't whole bytes.
#[tactic(auto, unfolding(crate::specs::Translate::odd))]
fn odd(direction: PdoDirection, image: [u8; 16]) -> bool
    ensures { result ≡ meaning.odd direction image }
{
    let entry = Fmmu::unpack(image);
    let whole_bytes = entry.logical_start_bit == 0
        && entry.logical_end_bit == 7
        && entry.physical_start_bit == 0;
    carries(direction, entry) && !whole_bytes
}

// What an entry says of an address: nothing, or, where it holds it, physical start + (address − start).
#[tactic(auto, unfolding(crate::specs::Translate::says))]
fn says(direction: PdoDirection, address: u32, image: [u8; 16]) -> Option<Option<u16>>
    ensures { said_of result ≡ meaning.says direction address image }
{
    let entry = Fmmu::unpack(image);
    let start = entry.logical_start_address;
    if carries(direction, entry) && within(u64::from(start), entry.length_bytes, address) {
        let at = u64::from(entry.physical_start_address) + u64::from(address - start);
        return Some(named(at));
    }
    None
}

// What the first of some entries that holds the address says.
fn first_said(entries: &[[u8; 16]], direction: PdoDirection, address: u32) -> Option<u16>
    ensures { reached_of result ≡ or_none (first_said (map (meaning.says direction address) entries.now)) }
{
    for &image in entries {
        if let Some(reached) = says(direction, address, image) {
            return reached;
        }
    }
    None
}

// The device address that a lent FMMU area names for a direction and a logical address.
pub fn translate(fmmus: &[u8], direction: PdoDirection, address: u32) -> Result<Option<u16>, Reason>
    ensures { translated_of result ≡ meaning.translate direction fmmus.now address }
{
    if fmmus.len() != 256 {
        return Err(Reason::AreaLength);
    }
    let (entries, _) = fmmus.as_chunks::<16>();
    if entries.iter().any(|&image| odd(direction, image)) {
        return Err(Reason::NotWholeBytes);
    }
    Ok(first_said(entries, direction, address))
}
