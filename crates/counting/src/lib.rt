// Counting through the sync managers: from a logical address to a sync manager's byte. Added by design; the crate has none.
#![tactic(auto)]

ghost use Rattle.std.specs.Prelude.{◌≡◌};
ghost use Rattle.grammar.specs.Grammar.{manager_place};
ghost use Rattle.sheet.specs.Sheet.{manager_at, managers_in};
ghost use Rattle.passes.specs.Handed.{pieces_by};
ghost use Rattle.counting.specs.Count as meaning;
ghost use Rattle.counting.specs.Found.{spot_here, LaysOut};
ghost use Rattle.counting.specs.Count.{found_of, counted_of};

use pdi::{ByteLen, PdiOffset};
use pdo::PdoDirection;
use wire::Reason;

// Where an address is reached: the sync manager, the byte within it, and the device address, if there is one.
#[derive(Clone, Copy, Debug, PartialEq, Eq)]
pub struct Position {
    pub sync_manager: u8,
    pub byte: u16,
    pub device: Option<u16>,
}

// Sizes laid one after another: where the last one ends, and where the address lies.
#[derive(Clone, Copy, Debug, PartialEq, Eq)]
struct Laid {
    end: u64,
    found: Option<Position>,
}

// Where an address lies in a sync manager of a size that starts at `start`, if it does.
fn position_in(start: u64, size: ByteLen, sheet: &[u8], k: u8, address: u32) -> Option<Position>
    ensures { found_of result ≡ spot_here start size.0 k (manager_at sheet.now (manager_place k)).start_addr address }
{
    if !translation::within(start, size, address) {
        return None;
    }
    let byte = u64::from(address) - start;
    Some(Position {
        sync_manager: k,
        // below the size, which is 16 bits
        byte: byte as u16,
        device: translation::named(u64::from(sheet::start_of(sheet, k)) + byte),
    })
}

// Lays the sizes of a usage's sync managers one after another from the offset on.
fn lay_out(sheet: &[u8], usage: u8, sizes: [ByteLen; 16], offset: PdiOffset, address: u32) -> Laid
    ensures { LaysOut (pieces_by usage sizes (managers_in sheet.now)) offset.start_address address result.end result.found }
{
    let mut end = u64::from(offset.start_address);
    let mut found = None;
    for k in 0..sheet::front_count(sheet) {
        if sheet::usage_of(sheet, k) == usage {
            let size = sizes[usize::from(k)];
            found = found.or(position_in(end, size, sheet, k, address));
            // a cast: of the library's From the proof knows no bound
            end += size.0 as u64;
        }
    }
    Laid { end, found }
}

// Counting, lent a multiplier for each PDO, of which one that is lacking is 1: 2 to 7, then 9, then where the address lies.
pub fn count(
    sheet: &[u8],
    multipliers: &[u8],
    offset: PdiOffset,
    direction: PdoDirection,
    address: u32,
) -> Result<Option<Position>, Reason>
    ensures { counted_of result ≡ meaning.count direction address sheet.now multipliers.now offset.start_address }
{
    let sizes = wanted::sizes_of(sheet, multipliers, direction)?;
    let laid = lay_out(
        sheet,
        direction.filter_terms().usage,
        sizes,
        offset,
        address,
    );
    PdiOffset::at(laid.end)?;
    Ok(laid.found)
}
