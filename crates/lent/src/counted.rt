// Counting, lent the table as a list of records.
ghost use Rattle.std.specs.Prelude.{◌≡◌};
ghost use Rattle.sheet.specs.Sheet.{sheet_data};
ghost use Rattle.pdo.specs.Bits.{multipliers_of};
ghost use Rattle.counting.specs.Count as meaning;
ghost use Rattle.counting.specs.Count.{counted_of};

use crate::multipliers;
use counting::Position;
use pdi::PdiOffset;
use pdo::{Oversampling, PdoDirection};
use wire::Reason;

// Where an address lies, by the sheet and the table.
pub fn count(
    sheet: &[u8],
    table: &[Oversampling],
    offset: PdiOffset,
    direction: PdoDirection,
    address: u32,
) -> Result<Option<Position>, Reason>
    ensures { counted_of result ≡ meaning.count direction address sheet.now (multipliers_of table.now (sheet_data sheet.now).pdos) offset.start_address }
{
    let mut room = None;
    let weights = multipliers(sheet, table, &mut room);
    counting::count(sheet, weights, offset, direction, address)
}
