// The oversampling table, a lent list of records: its first match, and one multiplier for each PDO of a sheet.
#![tactic(auto)]

ghost use Rattle.std.specs.Prelude.{◌≡◌, ◌+◌, ◌≤◌, ◌<◌, ◌^◌};
ghost use Rattle.wire.specs.Room.{over};
ghost use Rattle.sheet.specs.Device.{pdo_at, next_pdo};
ghost use Rattle.sheet.specs.Sheet.{sheet_data};
ghost use Rattle.pdo.specs.Bits.{multiplier_of, multipliers_of};

use pdo::Oversampling;

// The multiplier of the first record with the index, 1 where there is none.
pub fn multiplier_of(table: &[Oversampling], index: u16) -> u8
    ensures { result ≡ multiplier_of table.now index }
{
    for record in table {
        if record.pdo_index == index {
            return record.multiplier;
        }
    }
    1
}

// The index of the PDO at a place.
fn index_at(sheet: &[u8], at: usize) -> u16
    requires { at < 2 ^ 32 }
    ensures { result ≡ (pdo_at sheet.now at).index }
{
    u16::from_be_bytes([
        wire::byte_at(sheet, at + grammar::PDO_INDEX),
        wire::byte_at(sheet, at + grammar::PDO_INDEX_LOW),
    ])
}

// Where the next one stands.
fn next_pdo(sheet: &[u8], at: usize) -> usize
    requires { at < 2 ^ 32 }
    ensures { (result ≡ next_pdo sheet.now at) × (result ≤ at + 260) }
{
    at + grammar::PDO_BYTES + usize::from(wire::byte_at(sheet, at + grammar::PDO_COUNT))
}

// One multiplier for each PDO of a sheet, in its order, over the front of a list.
pub fn multipliers_for(table: &[Oversampling], sheet: &[u8], out: &mut [u8; 255])
    ensures { out.new ≡ over (multipliers_of table.now (sheet_data sheet.now).pdos) out.old }
{
    let front = &mut out[..usize::from(grammar::pdo_count(sheet))];
    let mut place = grammar::pdos_place(sheet);
    for multiplier in front.iter_mut() {
        *multiplier = multiplier_of(table, index_at(sheet, place));
        place = next_pdo(sheet, place);
    }
}
