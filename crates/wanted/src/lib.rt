// Which sync managers a call wants, with which sizes, and by which path: configuration.rs up to the first register that it writes.
#![tactic(auto)]

ghost use Rattle.std.specs.Prelude.{◌≡◌, true, false, get_or, set};
ghost use Rattle.sheet.specs.Sheet.{sheet_data};
ghost use Rattle.passes.specs.Pairs.{number_above};
ghost use Rattle.wanted.specs.Paths.{pairs_read, eeprom_wants};
ghost use Rattle.wanted.specs.Judged.{uses_in, comes_again, with_use, Surveys, some_past_last, some_shared, bad_choice};
ghost use Rattle.wanted.specs.Wanted.{Sized, Wants};

mod sound;

use passes::{Both, Chosen, FmmuMode, Route, Wanted};
use pdi::{BitLen, ByteLen};
use pdo::PdoDirection;
use sound::Sound;
use wire::Reason;

// What counting wants of a sheet: the sizes of a direction's sync managers, or the first of 2 to 7 that holds. Lent a multiplier for each PDO; one that is
// lacking is 1.
pub fn sizes_of(
    sheet: &[u8],
    multipliers: &[u8],
    direction: PdoDirection,
) -> Result<[ByteLen; 16], Reason>
    ensures { Sized sheet.now multipliers.now direction result }
{
    let sound = Sound::checked(sheet)?;
    let coe = sound.coe_on();
    let bits = sound.tally(coe, multipliers);
    let sizes = sound.rounded(sound.of_usage(bits, direction.filter_terms().usage))?;
    if coe && sound.no_entry(direction, sizes) {
        return Err(Reason::NoEntry);
    }
    Ok(sizes)
}

// The uses of entries that are seen so far: which entries are used, the first one's, and whether one is left for another and come back to.
#[derive(Clone, Copy, Debug, PartialEq, Eq)]
struct Entered {
    used: [bool; 16],
    // no Option: before the first use no entry is used, so it decides nothing
    first: u8,
    interrupted: bool,
}

// Whether an entry is used; a number past the last one is no entry.
fn is_used(used: [bool; 16], entry: u8) -> bool
    ensures { result ≡ get_or used entry false }
{
    used.get(usize::from(entry)).copied().unwrap_or(false)
}

// Whether an entry is come back to, once a use of one is seen in front of the others.
fn comes_again(seen: Entered, entry: u8) -> bool
    ensures { result ≡ comes_again seen entry }
{
    seen.interrupted || (seen.first != entry && is_used(seen.used, entry))
}

// The entries that are used once one more is.
fn with_entry(used: [bool; 16], entry: u8) -> [bool; 16]
    ensures { result ≡ set used entry true }
{
    let mut after = used;
    if entry < 16 {
        after[usize::from(entry)] = true;
    }
    after
}

// What is known once a use is seen in front of the others.
fn with_use(seen: Entered, entry: u8) -> Entered
    ensures { result ≡ with_use seen entry }
{
    Entered {
        used: with_entry(seen.used, entry),
        first: entry,
        interrupted: comes_again(seen, entry),
    }
}

// The entry of each number that has bits, from the last number to the first.
fn survey(bits: [BitLen; 16], entries: [u8; 16]) -> Entered
    ensures { Surveys (uses_in entries bits) result }
{
    let mut seen = Entered {
        used: [false; 16],
        first: 0,
        interrupted: false,
    };
    for k in (0..16).rev() {
        if 0 < bits[k].0 {
            seen = with_use(seen, entries[k]);
        }
    }
    seen
}

// Whether some entry is used by both.
fn some_shared(one: [bool; 16], two: [bool; 16]) -> bool
    ensures { result ≡ some_shared one two }
{
    one.iter().zip(&two).any(|(&a, &b)| a && b)
}

// Whether an entry of the sixteen is none.
fn some_past_last(entries: [u8; 16]) -> bool
    ensures { result ≡ some_past_last entries }
{
    entries.iter().any(|&entry| 15 < entry)
}

// Whether a number above 15 was handed on.
fn number_above(chosen: Chosen) -> bool
    ensures { result ≡ number_above chosen }
{
    chosen.above || some_past_last(chosen.entries)
}

// 18: a number above 15, an entry of both directions, or one of a direction left for another and come back to.
fn bad_pairs(sound: &Sound, bits: [BitLen; 16], chosen: Chosen) -> bool
    ensures { result ≡ bad_choice chosen (sheet_data sound.now.bytes.now).managers bits }
{
    if number_above(chosen) {
        return true; // no list is looked at
    }
    let inputs = PdoDirection::MasterRead.filter_terms().usage;
    let these = survey(sound.of_usage(bits, inputs), chosen.entries);
    if these.interrupted {
        return true; // nor the outputs'
    }
    let outputs = PdoDirection::MasterWrite.filter_terms().usage;
    let those = survey(sound.of_usage(bits, outputs), chosen.entries);
    those.interrupted || some_shared(these.used, those.used)
}

// Whether the pairs are read: by the mode that asks for them, and not on the CoE path.
fn by_pairs(coe: bool, mode: FmmuMode) -> bool
    ensures { result ≡ pairs_read «coe» mode }
{
    match mode {
        FmmuMode::OwnNumber => false,
        FmmuMode::Paired => !coe,
    }
}

// By EEPROM both directions go by own numbers, or by the chosen entries.
fn by_eeprom(mode: FmmuMode, chosen: Chosen, sizes: [ByteLen; 16]) -> Wanted
    ensures { result ≡ eeprom_wants mode chosen sizes }
{
    let route = match mode {
        FmmuMode::OwnNumber => Route::Own,
        FmmuMode::Paired => Route::Given(chosen.entries),
    };
    Wanted {
        sizes,
        routes: Both {
            inputs: route,
            outputs: route,
        },
    }
}

// What a call wants of a sheet, read once for both directions. Lent a multiplier for each PDO; one that is lacking is 1.
pub fn wanted_of(
    sheet: &[u8],
    multipliers: &[u8],
    mode: FmmuMode,
    chosen: Chosen,
) -> Result<Wanted, Reason>
    ensures { Wants mode chosen sheet.now multipliers.now result }
{
    let sound = Sound::checked(sheet)?;
    let coe = sound.coe_on();
    let bits = sound.tally(coe, multipliers);
    if by_pairs(coe, mode) && bad_pairs(&sound, bits, chosen) {
        return Err(Reason::BadPairs);
    }
    let sizes = sound.rounded(bits)?;
    if coe {
        return sound.by_coe(sizes);
    }
    Ok(by_eeprom(mode, chosen, sizes))
}
