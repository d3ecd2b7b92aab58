// Old entries, before a call is laid: those of both directions are cleared, and it is found whether another is in the way.
ghost use Rattle.std.specs.Prelude.{◌≡◌, ◌||◌, get_or, []};
ghost use Rattle.std.specs.List.{list_any};
ghost use Rattle.fmmu.specs.Image.{fields_of};
ghost use Rattle.sheet.specs.Sheet.{managers_in};
ghost use Rattle.passes.specs.Old.{both_bits, some_enabled};
ghost use Rattle.passes.specs.Entries.{uses_of_both};
ghost use Rattle.passes.specs.Handed.{uses_by_both};
ghost use Rattle.entries.specs.Lay.{uses_of};
ghost use Rattle.entries.specs.Ready.{on, old_one, Clears, Readies};

use crate::uses::Uses;
use fmmu::Fmmu;
use passes::{OldEntries, Wanted};
use pdo::PdoDirection;

// Whether an entry is an old one: enabled, with one direction's bit alone.
fn is_old(image: [u8; 16]) -> bool
    ensures { result ≡ old_one image }
{
    let entry = Fmmu::unpack(image);
    entry.enable && entry.read_enable != entry.write_enable
}

// Whether an entry is enabled.
fn is_on(image: [u8; 16]) -> bool
    ensures { result ≡ on image }
{
    Fmmu::unpack(image).enable
}

// Whether an entry is enabled and has both bits.
fn has_both(image: [u8; 16]) -> bool
    ensures { result ≡ both_bits image }
{
    let entry = Fmmu::unpack(image);
    entry.enable && entry.read_enable && entry.write_enable
}

// What is still enabled after the clearing: whether any entry is, and whether one has both bits.
#[derive(Clone, Copy, Debug, PartialEq, Eq)]
struct Left {
    enabled: bool,
    both: bool,
}

// Clears each old entry of either direction: it is set to zero, all sixteen bytes of it. Answers what is still enabled, asked in the
// same walk: of an entry that is disabled, as most are, nothing more is asked.
fn clear_old(entries: &mut [[u8; 16]; 16]) -> Left
    ensures { Clears entries.old entries.new result.enabled result.both }
{
    let mut left = Left {
        enabled: false,
        both: false,
    };
    for entry in entries.iter_mut() {
        if is_on(*entry) {
            if is_old(*entry) {
                *entry = [0u8; 16];
            } else {
                left.enabled = true;
                left.both = has_both(*entry) | left.both;
            }
        }
    }
    left
}

// Whether the entry with a number is enabled; a number past the last one is no entry.
fn enabled_at(entries: &[[u8; 16]; 16], e: usize) -> bool
    ensures { result ≡ (fields_of (get_or entries.now e [])).enable }
{
    e < 16 && Fmmu::unpack(entries[e]).enable
}

// Whether an entry that a direction uses is enabled.
fn some_enabled(entries: &[[u8; 16]; 16], uses: &Uses) -> bool
    ensures { result ≡ some_enabled (uses_of uses.now) entries.now }
{
    for k in 0..sheet::front_count(uses.sheet) {
        if let Some(e) = uses.entry(k) {
            if enabled_at(entries, e) {
                return true;
            }
        }
    }
    false
}

// Whether an entry that either direction uses is enabled.
fn some_wanted(entries: &[[u8; 16]; 16], sheet: &[u8], wanted: Wanted) -> bool
    ensures { result ≡ some_enabled (uses_of_both (uses_by_both wanted (managers_in sheet.now))) entries.now }
{
    some_enabled(entries, &Uses::of(sheet, wanted, PdoDirection::MasterRead))
        || some_enabled(entries, &Uses::of(sheet, wanted, PdoDirection::MasterWrite))
}

// 15 of cleared entries, of which it is known what is left: whether one has both bits, or is one that the call uses and still enabled.
fn is_blocked(entries: &[[u8; 16]; 16], sheet: &[u8], wanted: Wanted, left: Left) -> bool
    requires { left.enabled ≡ list_any on entries.now }
    ensures { result ≡ left.both || some_enabled (uses_of_both (uses_by_both wanted (managers_in sheet.now))) entries.now }
{
    left.both || (left.enabled && some_wanted(entries, sheet, wanted))
}

// Makes the entries ready for a call: by default the old ones of both directions are cleared. Answers whether one is in the way then.
pub(crate) fn make_ready(
    entries: &mut [[u8; 16]; 16],
    sheet: &[u8],
    wanted: Wanted,
    old: OldEntries,
) -> bool
    ensures { Readies old (uses_of_both (uses_by_both wanted (managers_in sheet.now))) entries.old entries.new result }
{
    if let OldEntries::Keep = old {
        return false;
    }
    let left = clear_old(entries);
    if is_blocked(entries, sheet, wanted, left) {
        // nothing of them will be written, and 8 counts from zero
        *entries = [[0u8; 16]; 16];
        return true;
    }
    false
}
