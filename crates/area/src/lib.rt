// A register area, sixteen entries one after the other: an entry read out, and bytes stored in place.
#![tactic(auto)]

ghost use Rattle.std.specs.Prelude.{◌≡◌, cond, length};
ghost use Rattle.area.specs.Area.{area_of, entries_of, entry_at, stored_at, flat, not_entries};

// The entry with a number, of N bytes; 0 where the area isn't sixteen such entries, or the number is past the last.
pub fn entry_at<const N: usize>(area: &[u8], k: usize) -> [u8; N]
    ensures { result ≡ entry_at N area.now k }
{
    let mut out = [0u8; N];
    // sixteen times N may not fit a usize
    if area.len() / 16 == N && area.len() % 16 == 0 && k < 16 {
        out.copy_from_slice(&area[k * N..k * N + N]);
    }
    out
}

// Stores an entry from a place on; where it has no room there, the area stays.
pub fn store(entry: &[u8], area: &mut [u8], at: usize)
    ensures { area.new ≡ stored_at at entry.now area.old }
{
    if at <= area.len() && entry.len() <= area.len() - at {
        area[at..at + entry.len()].copy_from_slice(entry);
    }
}

// Puts bytes over as many others, one by one: for an entry that is less work than `copy_from_slice`, which looks whether the two overlap.
fn put(from: &[u8], to: &mut [u8])
    requires { length from.now ≡ length to.old }
    ensures { to.new ≡ from.now }
{
    for (k, byte) in to.iter_mut().enumerate() {
        *byte = from[k];
    }
}

// Stores one entry, as `store` does bytes of any number.
pub fn store_entry(entry: &[u8], area: &mut [u8], at: usize)
    ensures { area.new ≡ stored_at at entry.now area.old }
{
    if at <= area.len() && entry.len() <= area.len() - at {
        put(entry, &mut area[at..at + entry.len()]);
    }
}

// Puts the sixteen FMMU entries of an area into a lent array; all 0 where it isn't 256 bytes.
pub fn load(area: &[u8], entries: &mut [[u8; 16]; 16])
    ensures { entries.new ≡ entries_of 16 (area_of 256 area.now) }
{
    for (k, entry) in entries.iter_mut().enumerate() {
        *entry = entry_at(area, k);
    }
}

// Writes sixteen FMMU entries over an area; one that isn't 256 bytes stays.
pub fn store_all(entries: &[[u8; 16]; 16], area: &mut [u8])
    ensures { area.new ≡ cond (not_entries area.old) area.old (flat entries.now) }
{
    if area.len() == 256 {
        for (k, entry) in entries.iter().enumerate() {
            store_entry(entry, area, 16 * k);
        }
    }
}
