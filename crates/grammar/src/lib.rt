// The rules of the device sheet that look at its bytes alone: its length, its counts and values, its PDO records.
#![tactic(auto)]

ghost use Rattle.std.specs.Prelude.{◌≡◌, ◌≤◌, length};
ghost use Rattle.grammar.specs.Length.{wrong_length};
ghost use Rattle.grammar.specs.Grammar.{manager_count, usage_count, pdo_count, manager_place, usages_place, pdos_place, pdos_end, kind_fits, pdos_fit, some_manager_wrong, some_usage_wrong, broken};

// 2: whether the length is wrong.
#[tactic(auto, unfolding(crate::specs::Length::wrong_length))]
pub fn wrong_length(sheet: &[u8]) -> bool
    ensures { result ≡ wrong_length sheet.now }
{
    if sheet.len() < 2 {
        return true;
    }
    let follow = usize::from(u16::from_be_bytes([sheet[0], sheet[1]]));
    sheet.len() != follow + 2 || follow < 9 || 16384 < follow
}

// How many bytes stand before the sync managers, and how many each of these has.
pub const HEAD_BYTES: usize = 11;

pub const MANAGER_BYTES: usize = 5;

// Where the parts of a sync manager stand in it: start address (2), control, EEPROM enable, usage.
pub const CONTROL: usize = 2;

pub const ENABLE: usize = 3;

pub const USAGE: usize = 4;

// Where the parts of a PDO stand in it: kind, sync manager number, PDO index (2, the high byte first), count m; then its m bytes.
pub const PDO_MANAGER: usize = 1;

pub const PDO_INDEX: usize = 2;

pub const PDO_INDEX_LOW: usize = 3;

pub const PDO_COUNT: usize = 4;

pub const PDO_BYTES: usize = 5;

pub const PDO_SECOND_BYTE: usize = 6;

// 8: how many sync managers; 9: how many FMMU usages; 10: how many PDOs.
pub fn manager_count(sheet: &[u8]) -> u8
    ensures { result ≡ manager_count sheet.now }
{
    wire::byte_at(sheet, 8)
}

pub fn usage_count(sheet: &[u8]) -> u8
    ensures { result ≡ usage_count sheet.now }
{
    wire::byte_at(sheet, 9)
}

pub fn pdo_count(sheet: &[u8]) -> u8
    ensures { result ≡ pdo_count sheet.now }
{
    wire::byte_at(sheet, 10)
}

// Where the sync manager with a number stands.
pub fn manager_place(k: u8) -> usize
    ensures { (result ≡ manager_place k) × (result ≤ 1286) }
{
    HEAD_BYTES + MANAGER_BYTES * usize::from(k)
}

// Where the FMMU usages stand.
pub fn usages_place(sheet: &[u8]) -> usize
    ensures { (result ≡ usages_place sheet.now) × (result ≤ 1286) }
{
    manager_place(manager_count(sheet))
}

// Where the PDOs stand.
pub fn pdos_place(sheet: &[u8]) -> usize
    ensures { (result ≡ pdos_place sheet.now) × (result ≤ 1541) }
{
    usages_place(sheet) + usize::from(usage_count(sheet))
}

// 4: whether another rule is broken that bytes alone decide. A sheet that ends before its counts breaks one.
#[tactic(auto, unfolding(crate::specs::Grammar::broken))]
pub fn rule_broken(sheet: &[u8]) -> bool
    ensures { result ≡ broken sheet.now }
{
    // asked once, so that no byte of the head is asked for anew
    if sheet.len() < HEAD_BYTES {
        return true;
    }
    let n = manager_count(sheet);
    let f = usage_count(sheet);
    let pdos = pdos_place(sheet);
    7 < wire::byte_at(sheet, 3)
        || 16 < n
        || 16 < f
        || sheet.len() < pdos
        || some_manager_wrong(sheet)
        || some_usage_wrong(sheet)
        || !pdos_fit(sheet, pdo_count(sheet), pdos)
}

// Whether some sync manager has a usage that isn't 0 to 4.
fn some_manager_wrong(sheet: &[u8]) -> bool
    requires { usages_place sheet.now ≤ length sheet.now }
    ensures { result ≡ some_manager_wrong sheet.now }
{
    // by number: chunks cost an instruction more for each
    for k in 0..manager_count(sheet) {
        if 4 < sheet[manager_place(k) + USAGE] {
            return true;
        }
    }
    false
}

// Whether some FMMU usage isn't 0 to 3.
fn some_usage_wrong(sheet: &[u8]) -> bool
    requires { pdos_place sheet.now ≤ length sheet.now }
    ensures { result ≡ some_usage_wrong sheet.now }
{
    sheet[usages_place(sheet)..pdos_place(sheet)]
        .iter()
        .any(|&usage| 3 < usage)
}

// Whether p PDO records stand from `at` on, none past the end and nothing after the last one.
fn pdos_fit(bytes: &[u8], p: u8, at: usize) -> bool
    requires { at ≤ 1541 }
    ensures { result ≡ pdos_fit bytes.now p at }
{
    // a head stands whole up to here; a record that ends past the bytes leaves none there, nor an end
    let Some(last) = bytes.len().checked_sub(PDO_BYTES) else {
        return p == 0 && at == bytes.len();
    };
    let mut place = at;
    for _ in 0..p {
        // one test, and its bytes by index: `get` would ask too that the place doesn't wrap
        if last < place {
            return false;
        }
        let m = bytes[place + PDO_COUNT];
        if !kind_fits(bytes[place], m) {
            return false;
        }
        place += PDO_BYTES + usize::from(m);
    }
    place == bytes.len()
}

// Whether bytes are p whole PDO records, each kind going with its count, and nothing after the last one.
pub fn are_pdos(bytes: &[u8], p: u8) -> bool
    ensures { result ≡ pdos_fit bytes.now p 0 }
{
    pdos_fit(bytes, p, 0)
}

// Where the last of p PDO records ends that stand from the front on, by their own counts; a count past the bytes is 0.
pub fn pdos_end(bytes: &[u8], p: u8) -> usize
    ensures { (result ≡ pdos_end bytes.now p 0) × (result ≤ 66300) }
{
    let mut place = 0;
    for _ in 0..p {
        // one sum: with `+=` each record costs two instructions more
        place = place + PDO_BYTES + usize::from(wire::byte_at(bytes, place + PDO_COUNT));
    }
    place
}

// Whether a PDO's kind goes with its count.
#[tactic(auto, unfolding(crate::specs::Grammar::kind_fits))]
fn kind_fits(kind: u8, m: u8) -> bool
    ensures { result ≡ kind_fits kind m }
{
    match kind {
        0 => true,
        1 | 2 => m == 2,
        _ => false,
    }
}
