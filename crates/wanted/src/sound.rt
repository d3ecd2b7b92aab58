// A sheet that keeps the rules, and what is read of one.
ghost use Rattle.std.specs.Prelude.{◌≡◌, true, false, ◌+◌, ◌≤◌, length, get_or};
ghost use Rattle.std.specs.Prelude.{sum as total, map};
ghost use Rattle.wire.specs.Lists.{sum};
ghost use Rattle.wire.specs.Outcome.{decide, outcome_by};
ghost use Rattle.grammar.specs.Grammar.{manager_count, usages_place, next_pdo, kind_fits, broken};
ghost use Rattle.sheet.specs.Device.{pdo_at};
ghost use Rattle.sheet.specs.Sheet.{sheet_refusals, sheet_data};
ghost use Rattle.pdo.specs.Bits.{by_coe};
ghost use Rattle.pdo.specs.Direction.{fmmu_usage_of};
ghost use Rattle.wanted.specs.ByKind.{kind_for, counted, bits_in, of_usage};
ghost use Rattle.wanted.specs.Paths.{rounded_in, some_size, first_place, lacks_entry, coe_route, coe_wants};
ghost use Rattle.wanted.specs.Wanted.{sized_of, wants_of};

use passes::{Both, Route, Wanted};
use pdi::{BitLen, ByteLen};
use pdo::PdoDirection;
use wire::Reason;

// The sum of the bytes of a part.
fn sum_bytes(part: &[u8]) -> u32
    requires { length part.now ≤ 255 }
    ensures sums { result ≡ total (map (λ b. b) part.now) }
    ensures most { result ≤ 65025 }
{
    part.iter().map(|&b| u32::from(b)).sum()
}

// The kind of PDO that counts for a sync manager of a usage: 0 on the CoE path, else its direction's.
fn kind_for(coe: bool, usage: u8) -> u8
    ensures { result ≡ kind_for «coe» usage }
{
    if coe {
        return 0;
    }
    let inputs = PdoDirection::MasterRead.filter_terms();
    if usage == inputs.usage {
        return inputs.kind;
    }
    PdoDirection::MasterWrite.filter_terms().kind
}

// The multiplier of a PDO; 1 where none is lent.
fn multiplier_at(multipliers: &[u8], i: usize) -> u8
    ensures { result ≡ get_or multipliers.now i 1 }
{
    multipliers.get(i).copied().unwrap_or(1)
}

// The bytes of a sheet that keeps the rules. The last two facts follow from those, and stand here since the readings rest on them.
#[derive(Drop)]
pub(crate) struct Sound<'a> {
    bytes: &'a [u8],
    ghost short: { length bytes.now ≤ 16386 },
    ghost whole: { broken bytes.now ≡ false },
    ghost few: { manager_count bytes.now ≤ 16 },
    ghost places: { usages_place bytes.now ≤ length bytes.now },
}

impl<'a> Sound<'a> {
    // A sheet's bytes, or the first of 2 to 5 that holds.
    pub(crate) fn checked(sheet: &'a [u8]) -> Result<Sound<'a>, Reason>
        ensures { outcome_by (λ s. s.bytes.now) result ≡ decide (sheet_refusals sheet.now) sheet.now }
    {
        sheet::check(sheet)?;
        Ok(Sound { bytes: sheet })
    }

    // Whether CoE is on.
    pub(crate) fn coe_on(&self) -> bool
        ensures { result ≡ by_coe (sheet_data self.now.bytes.now) }
    {
        pdo::coe_on(self.bytes)
    }

    // The bits of the PDO at a place.
    fn pdo_bits(&self, at: usize) -> u32
        requires within { next_pdo self.now.bytes.now at ≤ length self.now.bytes.now }
        requires kind { kind_fits (get_or self.now.bytes.now at 0) (get_or self.now.bytes.now (at + 4) 0) ≡ true }
        ensures { (result ≡ sum (pdo_at self.now.bytes.now at).lengths) × (result ≤ 65535) }
    {
        if self.bytes[at] == 0 {
            let end = at + grammar::PDO_BYTES + usize::from(self.bytes[at + grammar::PDO_COUNT]);
            return sum_bytes(&self.bytes[at + grammar::PDO_BYTES..end]);
        }
        u32::from(wire::be16(
            self.bytes[at + grammar::PDO_BYTES],
            self.bytes[at + grammar::PDO_SECOND_BYTE],
        ))
    }

    // Whether the PDO at a place counts: it names a sync manager with process data, and is of the kind for it.
    fn counts(&self, at: usize, coe: bool) -> bool
        requires { at + 5 ≤ length self.now.bytes.now }
        ensures { result ≡ counted (sheet_data self.now.bytes.now).managers «coe» (get_or self.now.bytes.now at 0)
            (get_or self.now.bytes.now (at + 1) 0) }
    {
        let manager = self.bytes[at + grammar::PDO_MANAGER];
        if grammar::manager_count(self.bytes) <= manager {
            return false;
        }
        let usage = self.bytes[grammar::manager_place(manager) + grammar::USAGE];
        pdo::is_data(usage) && self.bytes[at] == kind_for(coe, usage)
    }

    // The exact bits of each sync manager with process data: over the PDOs that count, bits times multiplier.
    pub(crate) fn tally(&self, coe: bool, multipliers: &[u8]) -> [BitLen; 16]
        ensures { result ≡ bits_in self.now.bytes.now «coe» multipliers.now }
    {
        let mut sums = [BitLen(0); 16];
        let mut place = grammar::pdos_place(self.bytes);
        for i in 0..usize::from(grammar::pdo_count(self.bytes)) {
            if self.counts(place, coe) {
                let slot = usize::from(self.bytes[place + grammar::PDO_MANAGER]);
                sums[slot].0 += self.pdo_bits(place) * u32::from(multiplier_at(multipliers, i));
            }
            place += grammar::PDO_BYTES + usize::from(self.bytes[place + grammar::PDO_COUNT]);
        }
        sums
    }

    // Those of the sync managers of a usage; 0 for any other.
    pub(crate) fn of_usage(&self, bits: [BitLen; 16], usage: u8) -> [BitLen; 16]
        ensures { result ≡ of_usage (sheet_data self.now.bytes.now).managers usage bits }
    {
        let mut out = [BitLen(0); 16];
        for k in 0..sheet::front_count(self.bytes) {
            if sheet::usage_of(self.bytes, k) == usage {
                out[usize::from(k)] = bits[usize::from(k)];
            }
        }
        out
    }

    // The place of the first FMMU entry with the usage.
    fn first_with(&self, usage: u8) -> Option<u8>
        ensures { result ≡ first_place usage (sheet_data self.now.bytes.now).usages }
    {
        let at = grammar::usages_place(self.bytes);
        for k in 0..grammar::usage_count(self.bytes) {
            if wire::byte_at(self.bytes, at + usize::from(k)) == usage {
                return Some(k);
            }
        }
        None
    }

    // The exact bits of the sync managers rounded up, each by itself, or 6.
    pub(crate) fn rounded(&self, bits: [BitLen; 16]) -> Result<[ByteLen; 16], Reason>
        ensures { sized_of result ≡ rounded_in (manager_count self.now.bytes.now) bits }
    {
        let mut sizes = [ByteLen(0); 16];
        for k in 0..usize::from(sheet::front_count(self.bytes)) {
            sizes[k] = bits[k].round_up()?;
        }
        Ok(sizes)
    }

    // Whether some sync manager of a usage has a size above 0.
    fn some_size(&self, usage: u8, sizes: [ByteLen; 16]) -> bool
        ensures { result ≡ some_size (sheet_data self.now.bytes.now).managers usage sizes }
    {
        for k in 0..sheet::front_count(self.bytes) {
            if sheet::usage_of(self.bytes, k) == usage && 0 < sizes[usize::from(k)].0 {
                return true;
            }
        }
        false
    }

    // A direction's entry: the first with its usage.
    fn first_entry(&self, direction: PdoDirection) -> Option<u8>
        ensures { result ≡ first_place (fmmu_usage_of direction) (sheet_data self.now.bytes.now).usages }
    {
        self.first_with(direction.filter_terms().fmmu_usage)
    }

    // 7: whether a direction has no entry though one of its sync managers has bits; its entry is handed on.
    fn lacks(&self, entry: Option<u8>, direction: PdoDirection, sizes: [ByteLen; 16]) -> bool
        requires { entry ≡ first_place (fmmu_usage_of direction) (sheet_data self.now.bytes.now).usages }
        ensures { result ≡ lacks_entry (sheet_data self.now.bytes.now) sizes direction }
    {
        entry.is_none() && self.some_size(direction.filter_terms().usage, sizes)
    }

    // The same, where nothing else needs the entry.
    pub(crate) fn no_entry(&self, direction: PdoDirection, sizes: [ByteLen; 16]) -> bool
        ensures { result ≡ lacks_entry (sheet_data self.now.bytes.now) sizes direction }
    {
        self.lacks(self.first_entry(direction), direction, sizes)
    }

    // On the CoE path all of a direction use its entry; where it has none, a number past the last.
    fn coe_route(&self, entry: Option<u8>) -> Route
        ensures { (direction : PdoDirection) → entry ≡ first_place (fmmu_usage_of direction) (sheet_data self.now.bytes.now).usages
            → result ≡ coe_route (sheet_data self.now.bytes.now) direction }
    {
        Route::Given([entry.unwrap_or(grammar::usage_count(self.bytes)); 16])
    }

    // What a call wants on the CoE path: 7 where a direction that has bits has no entry. Each is looked for once.
    pub(crate) fn by_coe(&self, sizes: [ByteLen; 16]) -> Result<Wanted, Reason>
        ensures { wants_of result ≡ coe_wants (sheet_data self.now.bytes.now) sizes }
    {
        let inputs = self.first_entry(PdoDirection::MasterRead);
        let outputs = self.first_entry(PdoDirection::MasterWrite);
        if self.lacks(inputs, PdoDirection::MasterRead, sizes)
            || self.lacks(outputs, PdoDirection::MasterWrite, sizes)
        {
            return Err(Reason::NoEntry);
        }
        Ok(Wanted {
            sizes,
            routes: Both {
                inputs: self.coe_route(inputs),
                outputs: self.coe_route(outputs),
            },
        })
    }
}
