// The FMMU entries of a call: `write_fmmu_config` of configuration.rs, over a whole area.
#![tactic(auto)]

ghost use Rattle.std.specs.Prelude.{◌≡◌, ◌<◌, ◌≤◌};
ghost use Rattle.wire.specs.Outcome.{outcome_by};
ghost use Rattle.sheet.specs.Sheet.{managers_in};
ghost use Rattle.passes.specs.Handed.{uses_by_both, Short};
ghost use Rattle.passes.specs.Start.{outputs_from, planned_of, configured_of};
ghost use Rattle.passes.specs.Entries as Entries;
ghost use Rattle.passes.specs.Entries.{WritesEntries};
ghost use Rattle.entries.specs.Lay.{use_at, uses_of, grown_to, laid_one, Lays, laid_both, ends_of, standing, standing_to, then_in_the_way};

mod ready;
mod uses;

use fmmu::Fmmu;
use passes::{Both, Mapping, OutputStart, Settings, Wanted};
use pdi::{ByteLen, PdiOffset, PdiSegment};
use pdo::PdoDirection;
use uses::Uses;
use wire::Reason;

// An enabled entry only has the size added, or has no room for it.
fn grown(before: Fmmu, size: ByteLen) -> Result<Fmmu, Reason>
    ensures { outcome_by (λ f. f) result ≡ grown_to before size.0 }
{
    let sum = before
        .length_bytes
        .0
        .checked_add(size.0)
        .ok_or(Reason::EntryTooLong)?;
    Ok(Fmmu {
        length_bytes: ByteLen(sum),
        ..before
    })
}

// A disabled entry is made new.
fn mapped(start: u32, size: ByteLen, at: u16, direction: PdoDirection) -> Fmmu
    ensures { result ≡ Entries.mapped direction start size.0 at }
{
    let read = matches!(direction, PdoDirection::MasterRead);
    Fmmu {
        logical_start_address: start,
        length_bytes: size,
        logical_start_bit: 0,
        logical_end_bit: 7,
        physical_start_address: at,
        physical_start_bit: 0,
        read_enable: read,
        write_enable: !read,
        enable: true,
    }
}

// Lays one sync manager into its entry; a number past the last one is no entry.
fn lay_one(
    entries: &mut [[u8; 16]; 16],
    e: usize,
    start: u32,
    size: ByteLen,
    at: u16,
    direction: PdoDirection,
) -> Result<(), Reason>
    ensures { outcome_by (λ u. entries.new) result ≡ laid_one direction start (use_at e size.0 at) entries.old }
{
    if e < 16 {
        let before = Fmmu::unpack(entries[e]);
        // each is packed by itself: of one that is made new most bytes are constants
        entries[e] = if before.enable {
            grown(before, size)?.pack()
        } else {
            mapped(start, size, at, direction).pack()
        };
    }
    Ok(())
}

// Lays the uses of a direction one after another into the entries, from a start on. Answers where they end, exactly; or 8.
fn lay(entries: &mut [[u8; 16]; 16], uses: &Uses, start: u64) -> Result<u64, Reason>
    requires { Short entries.old × (start < 0x2_0000_0000) }
    ensures { Lays uses.now.direction start (uses_of uses.now) entries.old result entries.new }
{
    let mut end = start;
    for k in 0..sheet::front_count(uses.sheet) {
        if let Some(e) = uses.entry(k) {
            let size = uses.sizes[usize::from(k)];
            // 9 is judged after 8: until then the start may be past the last address
            let from = (end % 0x1_0000_0000) as u32;
            let at = sheet::start_of(uses.sheet, k);
            lay_one(entries, e, from, size, at, uses.direction)?;
            end += size.0 as u64;
        }
    }
    Ok(end)
}

// Where the outputs start: at their own offset, or where the inputs end.
fn outputs_from(how: OutputStart, given: u64, end: u64) -> u64
    ensures { result ≡ outputs_from how given end }
{
    match how {
        OutputStart::Given => given,
        OutputStart::AfterInputs => end,
    }
}

// Lays the inputs into the entries and then the outputs. Answers where both end, exactly; or 8.
fn lay_both(
    entries: &mut [[u8; 16]; 16],
    sheet: &[u8],
    wanted: Wanted,
    offsets: Both<PdiOffset>,
    how: OutputStart,
) -> Result<Both<u64>, Reason>
    requires { Short entries.old }
    ensures { ends_of result entries.new ≡ laid_both how offsets (uses_by_both wanted (managers_in sheet.now)) entries.old }
{
    let from = u64::from(offsets.inputs.start_address);
    let read = Uses::of(sheet, wanted, PdoDirection::MasterRead);
    let inputs = lay(entries, &read, from)?;
    let start = outputs_from(how, u64::from(offsets.outputs.start_address), inputs);
    let written = Uses::of(sheet, wanted, PdoDirection::MasterWrite);
    let outputs = lay(entries, &written, start)?;
    Ok(Both { inputs, outputs })
}

// Where a direction stands, counted from the group start, and the offset after it.
fn between(start: u64, end: u64, group: u64) -> Mapping
    requires { (group ≤ start) × (start ≤ end) × (end ≤ 0xffff_ffff) }
    ensures { planned_of result ≡ standing start end group }
{
    // all three fit, as nothing is above the end
    Mapping {
        segment: PdiSegment {
            start: (start - group) as u32,
            end: (end - group) as u32,
        },
        next: PdiOffset {
            start_address: end as u32,
        },
    }
}

// Where inputs and outputs stand that end there: 9 of either, then 10 of either.
fn segments_to(
    ends: Both<u64>,
    offsets: Both<PdiOffset>,
    settings: Settings,
) -> Result<Both<Mapping>, Reason>
    requires { (offsets.inputs.start_address ≤ ends.inputs) × (outputs_from settings.outputs offsets.outputs.start_address ends.inputs ≤ ends.outputs) }
    ensures { configured_of result ≡ standing_to ends.inputs ends.outputs settings.outputs offsets settings.group }
{
    let group = u64::from(settings.group);
    let inputs = u64::from(offsets.inputs.start_address);
    let given = u64::from(offsets.outputs.start_address);
    let outputs = outputs_from(settings.outputs, given, ends.inputs);
    if 0xffff_ffff < ends.inputs || 0xffff_ffff < ends.outputs {
        return Err(Reason::PastLastAddress);
    }
    // straight after the inputs, the outputs are below the group start only where those are
    if inputs < group || outputs < group {
        return Err(Reason::BelowGroup);
    }
    Ok(Both {
        inputs: between(inputs, ends.inputs, group),
        outputs: between(outputs, ends.outputs, group),
    })
}

// 15, unless something before it was found.
fn unless_in_the_way(
    answer: Result<Both<Mapping>, Reason>,
    blocked: bool,
) -> Result<Both<Mapping>, Reason>
    ensures { configured_of result ≡ then_in_the_way blocked (configured_of answer) }
{
    if !blocked {
        return answer;
    }
    match answer {
        Ok(_) => Err(Reason::EntryInTheWay),
        Err(reason) => Err(reason),
    }
}

// Writes the entries of both directions into a lent FMMU area, or refuses with 1, 8, 9, 10 or 15 and writes nothing.
pub fn write_entries(
    area: &mut [u8],
    sheet: &[u8],
    wanted: Wanted,
    offsets: Both<PdiOffset>,
    settings: Settings,
) -> Result<Both<Mapping>, Reason>
    ensures { WritesEntries (uses_by_both wanted (managers_in sheet.now)) offsets settings area.old result area.new }
{
    if area.len() != 256 {
        return Err(Reason::AreaLength);
    }
    let mut entries = [[0u8; 16]; 16];
    area::load(area, &mut entries);
    let blocked = ready::make_ready(&mut entries, sheet, wanted, settings.old);
    let ends = lay_both(&mut entries, sheet, wanted, offsets, settings.outputs)?;
    let mapped = unless_in_the_way(segments_to(ends, offsets, settings), blocked)?;
    area::store_all(&entries, area);
    Ok(mapped)
}
