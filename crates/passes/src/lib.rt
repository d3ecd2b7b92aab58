// What the parts of a call hand to one another; what a call means stands in specs/.
#![tactic(auto)]

ghost use Rattle.std.specs.Prelude.{◌≡◌};
ghost use Rattle.passes.specs.declared.FmmuMode.TheVariants as mode;
ghost use Rattle.passes.specs.declared.OutputStart.TheVariants as start;
ghost use Rattle.passes.specs.Old as Old;
ghost use Rattle.passes.specs.Use.{nothing_chosen};

use pdi::{ByteLen, PdiOffset, PdiSegment};

// One thing for each direction: offsets, routes, mappings, segments.
#[derive(Clone, Copy, Debug, PartialEq, Eq)]
pub struct Both<T> {
    pub inputs: T,
    pub outputs: T,
}

// Which entry a sync manager uses: the one with its own number, also at 0 bits; or the one given for its number, with bits only.
#[derive(Clone, Copy, Debug, PartialEq, Eq)]
pub enum Route {
    Own,
    Given([u8; 16]),
}

// What a call wants: a size for each sync manager with process data, and each direction's route.
#[derive(Clone, Copy, Debug, PartialEq, Eq)]
pub struct Wanted {
    pub sizes: [ByteLen; 16],
    pub routes: Both<Route>,
}

// A pair: an FMMU number, and the number of the sync manager that it is for.
#[derive(Clone, Copy, Debug, PartialEq, Eq)]
pub struct FmmuPair {
    pub fmmu: u8,
    pub sync_manager: u8,
}

// Which entry the EEPROM path uses: the one with the sync manager's own number, as the crate has it, or the one that a list
// of pairs gives.
#[derive(Clone, Copy, Debug, PartialEq, Eq)]
pub enum FmmuMode {
    OwnNumber,
    Paired,
}

// What a list of pairs hands on: the entry of each of sixteen sync managers, and whether a number of the list is above 15. No
// Option: what a call means (`chosen_of`, `number_above`, `paired`) speaks of the entries whatever the flag says.
#[derive(Clone, Copy, Debug, PartialEq, Eq)]
pub struct Chosen {
    pub entries: [u8; 16],
    pub above: bool,
}

impl Chosen {
    // Nothing: what is handed on where no pairs are read.
    pub fn none() -> Chosen
        ensures { result ≡ nothing_chosen }
    {
        Chosen {
            entries: [0u8; 16],
            above: false,
        }
    }
}

// What a call does with entries that it finds enabled: it clears those that carry one direction's bit alone and refuses what
// else is in its way, or it adds to whatever is there.
#[derive(Clone, Copy, Debug, PartialEq, Eq)]
pub enum OldEntries {
    Clear,
    Keep,
}

// Where the outputs start: at the offset that is lent for them, or straight after the inputs.
#[derive(Clone, Copy, Debug, PartialEq, Eq)]
pub enum OutputStart {
    Given,
    AfterInputs,
}

// How a call is made: its group's start, what becomes of old entries, which entries the EEPROM path uses, and where the
// outputs start.
#[derive(Clone, Copy, Debug, PartialEq, Eq)]
pub struct Settings {
    pub group: u32,
    pub old: OldEntries,
    pub mode: FmmuMode,
    pub outputs: OutputStart,
}

impl Settings {
    // The default: old entries are cleared, no pairs are read, and the outputs start straight after the inputs. All else is
    // asked for by its name.
    pub fn clean(group: u32) -> Settings
        ensures { result ≡ Old.clean mode.OwnNumber start.AfterInputs group }
    {
        Settings {
            group,
            old: OldEntries::Clear,
            mode: FmmuMode::OwnNumber,
            outputs: OutputStart::AfterInputs,
        }
    }
}

// What a call answers for a direction: the segment, counted from the group start, and the next offset.
#[derive(Clone, Copy, Debug, PartialEq, Eq)]
pub struct Mapping {
    pub segment: PdiSegment,
    pub next: PdiOffset,
}
