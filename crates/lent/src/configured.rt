// The call for both directions, lent its offsets, its oversampling table and its list of pairs.
ghost use Rattle.sheet.specs.Sheet.{sheet_data};
ghost use Rattle.pdo.specs.Bits.{multipliers_of};
ghost use Rattle.passes.specs.Use.{chosen_by};
ghost use Rattle.passes.specs.Start.{offsets};
ghost use Rattle.passes.specs.Call.{Calls};

use crate::multipliers;
use passes::{Both, FmmuPair, Settings};
use pdi::{PdiOffset, PdiSegment};
use pdo::Oversampling;
use wire::Reason;

// Second stage: inputs and outputs, both or neither. An accepted call moves each lent offset to its direction's end. The pairs are read in the mode that asks for
// them, and the lent offset for outputs counts where it is given.
pub fn configure_fmmus(
    sheet: &[u8],
    table: &[Oversampling],
    pairs: &[FmmuPair],
    fmmus: &mut [u8],
    channels: &mut [u8],
    inputs: &mut PdiOffset,
    outputs: &mut PdiOffset,
    settings: Settings,
) -> Result<Both<PdiSegment>, Reason>
    ensures { Calls sheet.now (multipliers_of table.now (sheet_data sheet.now).pdos) (chosen_by settings.mode pairs.now) (offsets inputs.old outputs.old) settings fmmus.old channels.old result (offsets inputs.new outputs.new) fmmus.new channels.new }
{
    let chosen = pairs::fmmu_mappings(settings.mode, pairs);
    let offsets = Both {
        inputs: *inputs,
        outputs: *outputs,
    };
    let mut room = None;
    let weights = multipliers(sheet, table, &mut room);
    let mapped = subdevice::configure(sheet, weights, chosen, fmmus, channels, offsets, settings)?;
    *inputs = mapped.inputs.next;
    *outputs = mapped.outputs.next;
    Ok(Both {
        inputs: mapped.inputs.segment,
        outputs: mapped.outputs.segment,
    })
}
