// src/subdevice/configuration.rs: the process data of both directions in one call, with the offsets by value.
#![tactic(auto)]

ghost use Rattle.passes.specs.Call.{Configures};

use passes::{Both, Chosen, Mapping, Settings};
use pdi::PdiOffset;
use wire::Reason;

// Second stage: inputs and outputs, both or neither. Lent a multiplier for each PDO; one that is lacking is 1.
pub fn configure(
    sheet: &[u8],
    multipliers: &[u8],
    chosen: Chosen,
    fmmus: &mut [u8],
    channels: &mut [u8],
    offsets: Both<PdiOffset>,
    settings: Settings,
) -> Result<Both<Mapping>, Reason>
    ensures { Configures sheet.now multipliers.now chosen offsets settings fmmus.old channels.old result fmmus.new channels.new }
{
    if fmmus.len() != 256 || channels.len() != 128 {
        return Err(Reason::AreaLength);
    }
    let wanted = wanted::wanted_of(sheet, multipliers, settings.mode, chosen)?;
    let mapped = entries::write_entries(fmmus, sheet, wanted, offsets, settings)?;
    channels::write_channels(channels, sheet, wanted.sizes);
    Ok(mapped)
}
