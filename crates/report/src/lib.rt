// What `lockerplan` prints of a bay: its sheet is planned over the areas that it hands over, from offset 0 in group 0, with
// no oversampling and no pairs.
#![tactic(auto)]

ghost use Rattle.std.specs.Prelude.{◌≡◌};
ghost use Rattle.wire.specs.Room.{InRoom, text_in};
ghost use Rattle.wire.specs.Text.{page, Types};
ghost use Rattle.passes.specs.declared.FmmuMode.TheVariants.{OwnNumber};
ghost use Rattle.passes.specs.declared.OutputStart.TheVariants.{AfterInputs};
ghost use Rattle.passes.specs.Use.{nothing_chosen};
ghost use Rattle.passes.specs.Old.{clean};
ghost use Rattle.passes.specs.Call.{Configures};
ghost use Rattle.report.specs.Plan.{areas, once, from_zero, plan_bay, bay_of, report_text};

use passes::{Both, Chosen, Mapping, Settings};
use pdi::{PdiOffset, PdiSegment};
use wire::Reason;

// The call by default in group 0, with no oversampling and no pairs: the inputs from offset 0, the outputs straight after them.
fn plan_data(sheet: &[u8], fmmus: &mut [u8], channels: &mut [u8]) -> Result<Both<Mapping>, Reason>
    ensures { Configures sheet.now (once sheet.now) nothing_chosen from_zero (clean OwnNumber AfterInputs 0) fmmus.old channels.old result fmmus.new channels.new }
{
    let start = PdiOffset { start_address: 0 };
    subdevice::configure(
        sheet,
        &[],
        Chosen::none(),
        fmmus,
        channels,
        Both {
            inputs: start,
            outputs: start,
        },
        Settings::clean(0),
    )
}

// The mailbox pass, then the call.
fn plan_bay(sheet: &[u8], fmmus: &mut [u8], channels: &mut [u8]) -> Result<Both<PdiSegment>, Reason>
    ensures { bay_of result (areas fmmus.new channels.new) ≡ plan_bay sheet.now (areas fmmus.old channels.old) }
{
    mailboxes::configure_mailboxes(sheet, channels)?;
    let mapped = plan_data(sheet, fmmus, channels)?;
    Ok(Both {
        inputs: mapped.inputs.segment,
        outputs: mapped.outputs.segment,
    })
}

// Types the whole text; the areas are planned over as copies.
fn typed(sheet: &[u8], mut fmmus: [u8; 256], mut channels: [u8; 128], room: &mut [u8]) -> usize
    ensures { Types (page room.old 0) (page room.new result) (report_text sheet.now (areas fmmus channels)) }
{
    match plan_bay(sheet, &mut fmmus, &mut channels) {
        Ok(bay) => {
            let n = grammar::manager_count(sheet);
            lines::put_bay(room, n, bay.inputs, bay.outputs, &fmmus, &channels)
        }
        Err(reason) => lines::put_refused(room, reason.number()),
    }
}

// The whole text, into lent room.
pub fn report(
    sheet: &[u8],
    fmmus: [u8; 256],
    channels: [u8; 128],
    room: &mut [u8],
) -> Result<usize, Reason>
    ensures { InRoom (text_in (report_text sheet.now (areas fmmus channels)) room.old) (report_text sheet.now (areas fmmus channels)) room.old result room.new }
{
    let mut text = [0u8; 4096];
    let n = typed(sheet, fmmus, channels, &mut text);
    wire::write_text(&text[..n], room)
}
