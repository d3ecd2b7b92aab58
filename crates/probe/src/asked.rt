// The entry points that byte 1 tells how to plan; their pairs stand at the front of the FMMU part.
use crate::parts::Request;
use crate::say::Numbers;
use crate::{bays, parts};
use passes::{FmmuMode, OldEntries, OutputStart, Settings};
use std::io;

// Byte 1 is a sum: 1 the outputs straight after the inputs, 2 keeping, 4 by pairs.
fn outputs(request: Request) -> OutputStart {
    if wire::flag(request.byte1(), 0) {
        OutputStart::AfterInputs
    } else {
        OutputStart::Given
    }
}

fn old(request: Request) -> OldEntries {
    if wire::flag(request.byte1(), 1) {
        OldEntries::Keep
    } else {
        OldEntries::Clear
    }
}

pub fn mode(request: Request) -> FmmuMode {
    if wire::flag(request.byte1(), 2) {
        FmmuMode::Paired
    } else {
        FmmuMode::OwnNumber
    }
}

// The call for both directions.
pub fn call(rt: &impl Print, request: Request) -> io::Result<()> {
    bays::call(
        rt,
        request,
        Settings {
            group: request.b(),
            old: old(request),
            mode: mode(request),
            outputs: outputs(request),
        },
    )
}

// What the pairs hand on: sixteen entry numbers, and whether a number is above 15.
pub fn mappings(rt: &impl Print, request: Request) -> io::Result<()> {
    let mut list = [parts::NO_PAIR; 256];
    let chosen = pairs::fmmu_mappings(mode(request), request.pairs(&mut list));
    let [first, ..] = chosen.entries;
    print!(rt;
        "{first}{} {}",
        Numbers(&chosen.entries[1..]),
        u8::from(chosen.above)
    )
}
