// A sheet that comes in portions, as a handheld sends it over a slow line: each is taken into lent room, and the end reads
// what came.
#![tactic(auto)]

ghost use Rattle.std.specs.Prelude.{◌≡◌};
ghost use Rattle.portions.specs.Portions.{begun, Takes, Ends};

use sheet::Device;
use wire::Reason;

// The longest sheet, and the least room that is enough: L is at most 16,384, and two bytes say it.
pub const MOST: usize = 16386;

// How far a sheet has come. Its bytes so far are `&room[..held]`; `surplus` says that more came than the longest sheet has.
// It is a plain value: one that was made up stops nothing, and what it is answered is stated.
#[derive(Clone, Copy, Debug, PartialEq, Eq)]
pub struct State {
    pub held: usize,
    pub surplus: bool,
}

// Before the first portion.
pub fn begin() -> State
    ensures { result ≡ begun }
{
    State {
        held: 0,
        surplus: false,
    }
}

// Takes a portion of any length, none too, and says how far the sheet has come then. The room is lent at each call, with the
// bytes that are held at its front. 14: the room is under 16,386 bytes; the portion isn't taken, the caller's state is as it
// was, and the next call with enough room goes on from there. Nothing else is refused here.
pub fn take(state: State, portion: &[u8], room: &mut [u8]) -> Result<State, Reason>
    ensures { Takes state portion.now room.old result room.new }
{
    if room.len() < MOST {
        return Err(Reason::PortionRoom); // nothing is remembered of it
    }
    // surplus bytes aren't stored; those that are have room there: held + n is at most 16,386, or n is 0
    let n = MOST.saturating_sub(state.held).min(portion.len());
    area::store(&portion[..n], room, state.held);
    Ok(State {
        held: state.held + n,
        surplus: state.surplus || n < portion.len(),
    })
}

// Declares the end: what `sheet::read` answers for all that was taken, or 14 where the room is under 16,386 bytes.
// Where it accepts, the sheet is `&room[..held]`, and that is what is planned.
pub fn end(state: State, room: &[u8]) -> Result<Device, Reason>
    ensures { Ends state room.now result }
{
    if room.len() < MOST {
        return Err(Reason::PortionRoom);
    }
    // 2 by what is remembered: more came than the longest sheet has, or a made-up state says so
    if state.surplus || MOST < state.held {
        return Err(Reason::SheetLength);
    }
    sheet::read(wire::front(room, state.held))
}
