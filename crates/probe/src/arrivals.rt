// The entry points for a sheet that comes in portions.
use crate::again::over_and_over;
use crate::parts::Request;
use crate::say::{Hex, Item, Line, Word};
use crate::{bays, parts};
use portions::State;
use sheet::Device;
use std::io;
use wire::Reason;

// How an answer is shown beside others.
fn short<T: Copy>(answer: Result<T, Reason>) -> Item {
    match answer {
        Ok(_) => Item::Word(Word::Ok),
        Err(reason) => Item::Short(reason),
    }
}

fn state_item(state: State) -> Item {
    Item::Slashed(state.held as u64, u8::from(state.surplus))
}

// A call, which is lent the front of the room: what it answered, and the state from which the next one goes on.
fn call(
    rt: &impl Print,
    state: State,
    portion: &[u8],
    room: &mut [u8],
    size: usize,
) -> io::Result<State> {
    let taken = portions::take(state, portion, parts::front_mut(room, size));
    let next = taken.unwrap_or(state);
    print!(rt; "{}/{} ", short(taken), state_item(next))?;
    Ok(next)
}

// One call after the other: the length of the room lent (2), the length of the portion (2), the portion.
fn call_by_call(rt: &impl Print, first: State, calls: &[u8], room: &mut [u8]) -> io::Result<State> {
    let mut state = first;
    let mut rest = calls;
    // a while: what is cut short is taken as far as it goes, which no iterator of chunks does
    while !rest.is_empty() {
        let size = usize::from(parts::number2(rest, 2));
        let lent = usize::from(parts::number2(rest, 0));
        state = call(rt, state, parts::part(rest, 4, size), room, lent)?;
        rest = wire::behind(rest, 4 + size);
    }
    Ok(state)
}

// Whether a byte of the room isn't what it was before the first call.
fn changed(first: &[u8], at: usize, byte: u8) -> bool {
    byte != first.get(at).copied().unwrap_or(0xff)
}

// The places of the first and of the last byte that aren't what they were.
fn changed_from(first: &[u8], room: &[u8]) -> Option<usize> {
    room.iter()
        .enumerate()
        .position(|(at, &byte)| changed(first, at, byte))
}

fn changed_to(first: &[u8], room: &[u8]) -> Option<usize> {
    room.iter()
        .enumerate()
        .rposition(|(at, &byte)| changed(first, at, byte))
}

// What was written in the room: its place and its bytes.
fn written(rt: &impl Print, first: &[u8], room: &[u8]) -> io::Result<()> {
    match (changed_from(first, room), changed_to(first, room)) {
        (Some(from), Some(last)) => {
            let bytes = wire::front(room, last.saturating_add(1));
            print!(rt; " {from} {}", Hex(wire::behind(bytes, from)))
        }
        _ => rt.print(" -"),
    }
}

// The state that a request makes up.
fn made_up(request: Request) -> State {
    State {
        held: parts::joined(request.a(), request.b()) as usize,
        surplus: request.byte1() != 0,
    }
}

// From a made-up state call by call, then the end.
pub fn calls(rt: &impl Print, request: Request) -> io::Result<()> {
    let mut room = [0xffu8; 20480];
    let first = request.fmmus();
    wire::copy(first, &mut room);
    let state = call_by_call(rt, made_up(request), request.sheet(), &mut room)?;
    let size = usize::from(request.room());
    bays::tell_read(rt, portions::end(state, wire::front(&room, size)))?;
    written(rt, first, &room)
}

// How a sheet is cut: the first portion, each later one, and whether an empty one follows each.
#[derive(Clone, Copy)]
struct Cut {
    first: u32,
    each: u32,
    empty: bool,
}

// A portion, and an empty one behind it where that is asked.
fn portion(state: State, bytes: &[u8], empty: bool, room: &mut [u8]) -> State {
    let next = portions::take(state, bytes, room).unwrap_or(state);
    if empty {
        portions::take(next, b"", room).unwrap_or(next)
    } else {
        next
    }
}

// A whole sheet from its first portion to its last; later ones of 0 bytes are asked as one portion.
fn in_portions(sheet: &[u8], cut: Cut, room: &mut [u8]) -> State {
    let each = if cut.each == 0 { u32::MAX } else { cut.each };
    let first = cut.first as usize;
    let mut state = portion(
        portions::begin(),
        wire::front(sheet, first),
        cut.empty,
        room,
    );
    for bytes in wire::behind(sheet, first).chunks(each as usize) {
        state = portion(state, bytes, cut.empty, room);
    }
    state
}

// A sheet that came in portions: the last state, and the end's answer.
#[derive(Clone, Copy)]
struct Arrived {
    state: State,
    read: Result<Device, Reason>,
}

fn once(sheet: &[u8], cut: Cut, room: &mut [u8]) -> Arrived {
    let state = in_portions(sheet, cut, room);
    let read = portions::end(state, room);
    Arrived { state, read }
}

// What a byte of the room must be once `held` bytes of the sheet have come.
fn right(sheet: &[u8], held: usize, at: usize) -> u8 {
    if at < held {
        wire::byte_at(sheet, at)
    } else {
        0xff
    }
}

// How many bytes of the room are wrong.
pub fn wrong(sheet: &[u8], held: usize, room: &[u8]) -> usize {
    room.iter()
        .enumerate()
        .filter(|&(at, &byte)| byte != right(sheet, held, at))
        .count()
}

fn compared(sheet: &[u8], arrived: Arrived, room: &[u8]) -> Line {
    let Arrived { state, read } = arrived;
    let same = read == sheet::read(sheet);
    Line::from([
        Item::Word(if same { Word::Same } else { Word::Differ }),
        short(read),
        state_item(state),
        Item::from(wrong(sheet, state.held, room)),
    ])
}

// In portions beside at once.
pub fn beside(request: Request, c: u32) -> Line {
    let sheet = request.sheet();
    let cut = Cut {
        first: c,
        each: request.a(),
        empty: request.byte1() != 0,
    };
    let mut space = [0xffu8; 20480];
    let room = parts::front_mut(&mut space, usize::from(request.room()));
    let arrived = over_and_over(request.b(), || once(sheet, cut, room));
    compared(sheet, arrived, room)
}
