// Answers requests for every entry point of the library: docs/PROBE.md says how a request looks, and what is answered.
#![tactic(auto)]

mod again;
mod arrivals;
mod asked;
mod bays;
mod dumps;
mod numbers;
mod parts;
mod records;
mod say;
mod values;
mod writing;

use parts::Request;
use std::io;
use std::io::Read;

// What stands before an answer where several values of c are asked.
fn begin(rt: &impl Print, c: u32, times: u32) -> io::Result<()> {
    if 1 < times {
        print!(rt; "{c}: ")?;
    }
    Ok(())
}

// An answer that doesn't change with c is written once, and that of `p`, which takes c as an offset.
fn answer(rt: &impl Print, request: Request) -> io::Result<()> {
    match request.letter() {
        b'R' => records::fmmu_read(rt, request),
        b'Q' => records::channel_read(rt, request),
        b'V' => records::channel_packed(rt, request),
        b's' => records::segment_text(rt, request),
        b'f' => records::fmmu_text(rt, request),
        b'W' => records::fmmu_image(rt, request),
        b'y' => records::channel_text(rt, request),
        b'Z' => records::channel_image(rt, request),
        b'd' => bays::read(rt, request),
        b't' => arrivals::calls(rt, request),
        b'w' => writing::again(rt, request),
        b'v' => writing::given(rt, request),
        b'D' => dumps::read(rt, request),
        b'E' => dumps::write(rt, request),
        b'm' => bays::mailboxes(rt, request),
        b'p' => asked::call(rt, request),
        b'M' => asked::mappings(rt, request),
        b'B' => bays::again(rt, request, asked::mode(request)),
        b'L' => bays::plan(rt, request),
        b'T' => values::lines(
            rt,
            request,
            |c| bays::translate(request, c),
            bays::translated,
        ),
        b'C' => values::lines(rt, request, |c| bays::count(request, c), bays::counted),
        b'A' => values::lines(rt, request, |c| bays::differing(request, c), bays::agreed),
        b'H' => values::lines(rt, request, |c| arrivals::beside(request, c), |line| line),
        _ => numbers::lines(rt, request),
    }
}

fn respond(rt: &impl Print, request: Request) -> io::Result<()> {
    begin(rt, request.c(), request.times())?;
    answer(rt, request)?;
    rt.print("\n")
}

// Whether there is room for what is asked.
fn fits(head: Request) -> bool {
    head.room() <= 20480
        && head.sheet_length() <= 20480
        && head.records() <= 256
        && head.fmmus_length() <= 512
        && head.channels_length() <= 512
}

// Whether a record's part has the record's length; images and areas may have any.
fn whole_record(head: Request) -> bool {
    match head.letter() {
        b'f' | b'W' => head.fmmus_length() == 14,
        b'y' | b'Z' | b'V' => matches!(head.channels_length(), 21 | 23),
        b'v' => matches!(head.fmmus_length(), 128 | 192),
        _ => true,
    }
}

// The longest request: a head of 28 bytes, a sheet of 20,480, a table of 768 and both areas of 512.
const LONGEST: usize = 22300;

// Whether what a head asks for can be answered, and the parts behind it come whole.
fn whole(stdin: &mut impl Read, request: &mut [u8; LONGEST]) -> io::Result<bool> {
    let head = Request(request);
    if !whole_record(head) || !fits(head) {
        return Ok(false);
    }
    let count = head.parts_length();
    let came = input::read_full(stdin, parts::front_mut(&mut request[28..], count))?;
    Ok(came == count)
}

// Answers one request, and says whether to go on.
fn serve(rt: &impl Print, stdin: &mut impl Read, request: &mut [u8; LONGEST]) -> io::Result<bool> {
    match input::read_full(stdin, &mut request[..28])? {
        0 => Ok(false),
        28 if whole(stdin, request)? => {
            respond(rt, Request(request))?;
            Ok(true)
        }
        _ => {
            rt.print("bad request\n")?;
            Ok(false)
        }
    }
}

fn main(rt: HostRuntime) -> io::Result<()> {
    let mut request = [0u8; LONGEST];
    let mut stdin = rt.stdin();
    for _ in 0..u64::MAX {
        if !serve(&rt, &mut stdin, &mut request)? {
            break;
        }
    }
    Ok(())
}
