// Makes a bay's sheet from its dump: the dump on standard input, what it doesn't say as arguments, the sheet on standard output.
#![tactic(auto)]

ghost use Rattle.std.specs.Prelude.{◌≡◌, true, false, ◌-◌, ◌≤◌, ◌<◌, MatchOption, IfSome};
ghost use Rattle.lockersheet.specs.Decimal.{no_digit, number_in};

use dump::Head;
use pdi::ByteLen;
use std::env::{Env, FillError};
use std::io;
use std::io::Read;
use wire::Reason;

// What a digit is worth.
fn digit(byte: u8) -> Option<u8>
    ensures { MatchOption result (no_digit byte ≡ true) (λ d. (no_digit byte ≡ false) × (d ≡ byte - 48) × (d < 10)) }
{
    match byte {
        b'0'..=b'9' => Some(byte - b'0'),
        _ => None,
    }
}

// The decimal number that is all of a text, if it is at most `most`.
fn decimal(text: &[u8], most: u16) -> Option<u16>
    ensures value { result ≡ number_in most text.now }
    ensures value_le_most { IfSome result (λ value. value ≤ most) }
{
    if text.is_empty() {
        return None;
    }
    let mut value = 0;
    for &byte in text {
        value = 10 * value + u32::from(digit(byte)?);
        if u32::from(most) < value {
            return None;
        }
    }
    // at most `most`, which is 16 bits
    Some(value as u16)
}

// An argument that is missing, or longer than eight bytes, comes as no bytes, which are no number.
fn argument(rt: &impl Env, i: usize, most: u16) -> Option<u16>
    ensures { IfSome result (λ value. value ≤ most) }
{
    let mut text = [0u8; 8];
    let n = rt.arg(i, &mut text).unwrap_or(0);
    decimal(&text[..n], most)
}

// How many arguments came; the program's own name counts too.
fn arg_count(rt: &impl Env) -> usize {
    for i in 0..usize::MAX {
        if let Err(FillError::NotPresent) = rt.arg(i, &mut []) {
            return i;
        }
    }
    usize::MAX
}

fn complain(rt: &impl Eprint, text: &str) -> io::Result<()> {
    rt.eprint(text)
}

fn usage(rt: &impl Eprint) -> io::Result<()> {
    complain(
        rt,
        "usage: lockersheet FLAGS RECEIVE SEND <DUMP >SHEET; give three decimal numbers, flags up to 255 and sizes up to 65535, or none\n",
    )
}

fn tell(rt: &impl Print, answer: Result<usize, Reason>, room: &[u8]) -> io::Result<()> {
    match answer {
        Ok(length) => rt.write_all(wire::front(room, length)),
        Err(reason) => println!(rt; "refused {}", reason.number()),
    }
}

// The longest sheet of a dump has 1,892 bytes.
fn write(rt: &impl Print, dump: &[u8], head: Head) -> io::Result<()> {
    let mut room = [0u8; 1892];
    let answer = dump::write_sheet(dump, head, &mut room);
    tell(rt, answer, &room)
}

// The largest EEPROM has 4 Mbit, which is 524,288 bytes: one more, so that a longer dump is seen.
fn convert(rt: &(impl Print + Eprint), input: &mut impl Read, head: Head) -> io::Result<()> {
    let mut dump = [0u8; 524289];
    let n = input::read_full(input, &mut dump)?;
    if 524288 < n {
        return complain(
            rt,
            "lockersheet: more than 524,288 bytes came, and no EEPROM has more; give it one dump of the category area\n",
        );
    }
    write(rt, &dump[..n], head)
}

fn main(rt: HostRuntime) -> io::Result<()> {
    let count = arg_count(&rt);
    if count < 2 {
        return convert(
            &rt,
            &mut rt.stdin(),
            Head {
                flags: 0,
                receive_size: ByteLen(0),
                send_size: ByteLen(0),
            },
        );
    }
    let flags = argument(&rt, 1, 255);
    let receive = argument(&rt, 2, 65535);
    let send = argument(&rt, 3, 65535);
    if count == 4
        && let Some(flags) = flags
        && let Some(receive) = receive
        && let Some(send) = send
    {
        return convert(
            &rt,
            &mut rt.stdin(),
            Head {
                // it was taken up to 255
                flags: flags as u8,
                receive_size: ByteLen(receive),
                send_size: ByteLen(send),
            },
        );
    }
    usage(&rt)
}
