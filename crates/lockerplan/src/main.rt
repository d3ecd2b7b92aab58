// Plans one bay: reads its device sheet on standard input, and prints the plan or the refusal.
#![tactic(auto)]

use std::io;

fn main(rt: HostRuntime) -> io::Result<()> {
    // The longest sheet has 16,386 bytes: one more, so that a longer one is seen.
    let mut sheet = [0u8; 16387];
    let n = input::read_full(&mut rt.stdin(), &mut sheet)?;
    let fmmus = [0u8; 256];
    let channels = [0u8; 128];
    let mut text = [0u8; 4096];
    if let Ok(length) = report::report(&sheet[..n], fmmus, channels, &mut text) {
        rt.write_all(&text[..length])?;
    }
    Ok(())
}
