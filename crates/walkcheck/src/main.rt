//! `walkcheck`: a text on standard input, its listing on standard output; status 0 for degrees, 1 for a fault.
#![tactic(auto)]

ghost use Rattle.std.specs.Prelude.{◌≤◌, IfOk};

use listing::listing::list;
use std::io::{self, Read, Write};
use std::process::ExitCode;

/// One byte more than the listing call takes, so that a longer input is refused and not cut.
const ROOM: usize = 16385;

// Not by `io::copy`: it reads 8,192 bytes at a time, so what a socket holds beyond them in one packet is lost; it goes on
// after a read that was interrupted; and it copies what it has read into the list.
/// Reads standard input until it ends or the buffer is full. Gives how many bytes were read.
fn fill(input: &mut impl Read, buffer: &mut [u8; ROOM]) -> io::Result<usize>
    ensures { IfOk result (λ n. n ≤ 16385) }
{
    let mut n = 0;
    while n < ROOM {
        match input.read(&mut buffer[n..])? {
            0 => break,
            more => n += more,
        }
    }
    Ok(n)
}

fn main(rt: HostRuntime) -> io::Result<ExitCode> {
    let mut text = [0u8; ROOM];
    let n = fill(&mut rt.stdin(), &mut text)?;
    let mut buffer = [0u8; 256];
    let listed = list(&text[..n], &mut buffer);
    rt.stdout().write_all(&buffer[..listed.written])?;
    // The number that the listing call answers, 0 for none.
    Ok(if listed.number == 0 {
        ExitCode::SUCCESS
    } else {
        ExitCode::FAILURE
    })
}
