// The console as a program: it loads `tables.sdt`, and answers the lines of standard input.
#![tactic(auto)]

use console::ROOM;
use console::state::Console;
use file::stored::{MOST_BYTES, front};
use std::io;
use std::io::{Read, Write};

mod line;

use line::{Line, keep};

// Answers one line, at once.
fn reply(rt: &HostRuntime, console: &mut Console, line: &[u8]) -> io::Result<()> {
    let mut out = [0u8; ROOM];
    let printed = console.answer(line, &mut out).unwrap();
    rt.stdout().write_all(&out[..printed])
}

// Answers the lines that end in a part of the input, and keeps the one that does not.
fn take_in(
    rt: &HostRuntime,
    console: &mut Console,
    line: &mut Line,
    part: &[u8],
) -> io::Result<()> {
    for byte in part {
        if *byte == b'\n' {
            reply(rt, console, line)?;
            line.clear();
        } else {
            keep(line, *byte);
        }
    }
    Ok(())
}

fn main(rt: HostRuntime) -> io::Result<()> {
    let mut buffer = [0; MOST_BYTES];
    let file = front(&rt, &mut buffer)?;
    let mut console = Console::new(file);
    reply(&rt, &mut console, b"LOAD")?;
    let mut input = rt.stdin();
    let mut part = [0u8; 4096];
    let mut line = Line::new();
    // a count, since a loop must end
    for _ in 0..u64::MAX {
        let read = input.read(&mut part)?;
        if read == 0 {
            break;
        }
        take_in(&rt, &mut console, &mut line, &part[..read])?;
    }
    if !line.is_empty() {
        reply(&rt, &mut console, &line)?;
    }
    Ok(())
}
