// The table file as it is stored: in the folder at hand, under one name.
ghost use Rattle.std.specs.Prelude.{◌≤◌, length, IfOk};

use std::fs::File;
use std::io;
use std::io::{ErrorKind, Read};
use std::rt::Files;

// The file's name.
pub const NAME: &str = "tables.sdt";

// The most bytes of it that are looked at.
pub const MOST_BYTES: usize = 4096;

// Reads until a buffer is full or nothing is left, and answers how many bytes were read.
// The loop is written out, since `read_to_end` asks for memory, and has a count, since a loop must end.
fn fill<R: Read>(reader: &mut R, buffer: &mut [u8]) -> io::Result<usize>
    ensures { IfOk result (λ n. n ≤ length buffer.new) }
{
    let mut filled = 0;
    for _ in 0..u64::MAX {
        if filled >= buffer.len() {
            break;
        }
        match reader.read(&mut buffer[filled..]) {
            Ok(0) => break,
            Ok(n) => filled += n,
            Err(e) => {
                if e.kind() != ErrorKind::Interrupted {
                    return Err(e);
                }
            }
        }
    }
    Ok(filled)
}

// The first bytes of the file, as many as a buffer holds; none where there is no file.
pub fn front<'a, R: Files>(rt: &R, buffer: &'a mut [u8]) -> io::Result<&'a [u8]>
    ensures { IfOk result (λ bytes. length bytes.now ≤ length buffer.old) }
{
    match File::open(rt, NAME) {
        Ok(mut file) => {
            let filled = fill(&mut file, buffer)?;
            Ok(&buffer[..filled])
        }
        Err(e) => {
            if e.kind() == ErrorKind::NotFound {
                Ok(&[])
            } else {
                Err(e)
            }
        }
    }
}
