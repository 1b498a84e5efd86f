// A file's bytes in a buffer. No contract can say what a file holds.
ghost use Rattle.std.specs.Prelude.{◌≤◌, length, IfSome, IfOk};

use std::io::Read;
use std::rt::Files;
use std::{fs, io};

// Reads the file of a name, and answers how many of its bytes are at the start of the buffer: all, or as many as have room; nothing where it
// cannot be opened and read. Files have names of UTF-8 text: one of other bytes names none.
pub fn load(files: &impl Files, name: &[u8], out: &mut [u8]) -> Option<usize>
    ensures { IfSome result (λ n. n ≤ length out.new) }
{
    let path = str::from_utf8(name).ok()?;
    let mut file = fs::open(files, path).ok()?;
    read_all(&mut file, out).ok()
}

// Reads until the buffer is full or the file ends: the buffer is lent, since nothing is allocated, and `SaidIn` speaks of it and of a count. A read that fails, as of a directory, means that the file is not there: its bytes are not.
fn read_all(file: &mut impl Read, out: &mut [u8]) -> io::Result<usize>
    ensures { IfOk result (λ n. n ≤ length out.new) }
{
    let mut n = 0;
    // `read_exact` tells no count where the file ends first, and `read_to_end` allocates.
    while n < out.len() {
        match file.read(&mut out[n..])? {
            0 => break,
            more => n += more,
        }
    }
    Ok(n)
}
