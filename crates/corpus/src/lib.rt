// Corpora: the inputs of the test programs, in files that the corpus maker under host/ writes.
//
// A file is a sequence of cases (`cases`): each has a name, an operation and fields, whose bytes are items (`items`) that are expanded
// into one buffer, the arena. What the programs print goes through `printing`.
#![tactic(auto)]

mod cases;
mod items;
mod printing;

ghost use Rattle.std.specs.Prelude.{IfSome};
ghost use Rattle.io.specs.Counts.{IsPrefixLen};

pub use cases::{Arena, Case, FIELDS, Place};
pub use printing::{print_answer, print_bytes};
use std::fs;
use std::io::Read;
use std::rt::Files;

// Reads a file into a buffer, and answers how many bytes it has there; nothing where it cannot be opened. A read that fails ends them. Files
// have names of UTF-8 text: one of other bytes names none.
pub fn load(files: &impl Files, name: &[u8], out: &mut [u8]) -> Option<usize>
    ensures { IfSome result (λ n. IsPrefixLen n out.new) }
{
    let path = str::from_utf8(name).ok()?;
    let mut file = fs::open(files, path).ok()?;
    Some(read_full(&mut file, out))
}

// Reads into a lent buffer, since nothing is allocated, until it is full, the file ends or a read fails: of a file that cannot be read to its end the small program, whose reading
// is `admit_run`'s, says that it is not there.
fn read_full(file: &mut impl Read, out: &mut [u8]) -> usize
    ensures { IsPrefixLen result out.new }
{
    let mut done = 0;
    // `read_exact` tells no count where the file ends first, and `read_to_end` allocates.
    while done < out.len() {
        match file.read(&mut out[done..]) {
            Ok(0) | Err(_) => break,
            Ok(more) => done += more,
        }
    }
    done
}
