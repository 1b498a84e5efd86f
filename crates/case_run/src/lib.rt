// The runner of corpora: reads the files that the program's arguments name, one after the other, and prints a line for each case, its
// name first. `operations` has what a case may ask for. Corpora, and what must be printed, are made by the corpus maker under host/.
#![tactic(auto)]

ghost use Rattle.std.specs.Prelude.{◌≤◌, length};

mod operations;
mod readers;

use corpus::{Arena, Case};
use operations::{Field, part, perform};
use std::env::FillError;
use std::io;
use std::rt::Env;

// Room for a side file of one byte more than test 1 allows, or a signature as long, and for all other fields.
const ARENA: usize = 4456449;

// Room for a file, of which one byte stays free, and for the marks of a case.
const FILE: usize = 524288;

const MOST_MARKS: usize = 64;

// Room for a file's name.
const NAME: usize = 4096;

// The marks that a call starts with: those of the case where it names them, else those that the call before left. None where there are
// more than have room.
fn take_marks<'a>(named: bool, field: &[u8], marks: &'a mut [u8]) -> &'a mut [u8]
    ensures { length result.now ≤ length marks.old }
{
    let n = field.len();
    if marks.len() < n {
        return &mut marks[..0];
    }
    let taken = &mut marks[..n];
    if named {
        taken.copy_from_slice(field);
    }
    taken
}

// What runs cases. Fields, arena and marks go on from case to case, and from file to file.
#[derive(Drop)]
struct Runner<'a> {
    rt: &'a HostRuntime,
    arena: Arena<'a>,
    marks: &'a mut [u8],
}

impl Runner<'_> {
    fn run_case(&mut self, case: Case) -> io::Result<()> {
        self.rt.write_all(case.name)?;
        self.rt.write_all(b": ")?;
        let marks = take_marks(case.named, part(&self.arena, Field::Marks), self.marks);
        perform(self.rt, case.operation, &self.arena, marks)
    }

    fn run_file(&mut self, file: &[u8]) -> io::Result<()> {
        let mut rest = file;
        // A case says itself where it ends.
        while !rest.is_empty() {
            let Some(case) = self.arena.take_case(rest, Field::Marks as usize) else {
                return self.rt.write_all(b"broken corpus\n");
            };
            self.run_case(case)?;
            rest = case.rest;
        }
        Ok(())
    }

    // Runs the file of a name, which is read into a buffer.
    fn run_named(&mut self, name: &[u8], file: &mut [u8]) -> io::Result<()> {
        match corpus::load(self.rt, name, file) {
            None | Some(0) => self.rt.write_all(b"no corpus\n"),
            Some(n) if n == file.len() => self.rt.write_all(b"corpus too long\n"),
            Some(n) => self.run_file(&file[..n]),
        }
    }

    // Runs the files of all arguments. An argument too long to be a name names no file.
    fn run_arguments(&mut self, file: &mut [u8]) -> io::Result<()> {
        let mut name = [0u8; NAME];
        for i in 1..usize::MAX {
            match self.rt.arg(i, &mut name) {
                Ok(n) => self.run_named(&name[..n], file)?,
                Err(FillError::TooLong) => self.run_named(b"", file)?,
                Err(FillError::NotPresent) => return Ok(()),
            }
        }
        Ok(())
    }
}

// A function of its own, since the prover would else count the bytes of the room one by one.
fn room() -> [u8; FILE] {
    [0; FILE]
}

fn run_in(rt: &HostRuntime, arena: &mut [u8; ARENA]) -> io::Result<()> {
    let mut marks = [0u8; MOST_MARKS];
    let mut runner = Runner {
        rt,
        arena: Arena::new(arena),
        marks: &mut marks,
    };
    runner.run_arguments(&mut room())
}

// The program.
pub fn run(rt: &HostRuntime) -> io::Result<()> {
    let mut arena = [0u8; ARENA];
    run_in(rt, &mut arena)
}
