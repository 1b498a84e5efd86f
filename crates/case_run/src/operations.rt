// What a case may ask for. A new operation is a variant with its number, a function and a line in `perform`, and its inputs are fields.
use crate::readers::print_readers;
use corpus::Arena;
use layout::directory::CodeDirectory;
use layout::kinds::HashKind;
use refusals::{Answer, Refusal};
use slots::SideFiles;
use std::io;
use trustcache::Launch;

// The fields that an operation reads, in the order of their numbers.
#[derive(Clone, Copy)]
pub enum Field {
    Signature,
    Image,
    Cache,
    Info,
    Resources,
    Facts,
    Range,
    Types,
    Hash,
    Marks,
    File,
}

// A field's bytes.
pub fn part<'a>(arena: &'a Arena, field: Field) -> &'a [u8] {
    arena.part(field as usize)
}

#[derive(Clone, Copy)]
enum Operation {
    // The three exported readers, and every field of what they return.
    Signature,
    // Tests 1 to 18, then 21 to 23.
    Slots,
    // Tests 24 to 30.
    Cache,
    // The whole check.
    Check,
    Recheck,
    // The small program, whose three fields are names of files.
    Small,
    // Where a Mach-O file has its signature.
    FileRead,
    // The whole check of a Mach-O file.
    FileCheck,
}

// The number of no operation.
#[derive(Clone, Copy, Debug)]
struct NoOperation;

impl TryFrom<u8> for Operation {
    type Error = NoOperation;

    fn try_from(number: u8) -> Result<Self, NoOperation> {
        match number {
            0 => Ok(Operation::Signature),
            1 => Ok(Operation::Slots),
            2 => Ok(Operation::Cache),
            3 => Ok(Operation::Check),
            4 => Ok(Operation::Recheck),
            5 => Ok(Operation::Small),
            6 => Ok(Operation::FileRead),
            7 => Ok(Operation::FileCheck),
            _ => Err(NoOperation),
        }
    }
}

// Performs the operation of a number and prints what it answers, to the line's end. The marks are those of the case, or those that the call
// before left.
pub fn perform(rt: &HostRuntime, number: u8, arena: &Arena, marks: &mut [u8]) -> io::Result<()> {
    let Ok(operation) = Operation::try_from(number) else {
        return rt.write_all(b"no such operation\n");
    };
    match operation {
        Operation::Signature => print_readers(
            rt,
            part(arena, Field::Signature),
            part(arena, Field::Types),
        ),
        Operation::Slots => slots(rt, arena),
        Operation::Cache => cache(rt, arena),
        Operation::Check => check(rt, arena, marks),
        Operation::Recheck => recheck(rt, arena, marks),
        Operation::Small => small(rt, arena),
        Operation::FileRead => file_read(rt, part(arena, Field::File)),
        Operation::FileCheck => file_check(rt, arena, marks),
    }
}

// An answer as a whole line.
fn print_line(rt: &impl Print, number: u32, place: usize) -> io::Result<()> {
    println!(rt; "{number} {place}")
}

fn flag(facts: &[u8], i: usize) -> bool {
    fact(facts, i) == 1
}

// Facts that the field has no byte for are 0.
fn fact(facts: &[u8], i: usize) -> u8 {
    facts.get(i).copied().unwrap_or(0)
}

// The launch facts; the two bytes before them say which side files are there.
fn launch(facts: &[u8]) -> Launch {
    Launch {
        on_authorized_volume: flag(facts, 2),
        on_system_volume: flag(facts, 3),
        launch_type: fact(facts, 4),
        validation_category: fact(facts, 5),
        parent_is_init: flag(facts, 6),
    }
}

// The side files of a case, each with its flag in the facts.
fn sides<'a>(arena: &'a Arena, facts: &[u8]) -> SideFiles<'a> {
    SideFiles::lent(
        flag(facts, 0),
        part(arena, Field::Info),
        flag(facts, 1),
        part(arena, Field::Resources),
    )
}

// Tests 1 to 18, then 21 to 23.
fn slots_tested(sig: &[u8], sides: SideFiles<'_>) -> Result<(), Refusal> {
    directory::tested(sig, 0)?;
    let d = superblob::blob_of(sig, CodeDirectory::TYPE);
    slots::tested(sig, d, sides)
}

fn slots(rt: &impl Print, arena: &Arena) -> io::Result<()> {
    let sides = sides(arena, part(arena, Field::Facts));
    let answer = Answer::from(slots_tested(part(arena, Field::Signature), sides));
    print_line(rt, answer.number, answer.place)
}

// The first 20 bytes of a field; zeros where it is shorter.
fn hash_of(field: &[u8]) -> [u8; 20] {
    let mut hash = [0u8; 20];
    let n = field.len().min(20);
    hash[..n].copy_from_slice(&field[..n]);
    hash
}

// Tests 24 to 30, of a directory hashed by SHA-256; whole checks have the other kinds.
fn cache(rt: &impl Print, arena: &Arena) -> io::Result<()> {
    let hash = hash_of(part(arena, Field::Hash));
    let facts = launch(part(arena, Field::Facts));
    let answer = Answer::from(trustcache::tested(
        part(arena, Field::Cache),
        HashKind::Sha256.number(),
        hash,
        facts,
    ));
    print_line(rt, answer.number, answer.place)
}

fn check(rt: &impl Print, arena: &Arena, marks: &mut [u8]) -> io::Result<()> {
    let facts = part(arena, Field::Facts);
    let verdict = trewizlow::trewizlow_check(
        part(arena, Field::Signature),
        part(arena, Field::Image),
        marks,
        part(arena, Field::Cache),
        flag(facts, 0),
        part(arena, Field::Info),
        flag(facts, 1),
        part(arena, Field::Resources),
        launch(facts),
    );
    print_call(rt, verdict.number, verdict.place, marks)
}

fn recheck(rt: &impl Print, arena: &Arena, marks: &mut [u8]) -> io::Result<()> {
    let range = part(arena, Field::Range);
    let answer = trewizlow::trewizlow_recheck(
        part(arena, Field::Signature),
        endian::be64(range, 0, 0),
        endian::be64(range, 0, 8),
        part(arena, Field::Image),
        marks,
    );
    print_call(rt, answer.number, answer.place, marks)
}

// `NUMBER PLACE START+LENGTH`.
fn file_read(rt: &impl Print, file: &[u8]) -> io::Result<()> {
    let found = trewizlow::trewizlow_file_read(file);
    corpus::print_answer(rt, found.number, found.place)?;
    println!(rt; " {}+{}", found.start, found.length)
}

fn file_check(rt: &impl Print, arena: &Arena, marks: &mut [u8]) -> io::Result<()> {
    let facts = part(arena, Field::Facts);
    let verdict = trewizlow::trewizlow_file_check(
        part(arena, Field::File),
        marks,
        part(arena, Field::Cache),
        flag(facts, 0),
        part(arena, Field::Info),
        flag(facts, 1),
        part(arena, Field::Resources),
        launch(facts),
    );
    print_call(rt, verdict.number, verdict.place, marks)
}

// An answer, and the marks where there are any.
fn print_call(rt: &impl Print, number: u32, place: usize, marks: &[u8]) -> io::Result<()> {
    corpus::print_answer(rt, number, place)?;
    if !marks.is_empty() {
        rt.write_all(b" ")?;
        corpus::print_bytes(rt, marks)?;
    }
    rt.write_all(b"\n")
}

// The small program.
fn small(rt: &HostRuntime, arena: &Arena) -> io::Result<()> {
    let line = admit_run::answer(
        rt,
        part(arena, Field::Signature),
        part(arena, Field::Image),
        part(arena, Field::Cache),
    );
    admit_run::print(rt, line)
}
