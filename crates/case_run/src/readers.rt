// The exported readers of a signature, with every field of what they return.
use std::io;
use trewizlow::{BlobPart, DirectoryFields};

// How many fields trewizlow_read returns behind number and place.
const FIELDS: usize = 15;

// Prints trewizlow_read's answer and fields, trewizlow_cdhash's answer and hash, and trewizlow_find's answer with the blobs that it
// finds of each type in the list.
pub fn print_readers(rt: &impl Print, sig: &[u8], types: &[u8]) -> io::Result<()> {
    print_read(rt, sig)?;
    rt.write_all(b" | ")?;
    print_cdhash(rt, sig)?;
    rt.write_all(b" |")?;
    print_finds(rt, sig, types)?;
    rt.write_all(b"\n")
}

fn print_read(rt: &impl Print, sig: &[u8]) -> io::Result<()> {
    let read = trewizlow::trewizlow_read(sig);
    corpus::print_answer(rt, read.number, read.place)?;
    rt.write_all(b" |")?;
    print_fields(rt, &fields(read))
}

// The fields in the order of the C interface.
fn fields(read: DirectoryFields) -> [usize; FIELDS] {
    [
        read.start,
        read.length,
        read.version as usize,
        read.flags as usize,
        read.hash_offset as usize,
        read.ident_offset as usize,
        read.special_slots as usize,
        read.code_slots as usize,
        read.hash_size as usize,
        read.hash_type as usize,
        read.platform as usize,
        read.page_shift as usize,
        read.code_limit,
        read.page_size,
        read.ident_length,
    ]
}

// ` A B ..`, or ` -` where every field is 0.
fn print_fields(rt: &impl Print, fields: &[usize; FIELDS]) -> io::Result<()> {
    if fields.iter().all(|field| *field == 0) {
        return rt.write_all(b" -");
    }
    for field in fields {
        print!(rt; " {field}")?;
    }
    Ok(())
}

fn print_cdhash(rt: &impl Print, sig: &[u8]) -> io::Result<()> {
    let answer = trewizlow::trewizlow_cdhash(sig);
    corpus::print_answer(rt, answer.number, answer.place)?;
    let hash = answer.hash;
    print_hash(rt, &hash)
}

// ` HEX`, or ` -` where every byte is 0.
fn print_hash(rt: &impl Print, hash: &[u8; 20]) -> io::Result<()> {
    if hash.iter().all(|byte| *byte == 0) {
        return rt.write_all(b" -");
    }
    rt.write_all(b" ")?;
    corpus::print_bytes(rt, hash)
}

// The types are 4 bytes each. The answer is that of the first lookup; it is printed again where a later one answers otherwise.
fn print_finds(rt: &impl Print, sig: &[u8], types: &[u8]) -> io::Result<()> {
    let (types, _) = types.as_chunks::<4>();
    let Some(first) = types.first() else {
        return Ok(());
    };
    let first = trewizlow::trewizlow_find(sig, u32::from_be_bytes(*first));
    print!(rt; " {} {}", first.number, first.place)?;
    for slot_type in types {
        print_find(rt, sig, u32::from_be_bytes(*slot_type), first)?;
    }
    Ok(())
}

// ` TYPE:START+LENGTH`, where one of the two is not 0 (0, and two answers field by field, as in the C interface); before it the answer, where it is not that of the first lookup.
fn print_find(rt: &impl Print, sig: &[u8], slot_type: u32, first: BlobPart) -> io::Result<()> {
    let found = trewizlow::trewizlow_find(sig, slot_type);
    if found.number != first.number || found.place != first.place {
        print!(rt; " {} {}", found.number, found.place)?;
    }
    if found.start == 0 && found.length == 0 {
        return Ok(());
    }
    print!(rt; " {slot_type}:{}+{}", found.start, found.length)
}
