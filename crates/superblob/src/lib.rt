// The SuperBlob of a signature: tests 1 to 9 of document 01, and the lookup of a blob by its type.
//
// A SuperBlob is a head, an index of types and offsets, and the blobs that the index names. It is refused where its sizes
// do not fit the lent bytes, where a type is unknown or stands twice, and where a blob lies outside, has not its
// type's magic, or shares a byte with an earlier one. Lent bytes behind it are padding. A blob that is found is a part
// of the lent signature, not a copy. The table of tests is specs/Rows.antt.
#![tactic(auto)]

ghost use Rattle.std.specs.Prelude.{◌≡◌, ◌<◌};
ghost use Rattle.refusals.specs.Refusals.{holds, first, accepted};
ghost use Rattle.refusals.specs.Named.{test_answer};
ghost use Rattle.layout.specs.SuperBlob.{index_end, type_at, offset_at, blob_magic, blob_length};
ghost use Rattle.superblob.specs.Rows.{magic_of, repeated, outside, shared, overlaps, head_rows, index_rows, rows, position, PositionIn, has, start_of, blob_of, Located, blob};

use layout::directory::CodeDirectory;
use layout::parts::part;
use layout::superblob::{Blob, BlobIndex, SuperBlob};
use refusals::Refusal;

// The longest signature that is read.
const MOST_SIGNATURE: usize = 67108864;

// The longest side file that is read.
const MOST_SIDE: usize = 4194304;

// The most blobs of a SuperBlob.
const MOST_BLOBS: usize = 64;

// Tests 1 to 9. `side` is the length of the longest side file that is there, 0 where none is.
pub fn tested(sig: &[u8], side: usize) -> Result<(), Refusal>
    ensures { test_answer result ≡ first (rows side sig.now) accepted }
{
    head_tested(sig, side)?;
    index_tested(sig)
}

// Where a blob lies in the signature: from `start` up to `end`. A struct and no `Range`, which is not Copy.
#[derive(Clone, Copy)]
pub struct Span {
    pub start: usize,
    pub end: usize,
}

// Where the blob of a type lies; nothing where tests 1 to 9 do not pass or the index has no such type.
pub fn find_span(sig: &[u8], slot_type: u32) -> Option<Span>
    ensures { Located sig.now slot_type result }
{
    tested(sig, 0).ok()?;
    let i = find_position(sig, slot_type as usize)?;
    let start = offset_at(sig, i);
    Some(Span {
        start,
        end: start + length_at(sig, i),
    })
}

// The blob of a type, its head included; empty, as `blob` has it, where tests 1 to 9 do not pass or the index has no such type.
pub fn find<'a>(sig: &'a [u8], slot_type: u32) -> &'a [u8]
    ensures { result.now ≡ blob sig.now slot_type }
{
    match find_span(sig, slot_type) {
        Some(span) => &sig[span.start..span.end],
        None => &[],
    }
}

// The index has the type.
pub fn has(sig: &[u8], slot_type: u32) -> bool
    ensures { result ≡ holds (has sig.now slot_type) }
{
    find_position(sig, slot_type as usize).is_some()
}

// Where the blob at a type's position of the index starts.
pub fn start_of(sig: &[u8], slot_type: u32) -> usize
    ensures { result ≡ start_of sig.now slot_type }
{
    offset_at(sig, position_of(sig, slot_type as usize))
}

// The blob at a type's position of the index, its head included: for callers behind test 9.
pub fn blob_of<'a>(sig: &'a [u8], slot_type: u32) -> &'a [u8]
    ensures { result.now ≡ blob_of sig.now slot_type }
{
    let i = position_of(sig, slot_type as usize);
    part(sig, offset_at(sig, i), length_at(sig, i))
}

// Tests 1 to 4: the head.
fn head_tested(sig: &[u8], side: usize) -> Result<(), Refusal>
    ensures { test_answer result ≡ first (head_rows side sig.now) accepted }
{
    if sig.len() < SuperBlob::HEAD || MOST_SIGNATURE < sig.len() || MOST_SIDE < side {
        return Err(Refusal::InputLength);
    }
    let head = SuperBlob::read(sig);
    if head.magic != SuperBlob::MAGIC {
        return Err(Refusal::SuperBlobMagic);
    }
    if head.count == 0 || MOST_BLOBS < head.count {
        return Err(Refusal::BlobCount);
    }
    if head.length < index_end(sig) || sig.len() < head.length {
        return Err(Refusal::SuperBlobLength);
    }
    Ok(())
}

// Tests 5 to 9: each over all positions of the index before the next.
fn index_tested(sig: &[u8]) -> Result<(), Refusal>
    ensures { test_answer result ≡ first (index_rows sig.now) accepted }
{
    let n = SuperBlob::read(sig).count;
    if let Some(i) = (0..n).find(|&i| magic_of(type_at(sig, i)) == 0) {
        return Err(Refusal::UnknownType(i));
    }
    if let Some(i) = (0..n).find(|&i| repeats_type(sig, i)) {
        return Err(Refusal::RepeatedType(i));
    }
    if let Some(i) = (0..n).find(|&i| lies_outside(sig, i)) {
        return Err(Refusal::BlobOutside(i));
    }
    if let Some(i) = (0..n).find(|&i| magic_at(sig, i) != magic_of(type_at(sig, i))) {
        return Err(Refusal::BlobMagic(i));
    }
    if let Some(i) = (0..n).find(|&i| overlaps_earlier(sig, i)) {
        return Err(Refusal::BlobsOverlap(i));
    }
    Ok(())
}

// What is asked of a position takes the signature and the position, as its definition does.

// The type at i stands at an earlier position too.
fn repeats_type(sig: &[u8], i: usize) -> bool
    ensures { result ≡ holds (repeated sig.now i) }
{
    (0..i).any(|j| type_at(sig, j) == type_at(sig, i))
}

// The blob at i shares a byte with one at an earlier position.
fn overlaps_earlier(sig: &[u8], i: usize) -> bool
    ensures { result ≡ holds (overlaps sig.now i) }
{
    (0..i).any(|j| shares_byte(sig, i, j))
}

// The blobs at i and j have a byte in common: each starts before the other ends.
fn shares_byte(sig: &[u8], i: usize, j: usize) -> bool
    ensures { result ≡ holds (shared sig.now i j) }
{
    let a = offset_at(sig, i);
    let b = offset_at(sig, j);
    a < b + length_at(sig, j) && b < a + length_at(sig, i)
}

// The blob at i starts in the index, or its head or the blob reaches past the SuperBlob, or it is shorter than its head.
fn lies_outside(sig: &[u8], i: usize) -> bool
    ensures { result ≡ holds (outside sig.now i) }
{
    let size = SuperBlob::read(sig).length;
    let offset = offset_at(sig, i);
    let length = length_at(sig, i);
    offset < index_end(sig)
        || size < offset + Blob::HEAD
        || size < offset + length
        || length < Blob::HEAD
}

// The lowest position that has the type; the count where there is none, since `start_of` and `blob_of` take any bytes.
fn position_of(sig: &[u8], slot_type: usize) -> usize
    ensures { result ≡ position sig.now slot_type }
{
    find_position(sig, slot_type).unwrap_or(SuperBlob::read(sig).count)
}

// The lowest position that has the type.
fn find_position(sig: &[u8], slot_type: usize) -> Option<usize>
    ensures { PositionIn sig.now slot_type result }
{
    let n = SuperBlob::read(sig).count;
    (0..n).find(|&i| type_at(sig, i) == slot_type)
}

// The magic that a slot type asks for; 0 where the type is not known, as test 8 compares at each position, also there.
fn magic_of(slot_type: usize) -> usize
    ensures { result ≡ magic_of slot_type }
{
    match slot_type {
        0 | 0x1000..=0x1004 => CodeDirectory::MAGIC,
        2 => Blob::REQUIREMENTS,
        5 => Blob::ENTITLEMENTS,
        7 => Blob::DER_ENTITLEMENTS,
        8..=11 => Blob::LAUNCH_CONSTRAINT,
        0x10000 => Blob::BLOBWRAPPER,
        _ => 0,
    }
}

// Where the index ends.
fn index_end(sig: &[u8]) -> usize
    ensures { result ≡ index_end sig.now }
{
    SuperBlob::HEAD + SuperBlob::ENTRY * SuperBlob::read(sig).count
}

fn type_at(sig: &[u8], i: usize) -> usize
    ensures { result ≡ type_at sig.now i }
{
    BlobIndex::read(sig, i).slot_type
}

fn offset_at(sig: &[u8], i: usize) -> usize
    ensures { (result ≡ offset_at sig.now i) × (result < 4294967296) }
{
    BlobIndex::read(sig, i).offset
}

fn magic_at(sig: &[u8], i: usize) -> usize
    ensures { result ≡ blob_magic sig.now i }
{
    Blob::read(sig, offset_at(sig, i)).magic
}

fn length_at(sig: &[u8], i: usize) -> usize
    ensures { (result ≡ blob_length sig.now i) × (result < 4294967296) }
{
    Blob::read(sig, offset_at(sig, i)).length
}
