// The CodeDirectory of a signature: tests 10 to 18 of document 01 with 46 and 35 of document 02 after 14 and 15, its fields and its
// slots.
//
// The directory is the blob of type 0. It is refused where its version has no head size, where its head, a slot or the
// identifier does not lie inside it, where its hash kind or its page size is not known, a flag not allowed, its code limit too
// large or its pages scattered, and where its slots are not those that its code limit asks for. The table of tests is specs/Rows.antt,
// the head by its version specs/Head.antt, its code limit and its pages specs/Pages.antt. Functions take the directory's bytes, as their
// definitions do.
#![tactic(auto)]

ghost use Rattle.std.specs.Prelude.{◌≡◌, ◌-◌, ◌*◌, ◌<◌, ◌≤◌, length};
ghost use Rattle.refusals.specs.Refusals.{holds, first, accepted};
ghost use Rattle.refusals.specs.Named.{test_answer};
ghost use Rattle.layout.specs.CodeDirectory.{slot_width, n_special_slots, n_code_slots, ident_offset, scatter_offset, code_limit64};
ghost use Rattle.directory.specs.Head.{scatter_version, limit64_version, head_size, head_of, since};
ghost use Rattle.directory.specs.Pages.{code_limit, P, pages};
ghost use Rattle.directory.specs.Rows.{hash_outside, special_outside, code_outside, ident_length, field_rows, slot_rows, blob_rows, signature_rows, special_slot, code_slots};

use layout::directory::CodeDirectory;
use layout::parts::part;
use refusals::Refusal;

// The first version that has scatterOffset.
const SCATTER_VERSION: usize = 0x20100;

// The first version that has codeLimit64.
const LIMIT64_VERSION: usize = 0x20300;

const MOST_PAGES: usize = 1048576;

// The highest special slot.
pub const MOST_SPECIAL_SLOTS: u32 = 11;

// The most bytes of code. codeLimit has 32 bits: only codeLimit64 can be above.
const MOST_CODE_LIMIT: u64 = 17179869184;

// Tests 1 to 18. `side` is the length of the longest side file that is there, 0 where none is.
pub fn tested(sig: &[u8], side: usize) -> Result<(), Refusal>
    ensures { test_answer result ≡ first (signature_rows side sig.now) accepted }
{
    superblob::tested(sig, side)?;
    if superblob::has(sig, CodeDirectory::TYPE) {
        blob_tested(superblob::blob_of(sig, CodeDirectory::TYPE))
    } else {
        Err(Refusal::NoDirectory)
    }
}

// The code limit: codeLimit64 where it is present and not 0, else codeLimit.
pub fn code_limit(d: &[u8]) -> usize
    ensures { result ≡ code_limit d.now }
{
    let limit64 = limit64_of(d);
    if limit64 == 0 {
        return CodeDirectory::read(d).code_limit32;
    }
    limit64 as usize
}

// Special slot k, counted from 1, which ends where slot k - 1 starts; slot 1 ends at hashOffset. Empty where the directory has no such slot, as its definition has it.
pub fn special_slot<'a>(d: &'a [u8], k: usize) -> &'a [u8]
    ensures { result.now ≡ special_slot d.now k }
{
    let head = CodeDirectory::read(d);
    let at = head.hash_offset;
    let special = head.special_slots;
    if k == 0 {
        return part(d, 0, 0);
    }
    if special < k {
        return part(d, 0, 0);
    }
    let back = slot_bytes(d, k);
    let width = slot_width(d);
    if at < back {
        return part(d, 0, width);
    }
    part(d, at - back, width)
}

// The code slots, one after the other.
pub fn code_slots<'a>(d: &'a [u8]) -> &'a [u8]
    ensures { result.now ≡ code_slots d.now }
{
    let head = CodeDirectory::read(d);
    part(d, head.hash_offset, code_bytes(d))
}

// Tests 11 to 18 of the directory whose blob is d.
fn blob_tested(d: &[u8]) -> Result<(), Refusal>
    ensures { test_answer result ≡ first (blob_rows d.now) accepted }
{
    fields_tested(d)?;
    slots_tested(d)
}

// Tests 11 to 15 and 35: the head, the hash kind, the page size, the flags (46), the code limit and scatter.
fn fields_tested(d: &[u8]) -> Result<(), Refusal>
    ensures { test_answer result ≡ first (field_rows d.now) accepted }
{
    if d.len() < CodeDirectory::VERSION_END {
        return Err(Refusal::DirectoryHead);
    }
    let size = head_of(d);
    if size == 0 {
        return Err(Refusal::Version);
    }
    if d.len() < size {
        return Err(Refusal::DirectoryHead);
    }
    let head = CodeDirectory::read(d);
    let shift = head.page_shift;
    let flags = head.flags;
    let limit64 = limit64_of(d);
    let scatter = scatter_of(d);
    if hash_outside(d) {
        return Err(Refusal::HashKind);
    }
    match shift {
        0 | 12 | 14 => {}
        _ => return Err(Refusal::PageSize),
    }
    if flags | CodeDirectory::ALLOWED_FLAGS != CodeDirectory::ALLOWED_FLAGS {
        return Err(Refusal::Flags);
    }
    if MOST_CODE_LIMIT < limit64 {
        return Err(Refusal::CodeLimit);
    }
    if scatter != 0 {
        return Err(Refusal::Scatter);
    }
    Ok(())
}

// The hash kind is not known, or the hash size is not the kind's own.
fn hash_outside(d: &[u8]) -> bool
    ensures { result ≡ holds (hash_outside d.now) }
{
    let head = CodeDirectory::read(d);
    let width = slot_width(d);
    if width == 0 {
        return true;
    }
    if head.hash_size != width {
        return true;
    }
    false
}

// Tests 16 to 18: the slots and the identifier.
fn slots_tested(d: &[u8]) -> Result<(), Refusal>
    ensures { test_answer result ≡ first (slot_rows d.now) accepted }
{
    let head = CodeDirectory::read(d);
    let code = head.code_slots;
    let special = head.special_slots;
    let ident = head.ident_offset;
    if code != page_count(d) {
        return Err(Refusal::SlotCount);
    }
    if MOST_PAGES < code {
        return Err(Refusal::SlotCount);
    }
    if (MOST_SPECIAL_SLOTS as usize) < special {
        return Err(Refusal::SlotCount);
    }
    if special_outside(d) {
        return Err(Refusal::SlotsOutside);
    }
    if code_outside(d) {
        return Err(Refusal::SlotsOutside);
    }
    if ident < head_of(d) {
        return Err(Refusal::Identifier);
    }
    if ident_length(d) == ident_room(d) {
        return Err(Refusal::Identifier);
    }
    Ok(())
}

// A special slot reaches before the head's end or past the directory.
fn special_outside(d: &[u8]) -> bool
    ensures { result ≡ holds (special_outside d.now) }
{
    let head = CodeDirectory::read(d);
    let at = head.hash_offset;
    head.special_slots != 0 && (at < head_of(d) + special_bytes(d) || d.len() < at)
}

// A code slot reaches before the head's end or past the directory.
fn code_outside(d: &[u8]) -> bool
    ensures { result ≡ holds (code_outside d.now) }
{
    let head = CodeDirectory::read(d);
    let at = head.hash_offset;
    head.code_slots != 0 && (at < head_of(d) || d.len() < at + code_bytes(d))
}

// Bytes of each slot, by the directory's hash kind.
fn slot_width(d: &[u8]) -> usize
    ensures { (result ≡ slot_width d.now) × (result ≤ 48) }
{
    let hash_type = CodeDirectory::read(d).hash_type;
    CodeDirectory::slot_width(hash_type)
}

// Bytes of n slots, below 2^32 times the widest, 48. Where a slot lies in the directory goes by this product.
fn slot_bytes(d: &[u8], n: usize) -> usize
    requires { n < 4294967296 }
    ensures { (result ≡ slot_width d.now * n) × (result < 206158430208) }
{
    let kind = CodeDirectory::read(d).hash_type;
    CodeDirectory::slot_bytes(kind, n)
}

// Bytes of the special slots.
fn special_bytes(d: &[u8]) -> usize
    ensures { (result ≡ slot_width d.now * n_special_slots d.now) × (result < 206158430208) }
{
    slot_bytes(d, CodeDirectory::read(d).special_slots)
}

// Bytes of the code slots.
fn code_bytes(d: &[u8]) -> usize
    ensures { (result ≡ slot_width d.now * n_code_slots d.now) × (result < 206158430208) }
{
    slot_bytes(d, CodeDirectory::read(d).code_slots)
}

// The head size that the version asks for; 0 where the version is refused, as row 11 asks of it.
fn head_size(version: usize) -> usize
    ensures { (result ≡ head_size version) × (result < 109) }
{
    match version {
        0x20001..=0x200FF => CodeDirectory::HEAD_EARLIEST,
        0x20100..=0x201FF => CodeDirectory::HEAD_SCATTER,
        0x20200..=0x202FF => CodeDirectory::HEAD_TEAM,
        0x20300..=0x203FF => CodeDirectory::HEAD_CODE_LIMIT64,
        0x20400..=0x204FF => CodeDirectory::HEAD_EXEC_SEGMENT,
        0x20500..=0x205FF => CodeDirectory::HEAD_PRE_ENCRYPT,
        0x20600..=0x20600 => CodeDirectory::HEAD_LINKAGE,
        _ => 0,
    }
}

fn head_of(d: &[u8]) -> usize
    ensures { (result ≡ head_of d.now) × (result < 109) }
{
    head_size(CodeDirectory::read(d).version)
}

// codeLimit64; 0 in a directory of a version that has none, as `since` and the code limit have it.
fn limit64_of(d: &[u8]) -> u64
    ensures { result ≡ since limit64_version code_limit64 d.now }
{
    let head = CodeDirectory::read(d);
    if head.version < LIMIT64_VERSION {
        return 0;
    }
    head.code_limit64
}

// scatterOffset likewise, a field of another width.
fn scatter_of(d: &[u8]) -> usize
    ensures { result ≡ since scatter_version scatter_offset d.now }
{
    let head = CodeDirectory::read(d);
    if head.version < SCATTER_VERSION {
        return 0;
    }
    head.scatter_offset
}

// Bytes of a page: 2 to the shift, or the whole code limit where the shift is 0; 0 for a shift that test 14 refuses.
pub fn page_size(d: &[u8]) -> usize
    ensures { result ≡ P d.now }
{
    geometry::page_bytes(CodeDirectory::read(d).page_shift, code_limit(d))
}

// The pages that the code limit makes.
fn page_count(d: &[u8]) -> usize
    ensures { result ≡ pages d.now }
{
    geometry::page_count(page_size(d), code_limit(d))
}

// Bytes from the identifier's start to the directory's end.
fn ident_room(d: &[u8]) -> usize
    ensures { result ≡ length d.now - ident_offset d.now }
{
    d.len().saturating_sub(CodeDirectory::read(d).ident_offset)
}

// Bytes of the identifier before its zero byte; all the room where there is none.
pub fn ident_length(d: &[u8]) -> usize
    ensures { result ≡ ident_length d.now }
{
    let start = CodeDirectory::read(d).ident_offset;
    let room = ident_room(d);
    (0..room)
        .find(|i| endian::byte(d, start, *i) == 0)
        .unwrap_or(room)
}
