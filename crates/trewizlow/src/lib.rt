// What include/trewizlow.h declares, and trewizlow_file_read and trewizlow_file_check, for C (trewizlow_c exports them) and for other crates:
// thin functions over the crates that do the work. Each takes any bytes and any numbers. Flags beside side files, numbers of refusals, and
// what is 0 where nothing is found are the header's.
#![tactic(auto)]

ghost use Rattle.std.specs.Prelude.{◌≡◌};
ghost use Rattle.refusals.specs.Refusals.{accepted};
ghost use Rattle.layout.specs.CodeDirectory.{directory_type};
ghost use Rattle.superblob.specs.Rows.{start_of};
ghost use Rattle.directory.specs.Rows.{directory};
ghost use Rattle.admission.specs.Input.{lent};
ghost use Rattle.admission.specs.Check.{Checked};
ghost use Rattle.admission.specs.File.{lent_file, FileChecked};
ghost use Rattle.admission.specs.Recheck.{recheck_of, Rechecked};
ghost use Rattle.trewizlow.specs.Interface.{file_signature, blob_part, fields_of, no_fields, directory_fields, directory_hash};

use admission::{Beside, Verdict};
use layout::directory::CodeDirectory;
use refusals::Answer;
use slots::SideFiles;
use superblob::Span;
use trustcache::Launch;

// The whole check.
pub fn trewizlow_check(
    signature: &[u8],
    image: &[u8],
    marks: &mut [u8],
    cache: &[u8],
    info_there: bool,
    info: &[u8],
    resources_there: bool,
    resources: &[u8],
    launch: Launch,
) -> Verdict
    ensures { Checked (lent signature.now image.now cache.now info_there info.now resources_there resources.now launch) marks.old result marks.new }
{
    let lent = Beside {
        signature,
        cache,
        sides: SideFiles::lent(info_there, info, resources_there, resources),
        launch,
    };
    admission::check(image, marks, lent)
}

// Where the signature lies in a Mach-O file: the answer of tests 36 to 40, and its part of the file, 0 and 0 where one of them refuses.
#[repr(C)]
#[derive(Clone, Copy)]
pub struct FileSignature {
    pub number: u32,
    pub place: usize,
    pub start: usize,
    pub length: usize,
}

pub fn trewizlow_file_read(file: &[u8]) -> FileSignature
    ensures { result ≡ file_signature file.now }
{
    match macho::signature_span(file) {
        Ok(part) => FileSignature {
            number: 0,
            place: 0,
            start: part.start,
            length: part.end - part.start,
        },
        Err(refusal) => {
            let answer = Answer::from(refusal);
            FileSignature {
                number: answer.number,
                place: answer.place,
                start: 0,
                length: 0,
            }
        }
    }
}

// The whole check of a Mach-O file.
pub fn trewizlow_file_check(
    file: &[u8],
    marks: &mut [u8],
    cache: &[u8],
    info_there: bool,
    info: &[u8],
    resources_there: bool,
    resources: &[u8],
    launch: Launch,
) -> Verdict
    ensures { FileChecked (lent_file file.now cache.now info_there info.now resources_there resources.now launch) marks.old result marks.new }
{
    let sides = SideFiles::lent(info_there, info, resources_there, resources);
    admission::check_file(file, marks, cache, sides, launch)
}

// The recheck of a range, lent the contents of the pages that it meets.
pub fn trewizlow_recheck(
    signature: &[u8],
    start: u64,
    size: u64,
    contents: &[u8],
    marks: &mut [u8],
) -> Answer
    ensures { Rechecked signature.now (recheck_of start size contents.now) marks.old result marks.new }
{
    admission::recheck(signature, start, size, contents, marks)
}

// What a lookup finds: the answer of tests 1 to 9, and where the blob lies, 0 and 0 where nothing is handed back.
#[repr(C)]
#[derive(Clone, Copy)]
pub struct BlobPart {
    pub number: u32,
    pub place: usize,
    pub start: usize,
    pub length: usize,
}

pub fn trewizlow_find(signature: &[u8], slot_type: u32) -> BlobPart
    ensures { result ≡ blob_part signature.now slot_type }
{
    let answer = Answer::from(superblob::tested(signature, 0));
    let span = superblob::find_span(signature, slot_type).unwrap_or(Span { start: 0, end: 0 });
    BlobPart {
        number: answer.number,
        place: answer.place,
        start: span.start,
        length: span.end - span.start,
    }
}

// The directory of a signature: the answer of tests 1 to 18, and its fields, each 0 where one of them refuses.
#[repr(C)]
#[derive(Clone, Copy)]
pub struct DirectoryFields {
    pub number: u32,
    pub place: usize,
    pub start: usize,
    pub length: usize,
    pub version: u32,
    pub flags: u32,
    pub hash_offset: u32,
    pub ident_offset: u32,
    pub special_slots: u32,
    pub code_slots: u32,
    pub hash_size: u8,
    pub hash_type: u8,
    pub platform: u8,
    pub page_shift: u8,
    pub code_limit: usize,
    pub page_size: usize,
    pub ident_length: usize,
}

pub fn trewizlow_read(signature: &[u8]) -> DirectoryFields
    ensures { result ≡ directory_fields signature.now }
{
    match directory::tested(signature, 0) {
        Ok(()) => fields(signature),
        Err(refusal) => no_fields(Answer::from(refusal)),
    }
}

// A refusal: every field is 0.
fn no_fields(answer: Answer) -> DirectoryFields
    ensures { result ≡ no_fields answer }
{
    DirectoryFields {
        number: answer.number,
        place: answer.place,
        start: 0,
        length: 0,
        version: 0,
        flags: 0,
        hash_offset: 0,
        ident_offset: 0,
        special_slots: 0,
        code_slots: 0,
        hash_size: 0,
        hash_type: 0,
        platform: 0,
        page_shift: 0,
        code_limit: 0,
        page_size: 0,
        ident_length: 0,
    }
}

// The fields of a signature's directory, with the answer that nothing is refused.
fn fields(signature: &[u8]) -> DirectoryFields
    ensures { result ≡ fields_of accepted (start_of signature.now directory_type) (directory signature.now) }
{
    let start = superblob::start_of(signature, CodeDirectory::TYPE);
    let d = superblob::blob_of(signature, CodeDirectory::TYPE);
    let code_limit = directory::code_limit(d);
    let page_size = directory::page_size(d);
    let ident_length = directory::ident_length(d);
    let head = CodeDirectory::read(d);
    let version = head.version as u32;
    let flags = head.flags as u32;
    let hash_offset = head.hash_offset as u32;
    let ident_offset = head.ident_offset as u32;
    let special_slots = head.special_slots as u32;
    let code_slots = head.code_slots as u32;
    let hash_size = head.hash_size as u8;
    let hash_type = head.hash_type as u8;
    let platform = head.platform as u8;
    let page_shift = head.page_shift as u8;
    DirectoryFields {
        number: 0,
        place: 0,
        start,
        length: d.len(),
        version,
        flags,
        hash_offset,
        ident_offset,
        special_slots,
        code_slots,
        hash_size,
        hash_type,
        platform,
        page_shift,
        code_limit,
        page_size,
        ident_length,
    }
}

// The directory's hash cut to 20 bytes: the answer of tests 1 to 18, and the hash, zeros where one of them refuses.
#[repr(C)]
#[derive(Clone, Copy)]
pub struct DirectoryHash {
    pub number: u32,
    pub place: usize,
    pub hash: [u8; 20],
}

pub fn trewizlow_cdhash(signature: &[u8]) -> DirectoryHash
    ensures { result ≡ directory_hash signature.now }
{
    match directory::tested(signature, 0) {
        Ok(()) => DirectoryHash {
            number: 0,
            place: 0,
            hash: cdhash::cdhash(superblob::blob_of(signature, CodeDirectory::TYPE)),
        },
        Err(refusal) => {
            let answer = Answer::from(refusal);
            DirectoryHash {
                number: answer.number,
                place: answer.place,
                hash: [0; 20],
            }
        }
    }
}
