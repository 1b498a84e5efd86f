// Admission of an image: the whole check and the recheck of document 01, and the whole check of a Mach-O file (document 02, item 4).
//
// Each first runs its tests in the paper's order, each group by the crate that owns it. Where none refuses, pages are hashed and their
// marks written: of a whole check all pages of the image, of a recheck the pages that its range meets. The marks decide the answer. The
// tables are specs/Check.antt, specs/File.antt and specs/Recheck.antt.
#![tactic(auto)]

mod range;

ghost use Rattle.std.specs.Prelude.{◌++◌, ◌≡◌, cond, length};
ghost use Rattle.refusals.specs.Refusals.{first, accepted};
ghost use Rattle.refusals.specs.Named.{test_answer, place_answer};
ghost use Rattle.layout.specs.CodeDirectory.{KnownKind, hash_type};
ghost use Rattle.slots.specs.Lent.{is_there, bytes_of, sides_of};
ghost use Rattle.admission.specs.Input.{longest, marks_by, ImageHere};
ghost use Rattle.admission.specs.Lent.{beside_of, lent_of, file_lent, PagesOf};
ghost use Rattle.admission.specs.Check.{image_rows, count_rows, check_tested, verdict_of, Checked};
ghost use Rattle.admission.specs.File.{start_rows, FileChecked};
ghost use Rattle.admission.specs.Parts.{origin_rows, later_tested, parts_tested, PartsChecked};

use layout::directory::CodeDirectory;
use marks::Pages;
pub use range::recheck;
use refusals::{Answer, Refusal};
use slots::SideFiles;
use trustcache::Launch;

// What a whole check answers: a refusal number with its place, or 0 with the cache entry that lists the directory's hash. A struct of its
// own beside `Answer`, as in include/trewizlow.h.
#[repr(C)]
#[derive(Clone, Copy)]
pub struct Verdict {
    pub number: u32,
    pub place: usize,
}

impl From<Result<usize, Refusal>> for Verdict {
    ghost from_gives = { λ tested verdict. verdict ≡ verdict_of (place_answer tested) };

    fn from(tested: Result<usize, Refusal>) -> Verdict {
        let answer = Answer::from(tested);
        Verdict {
            number: answer.number,
            place: answer.place,
        }
    }
}

// What a whole check is lent beside the image and the marks.
#[derive(Clone, Copy)]
pub struct Beside<'a> {
    pub signature: &'a [u8],
    pub cache: &'a [u8],
    pub sides: SideFiles<'a>,
    pub launch: Launch,
}

// The whole check: tests 1 to 31. A refusal but 31 leaves every mark. It answers as C reads it, since `Checked` speaks of that.
pub fn check(image: &[u8], marks: &mut [u8], lent: Beside<'_>) -> Verdict
    ensures { Checked (lent_of lent.entry image.now) marks.old result marks.new }
{
    Verdict::from(check_parts(image, Origin::Apart, marks, lent))
}

// The whole check of a Mach-O file: tests 36 to 40, 1 to 18, 41 and 20 to 31. The image is the file before the signature. A refusal but
// 31 leaves every mark. What else is lent becomes a `Beside` once the signature is found.
pub fn check_file(
    file: &[u8],
    marks: &mut [u8],
    cache: &[u8],
    sides: SideFiles<'_>,
    launch: Launch,
) -> Verdict
    ensures { FileChecked (file_lent file.now cache.now sides.entry launch) marks.old result marks.new }
{
    Verdict::from(check_walked(file, marks, cache, sides, launch))
}

// The walk of the file, and where it passes the check of the signature and the image that it finds.
fn check_walked(
    file: &[u8],
    marks: &mut [u8],
    cache: &[u8],
    sides: SideFiles<'_>,
    launch: Launch,
) -> Result<usize, Refusal>
    ensures { FileChecked (file_lent file.now cache.now sides.entry launch) marks.old (verdict_of (place_answer result)) marks.new }
{
    let span = macho::signature_span(file)?;
    let command = span.command;
    let start = span.start;
    let end = span.end;
    let lent = Beside {
        signature: &file[start..end],
        cache,
        sides,
        launch,
    };
    check_parts(&file[0..start], Origin::File(command), marks, lent)
}

// Where the image of a whole check comes from: lent apart from its signature, or cut from a file before the signature, which the load
// command at this position names. An enum and no closure, since `origin_rows` and `PartsChecked` speak of it.
#[derive(Clone, Copy)]
enum Origin {
    Apart,
    File(usize),
}

// The whole check from test 1 on.
fn check_parts(
    image: &[u8],
    origin: Origin,
    marks: &mut [u8],
    lent: Beside<'_>,
) -> Result<usize, Refusal>
    ensures { PartsChecked origin (lent_of lent.entry image.now) marks.old (verdict_of (place_answer result)) marks.new }
{
    let entry = parts_tested(lent, image.len(), origin, marks.len())?;
    let d = superblob::blob_of(lent.signature, CodeDirectory::TYPE);
    write_marks(d, image, marks);
    marks::judge(marks, entry)
}

// Tests 1 to 30, by the lengths of the image and of the marks, two numbers as in `check_tested` of specs/Check.antt; where they pass, the
// directory's entry.
pub fn check_tested(
    lent: Beside<'_>,
    image_length: usize,
    marks_length: usize,
) -> Result<usize, Refusal>
    ensures { place_answer result ≡ check_tested (beside_of lent.entry) image_length marks_length }
{
    parts_tested(lent, image_length, Origin::Apart, marks_length)
}

// Tests 1 to 18, then 19 or 41 by where the image comes from, then 20 to 30; where they pass, the directory's entry. It is not compiled into
// `check_parts`: its frame would lie beneath the hashing of the pages.
#[inline(never)]
fn parts_tested(
    lent: Beside<'_>,
    image_length: usize,
    origin: Origin,
    marks_length: usize,
) -> Result<usize, Refusal>
    ensures { place_answer result ≡ parts_tested origin (beside_of lent.entry) image_length marks_length }
{
    directory::tested(lent.signature, longest_side(lent.sides))?;
    let d = superblob::blob_of(lent.signature, CodeDirectory::TYPE);
    origin_tested(d, image_length, origin, marks_length)?;
    later_tested(lent, d)
}

// Tests 21 to 30 of a signature with the directory d.
fn later_tested(lent: Beside<'_>, d: &[u8]) -> Result<usize, Refusal>
    requires { KnownKind (hash_type d.now) }
    ensures { place_answer result ≡ later_tested (beside_of lent.entry) d.now }
{
    slots::tested(lent.signature, d, lent.sides)?;
    let kind = CodeDirectory::read(d).hash_type;
    trustcache::tested(lent.cache, kind, cdhash::cdhash(d), lent.launch)
}

// The length of the longest side file that is there, 0 where none is.
fn longest_side(sides: SideFiles<'_>) -> usize
    ensures { result ≡ longest (sides_of sides.entry) }
{
    side_length(sides.info).max(side_length(sides.resources))
}

// The length of a side file, 0 where it is not there.
fn side_length(side: Option<&[u8]>) -> usize
    ensures { result ≡ cond (is_there side.entry) (length (bytes_of side.entry)) 0 }
{
    match side {
        Some(file) => file.len(),
        None => 0,
    }
}

// Test 19 or 41 of the directory d, by where the image comes from, and test 20. In a file the signature starts where the image ends.
fn origin_tested(
    d: &[u8],
    image_length: usize,
    origin: Origin,
    marks_length: usize,
) -> Result<(), Refusal>
    ensures { test_answer result ≡ first (origin_rows origin d.now image_length ++ count_rows d.now marks_length) accepted }
{
    match origin {
        Origin::Apart => sizes_tested(d, image_length, marks_length),
        Origin::File(command) => start_tested(d, image_length, command, marks_length),
    }
}

// Tests 19 and 20 of the directory d, by the lengths of the image and of the marks.
fn sizes_tested(d: &[u8], image_length: usize, marks_length: usize) -> Result<(), Refusal>
    ensures { test_answer result ≡ first (image_rows d.now image_length ++ count_rows d.now marks_length) accepted }
{
    if image_length < directory::code_limit(d) {
        return Err(Refusal::ImageLength);
    }
    count_tested(d, marks_length)
}

// Tests 41 and 20 of the directory d, by where the signature starts in the file, the position of the command that says so, and the length of
// the marks.
fn start_tested(d: &[u8], start: usize, command: usize, marks_length: usize) -> Result<(), Refusal>
    ensures { test_answer result ≡ first (start_rows d.now start command ++ count_rows d.now marks_length) accepted }
{
    if start != directory::code_limit(d) {
        return Err(Refusal::SignatureStart(command));
    }
    count_tested(d, marks_length)
}

// Test 20 of the directory d, by the length of the marks.
fn count_tested(d: &[u8], marks_length: usize) -> Result<(), Refusal>
    ensures { test_answer result ≡ first (count_rows d.now marks_length) accepted }
{
    if marks_length != CodeDirectory::read(d).code_slots {
        return Err(Refusal::MarksLength);
    }
    Ok(())
}

// The pages of the directory d, and bytes that begin where page `from` begins.
fn pages_of<'a>(d: &'a [u8], from: usize, bytes: &'a [u8]) -> Pages<'a>
    ensures { PagesOf d.now from bytes.now result }
{
    Pages {
        p: directory::page_size(d),
        limit: directory::code_limit(d),
        kind: CodeDirectory::read(d).hash_type,
        slots: directory::code_slots(d),
        from,
        bytes,
    }
}

// Hashes every page of the image and writes its mark.
fn write_marks(d: &[u8], image: &[u8], marks: &mut [u8])
    requires { ImageHere d.now image.now marks.old }
    ensures { marks.new ≡ marks_by d.now image.now }
{
    pages_of(d, 0, image).mark(marks);
}
