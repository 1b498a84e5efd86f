// The recheck of a range of the image, lent the bytes of the pages that it meets.
ghost use Rattle.std.specs.Prelude.{◌≡◌, length};
ghost use Rattle.refusals.specs.Refusals.{first, accepted};
ghost use Rattle.refusals.specs.Named.{test_answer, place_answer};
ghost use Rattle.directory.specs.Pages.{code_limit, P};
ghost use Rattle.geometry.specs.Pages.{range_rows};
ghost use Rattle.marks.specs.Marks.{remarked, RangeHere};
ghost use Rattle.admission.specs.Input.{slots_by};
ghost use Rattle.admission.specs.Recheck.{recheck_of, call_rows, Rechecked};

use crate::{count_tested, pages_of};
use layout::directory::CodeDirectory;
use marks::Pages;
use refusals::{Answer, Refusal};

// The recheck of `size` bytes from `start` on, lent the bytes of the pages met: tests 1 to 18, 20, 32, 33 and 34. A refusal by one of
// them leaves every mark; else the marks of the pages met are written, and the lowest page marked 1 is 31.
pub fn recheck(signature: &[u8], start: u64, size: u64, contents: &[u8], marks: &mut [u8]) -> Answer
    ensures { Rechecked signature.now (recheck_of start size contents.now) marks.old result marks.new }
{
    let call = Call {
        start,
        size,
        contents,
    };
    Answer::from(call.answer(signature, marks))
}

// What a recheck asks for: a range, with the bytes of the pages that it meets.
#[derive(Clone, Copy)]
struct Call<'a> {
    start: u64,
    size: u64,
    contents: &'a [u8],
}

impl<'a> Call<'a> {
    // With place 0 where nothing is refused.
    fn answer(&self, signature: &[u8], marks: &mut [u8]) -> Result<usize, Refusal>
        ensures { Rechecked signature.now (recheck_of self.now.start self.now.size self.now.contents.now) marks.old (place_answer result) marks.new }
    {
        self.tested(signature, marks)?;
        let d = superblob::blob_of(signature, CodeDirectory::TYPE);
        self.rewrite_marks(d, marks);
        marks::judge(marks, 0)
    }

    // Tests 1 to 18, 20, 32, 33 and 34. No side file is lent.
    fn tested(&self, signature: &[u8], marks: &[u8]) -> Result<(), Refusal>
        ensures { test_answer result ≡ first (call_rows signature.now (recheck_of self.now.start self.now.size self.now.contents.now) marks.now) accepted }
    {
        directory::tested(signature, 0)?;
        let d = superblob::blob_of(signature, CodeDirectory::TYPE);
        count_tested(d, marks.len())?;
        self.range_tested(d)?;
        marks::marks_tested(marks)
    }

    // Tests 32 and 33 of the directory d: the range, and how many bytes are given for it.
    fn range_tested(&self, d: &[u8]) -> Result<(), Refusal>
        ensures { test_answer result ≡ first (range_rows (P d.now) (code_limit d.now) self.now.start self.now.size (length self.now.contents.now)) accepted }
    {
        geometry::range_tested(
            directory::page_size(d),
            directory::code_limit(d),
            self.start,
            self.size,
            self.contents.len(),
        )
    }

    // Hashes the pages that the range meets and writes their marks. No other mark is touched.
    fn rewrite_marks(&self, d: &[u8], marks: &mut [u8])
        requires { RangeHere (P d.now) (code_limit d.now) (slots_by d.now) self.now.start self.now.size self.now.contents.now marks.old }
        ensures { marks.new ≡ remarked (P d.now) (code_limit d.now) (slots_by d.now) self.now.start self.now.size self.now.contents.now marks.old }
    {
        let all = pages_of(d, 0, self.contents);
        let first = geometry::first_met(all.p, self.start as usize, self.size as usize);
        let end = geometry::end_met(all.p, self.start as usize, self.size as usize);
        let met = Pages { from: first, ..all };
        met.mark(&mut marks[first..end]);
    }
}
