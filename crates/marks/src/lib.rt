// Marks of pages: written, tested and judged, with tests 31 and 34 (document 01, "Pages").
//
// The mark of a page is 0 where the digest of its bytes is what its code slot holds, and 1 where it is not. One routine hashes pages
// and writes marks, for every hash kind: pages of SHA-256, cut or not, by fours, since four side by side take less time; what is left,
// and pages of the other kinds, one by one.
#![tactic(auto)]

ghost use Rattle.std.specs.Prelude.{◌≡◌, List, ◌++◌, ℕ, ◌+◌, ◌-◌, ◌*◌, ◌≤◌, length, drop, replicate, IfSome};
ghost use Rattle.geometry.specs.Pages.{page_start, page_end, part};
ghost use Rattle.digest.specs.Kinds.{digest_of};
ghost use Rattle.refusals.specs.Refusals.{first, accepted};
ghost use Rattle.refusals.specs.Named.{test_answer, place_answer};
ghost use Rattle.marks.specs.Marks.{width, mark_of, tab, mark_rows, judged};

use geometry::page_end;
use layout::directory::CodeDirectory;
use refusals::Refusal;

// Pages of p bytes up to the code limit, the code slots of all pages, by their hash kind, and bytes that begin where page `from` begins:
// the image itself for all pages, or what is lent for the pages that a range meets. The kind is a number, known or not, as `Slots` has it.
#[derive(Clone, Copy)]
pub struct Pages<'a> {
    pub p: usize,
    pub limit: usize,
    pub kind: usize,
    pub slots: &'a [u8],
    pub from: usize,
    pub bytes: &'a [u8],
}

impl<'a> Pages<'a> {
    ghost use Rattle.marks.specs.Lent.{slots_of, mark_at, marks_at, OneHere, AllHere};

    // Hashes the pages from `from` on by the slots' kind, one for each mark, and writes their marks.
    pub fn mark(&self, marks: &mut [u8])
        requires { AllHere self.now (length marks.old) }
        ensures { marks.new ≡ marks_at self.now (length marks.old) }
    {
        for i in self.mark_fours(marks)..marks.len() {
            marks[i] = self.mark_page(self.from + i);
        }
    }

    // Writes the marks of the pages from `from` on, four at a time, as far as four can be hashed side by side, and gives their number.
    fn mark_fours(&self, marks: &mut [u8]) -> usize
        requires { AllHere self.now (length marks.old) }
        ensures { (marks.new ≡ tab self.now.from result (mark_at self.now) ++ drop result marks.old) × (result ≤ length marks.old) }
    {
        let fours = marks.len() / 4;
        for i in 0..fours {
            let Some(four) = self.mark_four(self.from + 4 * i) else {
                return 4 * i;
            };
            marks[4 * i..4 * i + 4].copy_from_slice(&four);
        }
        4 * fours
    }

    // The marks of page n and the three behind it, where they can be hashed side by side.
    #[tactic(auto, using(crate::proofs::Marking::page_most))]
    fn mark_four(&self, n: usize) -> Option<[u8; 4]>
        requires { (self.now.from ≤ n) × OneHere self.now (n + 3) }
        ensures { IfSome result (λ marks. marks ≡ tab n 4 (mark_at self.now)) }
    {
        let a = self.page_bytes(n);
        let b = self.page_bytes(n + 1);
        let c = self.page_bytes(n + 2);
        let d = self.page_bytes(n + 3);
        if !digest::side_by_side(self.kind, a, b, c, d) {
            return None;
        }
        let x = digest::digest_four(self.kind, a, b, c, d);
        Some([
            self.mark_of(n, x[0]),
            self.mark_of(n + 1, x[1]),
            self.mark_of(n + 2, x[2]),
            self.mark_of(n + 3, x[3]),
        ])
    }

    // The mark of page n. The page is hashed where it lies.
    fn mark_page(&self, n: usize) -> u8
        requires { OneHere self.now n }
        ensures { result ≡ mark_at self.now n }
    {
        self.mark_of(n, digest::digest(self.kind, self.page_bytes(n)))
    }

    // The mark of page n by its digest d.
    fn mark_of(&self, n: usize, d: [u8; 48]) -> u8
        requires { width (slots_of self.now) * n + width (slots_of self.now) ≤ length self.now.slots.now }
        ensures { (m : List ℕ) → d ≡ digest_of self.now.kind m ++ replicate (48 - width (slots_of self.now)) 0 → result ≡ mark_of (slots_of self.now) n m }
    {
        let slot = CodeDirectory::slot_bytes(self.kind, n);
        let next = slot + CodeDirectory::slot_width(self.kind);
        if digest::slot_holds(self.kind, &self.slots[slot..next], d) {
            0
        } else {
            1
        }
    }

    // The bytes of page n.
    #[tactic(auto, using(crate::proofs::Marking::page_within))]
    fn page_bytes(&self, n: usize) -> &'a [u8]
        requires { OneHere self.now n }
        ensures { result.now ≡ part self.now.bytes.now (page_start self.now.p n - page_start self.now.p self.now.from) (page_end self.now.p self.now.limit n - page_start self.now.p self.now.from) }
    {
        let base = self.p * self.from;
        let start = self.p * n - base;
        let end = page_end(self.p, self.limit, n) - base;
        &self.bytes[start..end]
    }
}

// Test 34: every mark is 0 or 1. The refusal names the lowest page whose mark is neither.
pub fn marks_tested(marks: &[u8]) -> Result<(), Refusal>
    ensures { test_answer result ≡ first (mark_rows marks.now) accepted }
{
    match marks.iter().position(|mark| 1 < *mark) {
        Some(page) => Err(Refusal::BadMark(page)),
        None => Ok(()),
    }
}

// Test 31: the refusal names the lowest page marked 1; where none is, the place given stands.
pub fn judge(marks: &[u8], place: usize) -> Result<usize, Refusal>
    ensures { place_answer result ≡ judged marks.now place }
{
    match marks.iter().position(|mark| *mark == 1) {
        Some(page) => Err(Refusal::PageDiffers(page)),
        None => Ok(place),
    }
}
