// The arithmetic of pages, and of the pages that a range meets, with tests 32 and 33 (document 01, "Pages").
//
// A page is P bytes of the image, the last one short where the code limit ends it. No sum wraps: a range is tested against the code
// limit by differences. Functions of plain numbers, as their definitions are, 0 included: `marks::Pages` and `admission`'s calls hold what
// travels together.
#![tactic(auto)]

ghost use Rattle.std.specs.Prelude.{◌≡◌, ◌+◌, ◌*◌, ◌<◌, ◌≤◌, ◌^◌};
ghost use Rattle.refusals.specs.Refusals.{first, accepted};
ghost use Rattle.refusals.specs.Named.{test_answer};
ghost use Rattle.geometry.specs.Pages.{page_bytes, page_count, page_end, met_first, met_end, wanted, range_rows};

use refusals::Refusal;

// The page sizes that a pageSize field of 12 and of 14 stands for.
const SMALL: usize = 4096;

const LARGE: usize = 16384;

// P, the bytes of a page, from the directory's pageSize field.
pub fn page_bytes(shift: usize, limit: usize) -> usize
    ensures { result ≡ page_bytes shift limit }
{
    match shift {
        0 => limit,
        12 => SMALL,
        14 => LARGE,
        _ => 0,
    }
}

// The number of pages.
pub fn page_count(p: usize, limit: usize) -> usize
    ensures { result ≡ page_count p limit }
{
    if limit == 0 || p == 0 {
        return 0;
    }
    (limit - 1) / p + 1
}

// Where page i ends, of a page that starts below the limit.
pub fn page_end(p: usize, limit: usize, i: usize) -> usize
    requires { p * i < limit }
    ensures { result ≡ page_end p limit i }
{
    let start = p * i;
    if p <= limit - start { start + p } else { limit }
}

// The first page that a range meets.
pub fn first_met(p: usize, start: usize, size: usize) -> usize
    ensures { result ≡ met_first p start size }
{
    if size == 0 || p == 0 {
        return 0;
    }
    start / p
}

// The page behind the last that a range meets.
pub fn end_met(p: usize, start: usize, size: usize) -> usize
    requires { start + size < 2 ^ 64 }
    ensures { result ≡ met_end p start size }
{
    if size == 0 {
        return 0;
    }
    if p == 0 {
        return 1;
    }
    (start + (size - 1)) / p + 1
}

// The bytes of the pages that a range below the limit meets.
fn wanted_bytes(p: usize, limit: usize, start: usize, size: usize) -> usize
    requires { start + size ≤ limit }
    ensures { result ≡ wanted p limit start size }
{
    if size == 0 {
        return 0;
    }
    let first = first_met(p, start, size);
    let end = end_met(p, start, size);
    page_end(p, limit, end - 1) - p * first
}

// Tests 32 and 33: the range of a recheck, and how many bytes are given for it.
pub fn range_tested(
    p: usize,
    limit: usize,
    start: u64,
    size: u64,
    given: usize,
) -> Result<(), Refusal>
    ensures { test_answer result ≡ first (range_rows p limit start size given) accepted }
{
    if (limit as u64) < start || limit as u64 - start < size {
        return Err(Refusal::RangeOutside);
    }
    if given != wanted_bytes(p, limit, start as usize, size as usize) {
        return Err(Refusal::ContentsLength);
    }
    Ok(())
}
