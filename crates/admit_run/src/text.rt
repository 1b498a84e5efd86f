// A line as the bytes that the program writes. They are put into a buffer, since `Text` says which they are, and no clause says it of
// `write!` to a runtime.
ghost use Rattle.std.specs.Prelude.{◌≡◌, ◌++◌, ◌+◌, ◌≤◌, length, take};
ghost use Rattle.admit_run.specs.Text.{most_digits, longest_line, Text, NumberAndPlace, WroteNumber};

use crate::FileError;
use admission::Verdict;

// Puts bytes behind the first `at` of a buffer, and answers where they end.
fn put(bytes: &[u8], out: &mut [u8], at: usize) -> usize
    requires { at + length bytes.now ≤ length out.old }
    ensures value { result ≡ at + length bytes.now }
    ensures out_after { take result out.new ≡ take at out.old ++ bytes.now }
{
    let end = at + bytes.len();
    out[at..end].copy_from_slice(bytes);
    end
}

// Puts a number's digits there.
fn put_number(n: u64, out: &mut [u8], at: usize) -> usize
    requires { at + most_digits ≤ length out.old }
    ensures upper_bound { result ≤ at + most_digits }
    ensures wrote_number { WroteNumber n out.old at out.new result }
{
    let mut digits = [0u8; 20];
    let k = io::decimal(n, &mut digits);
    put(&digits[..k], out, at)
}

// Puts number, space, place and newline at the start of a buffer, and answers where they end.
fn put_verdict(verdict: Verdict, out: &mut [u8]) -> usize
    requires { longest_line ≤ length out.old }
    ensures upper_bound { result ≤ length out.new }
    ensures number_and_place { NumberAndPlace verdict (take result out.new) }
{
    let a = put_number(verdict.number as u64, out, 0);
    let b = put(b" ", out, a);
    let c = put_number(verdict.place as u64, out, b);
    put(b"\n", out, c)
}

// Puts a line at the start of a buffer, and answers where it ends.
#[tactic(auto, unfolding(crate::specs::Text::Text))]
pub fn put_line(line: Result<Verdict, FileError>, out: &mut [u8]) -> usize
    requires { longest_line ≤ length out.old }
    ensures upper_bound { result ≤ length out.new }
    ensures text { Text line (take result out.new) }
{
    match line {
        Ok(verdict) => put_verdict(verdict, out),
        Err(FileError::NoFile) => put(b"no file\n", out, 0),
        Err(FileError::TooLong) => put(b"too long\n", out, 0),
    }
}
