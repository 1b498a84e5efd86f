// Numbers in bytes: a byte, big-endian numbers of 32 and 64 bits and little-endian numbers of 32, at any offset of a slice.
//
// Every reader is total. A byte past the slice's end counts as 0. The place is `start + field` as a whole number, which
// never wraps: where a structure starts, and where a field lies in it.
#![tactic(auto)]

ghost use Rattle.std.specs.Prelude.{◌≡◌, ◌+◌, ◌^◌, ◌<◌, ◌≤◌, get_or};
ghost use Rattle.endian.specs.Numbers.{big, little};

// The byte at start + field.
pub fn byte(s: &[u8], start: usize, field: usize) -> usize
    ensures { (result ≡ get_or s.now (start + field) 0) × (result < 256) }
{
    byte_past(s, start, field, 0) as usize
}

pub fn be32(s: &[u8], start: usize, field: usize) -> usize
    ensures { (result ≡ big 4 s.now (start + field)) × (result < 4294967296) }
{
    big_endian(s, start, field, 4) as usize
}

pub fn be64(s: &[u8], start: usize, field: usize) -> u64
    ensures { result ≡ big 8 s.now (start + field) }
{
    big_endian(s, start, field, 8)
}

pub fn le32(s: &[u8], start: usize, field: usize) -> usize
    ensures { (result ≡ little 4 s.now (start + field)) × (result < 4294967296) }
{
    little_endian(s, start, field, 4) as usize
}

// The byte at start + field + i. Each test is of a difference, so that no sum wraps.
fn byte_past(s: &[u8], start: usize, field: usize, i: usize) -> u64
    ensures { (result ≡ get_or s.now (start + field + i) 0) × (result < 256) }
{
    if s.len() <= start {
        return 0;
    }
    if s.len() - start <= field {
        return 0;
    }
    if s.len() - start - field <= i {
        return 0;
    }
    s[start + field + i] as u64
}

// The number that `width` bytes make, the first the most significant.
fn big_endian(s: &[u8], start: usize, field: usize, width: usize) -> u64
    requires { width ≤ 8 }
    ensures { (result ≡ big width s.now (start + field)) × (result < 256 ^ width) }
{
    let mut n: u64 = 0;
    for i in 0..width {
        n = n * 256 + byte_past(s, start, field, i);
    }
    n
}

// The number that `width` bytes make, the first the least significant: `little`, as the one above is `big`.
fn little_endian(s: &[u8], start: usize, field: usize, width: usize) -> u64
    requires { width ≤ 8 }
    ensures { (result ≡ little width s.now (start + field)) × (result < 256 ^ width) }
{
    let mut n: u64 = 0;
    for i in 0..width {
        n = n * 256 + byte_past(s, start, field, width - 1 - i);
    }
    n
}
