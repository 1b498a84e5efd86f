// Prints, for each of the four kinds, digests of published example messages (FIPS 180-4, NIST's example values) and of every length from
// 0 to 300 of a byte pattern, then what kinds that are not known give, and the cut of a directory hash. The expected output is made by
// another program: tools/digest-vectors.
#![tactic(auto)]

ghost use Rattle.std.specs.Prelude.{◌≡◌, ◌≤◌, length};

use layout::directory::CodeDirectory;
use layout::kinds::HashKind;
use sha::HashFunction;
use sha32::Sha256;
use std::io;

// The bytes of the longest message that is held whole.
const ROOM: usize = 1000000;

fn repeated(b: u8) -> [u8; ROOM] {
    [b; ROOM]
}

// Writes the bytes in hexadecimal, and ends the line.
fn print_line(rt: &impl Print, bytes: &[u8]) -> io::Result<()> {
    corpus::print_bytes(rt, bytes)?;
    rt.write_all(b"\n")
}

// The digest by a kind, at the kind's width.
fn print_digest(rt: &impl Print, kind: usize, message: &[u8]) -> io::Result<()> {
    let d = digest::digest(kind, message);
    print_line(rt, &d[..CodeDirectory::slot_width(kind)])
}

// The digest of n times the byte b.
fn print_repeated(rt: &impl Print, kind: usize, b: u8, n: usize) -> io::Result<()>
    requires { n ≤ 1000000 }
{
    print_digest(rt, kind, &repeated(b)[..n])
}

// Fills a slice with the bytes 89, 220, .. : byte i is 131 * i + 89 modulo 256.
fn fill(out: &mut [u8]) {
    let mut next: u8 = 89;
    for byte in out.iter_mut() {
        *byte = next;
        next = next.wrapping_add(131);
    }
}

// The digest of every first part of a slice, the shortest first.
fn print_lengths(rt: &impl Print, kind: usize, pattern: &[u8]) -> io::Result<()>
    requires { length pattern.now ≡ 300 }
{
    for n in 0..=300 {
        print_digest(rt, kind, &pattern[..n])?;
    }
    Ok(())
}

// The SHA-256 digest of n bytes, of which a piece holds the first 8,192 and the next, and so on: taken in piece by piece.
fn print_pieces(rt: &impl Print, piece: &[u8], n: usize) -> io::Result<()>
    requires { length piece.now ≡ 8192 }
{
    let mut v = sha32::H256;
    for _ in 0..n / 8192 {
        let next = sha::absorb::<Sha256>(v, piece);
        v = next;
    }
    let last = n % 8192;
    let at = 64 * (last / 64);
    let all = sha::absorb::<Sha256>(v, &piece[0..last]);
    let value = sha::finish::<Sha256>(all, &piece[at..last], n);
    print_line(rt, &Sha256::write(value))
}

fn print_kind(rt: &impl Print, kind: usize) -> io::Result<()> {
    print_digest(rt, kind, b"")?;
    print_digest(rt, kind, b"abc")?;
    print_digest(
        rt,
        kind,
        b"abcdbcdecdefdefgefghfghighijhijkijkljklmklmnlmnomnopnopq",
    )?;
    print_digest(
        rt,
        kind,
        b"abcdefghbcdefghicdefghijdefghijkefghijklfghijklmghijklmnhijklmnoijklmnopjklmnopqklmnopqrlmnopqrsmnopqrstnopqrstu",
    )?;
    print_digest(rt, kind, b"\xbd")?;
    print_digest(rt, kind, b"\xc9\x8c\x8e\x55")?;
    print_repeated(rt, kind, 0, 55)?;
    print_repeated(rt, kind, 0, 56)?;
    print_repeated(rt, kind, 0, 57)?;
    print_repeated(rt, kind, 0, 64)?;
    print_repeated(rt, kind, 0, 1000)?;
    print_repeated(rt, kind, b'A', 1000)?;
    print_repeated(rt, kind, b'U', 1005)?;
    print_repeated(rt, kind, b'a', 1000000)?;
    print_repeated(rt, kind, 0, 1000000)?;
    let mut pattern = [0u8; 300];
    fill(&mut pattern);
    print_lengths(rt, kind, &pattern)
}

fn main(rt: HostRuntime) -> io::Result<()> {
    print_kind(&rt, HashKind::Sha1.number())?;
    print_kind(&rt, HashKind::Sha256.number())?;
    print_pieces(&rt, &[b'Z'; 8192], 536870912)?;
    print_kind(&rt, HashKind::Sha256Truncated.number())?;
    print_kind(&rt, HashKind::Sha384.number())?;
    print_digest(&rt, 0, b"abc")?;
    print_digest(&rt, 5, b"abc")?;
    let full =
        b"\xc4\x6e\x56\xe9\x49\x0d\x93\xfe\x35\xa7\x61\x99\xbd\xb3\x67\xb3\x46\x3c\x91\xdc\xdb\x3c\x46\x40\x3a\xb8\xba\x1c\x2d\x13\xfd\x86\0\0\0\0\0\0\0\0\0\0\0\0\0\0\0\0";
    print_line(&rt, &digest::cut(*full))
}
