// The digest of a message, FIPS 180-4, section 6, over what sets the hash functions apart.
ghost use Rattle.std.specs.Prelude.{◌≡◌, ℕ, ◌+◌, ◌*◌, ◌/◌, ◌%◌, ◌≤◌, ◌++◌, List, length, take};
ghost use Rattle.sha.specs.Message.{words, all_bytes, padding};
ghost use Rattle.sha.specs.Hash.{Hash, chain, chained, digest};
ghost use Rattle.sha.specs.Sizes.{Sizes};

use super::tail::{close_tail, put_number};

// A hash function.
pub trait HashFunction {
    // A hash value, an array of words.
    type Value: Copy;

    // A digest, an array of bytes.
    type Digest;

    // The bytes of a block.
    const BLOCK: usize;

    ghost BLOCK: { ℕ };

    // The bytes of a message's length, at the end of the last block.
    const LENGTH: usize;

    ghost LENGTH: { ℕ };

    ghost hash: { Hash };

    ghost words_of: { Self.Value → List ℕ };

    ghost bytes_of: { Self.Digest → List ℕ };

    // The initial hash value.
    fn start() -> Self::Value
        ensures { words_of result ≡ hash.start };

    // The hash value after the block at byte `at`.
    fn compress(h: Self::Value, b: &[u8], at: usize) -> Self::Value
        requires { at + BLOCK ≤ length b.now }
        ensures { words_of result ≡ hash.block (words_of h) (words hash.size 16 b.now at) };

    // The digest of a message, from its hash value.
    fn write(h: Self::Value) -> Self::Digest
        ensures { bytes_of result ≡ take hash.width (all_bytes hash.size hash.count (words_of h)) };

    ghost sizes: { Sizes hash.size BLOCK LENGTH };
}

// The hash value after the whole blocks of a part; the bytes behind them are not read.
pub fn absorb<F: HashFunction>(h: F::Value, part: &[u8]) -> F::Value
    ensures { F.words_of result ≡ chain F.hash (F.words_of h) part.now (length part.now / (16 * F.hash.size)) }
{
    let block = F::BLOCK;
    let mut v = h;
    for i in 0..part.len() / block {
        v = F::compress(v, part, block * i);
    }
    v
}

// The hash value of a message of n bytes: h is the one after its whole blocks, and rest the bytes behind them. With the padding they
// are one block, or two where the bit 1 and the length do not fit behind them; one buffer serves both.
pub fn finish<F: HashFunction>(h: F::Value, rest: &[u8], n: usize) -> F::Value
    requires { length rest.now ≡ n % (16 * F.hash.size) }
    ensures { F.words_of result ≡ chained F.hash (F.words_of h) (rest.now ++ padding F.hash.size n) }
{
    let block = F::BLOCK;
    let width = F::LENGTH;
    let end = block * ((rest.len() + width) / block + 1);
    let mut t = [0u8; 256];
    close_tail(&mut t, rest, n, end, width / 2);
    let v = F::compress(h, &t, 0);
    if end == block {
        return v;
    }
    F::compress(v, &t, block)
}

// The digest of a part, from the hash value after its whole blocks.
pub fn close<F: HashFunction>(h: F::Value, part: &[u8]) -> F::Digest
    requires { F.words_of h ≡ chain F.hash F.hash.start part.now (length part.now / (16 * F.hash.size)) }
    ensures { F.bytes_of result ≡ digest F.hash part.now }
{
    let block = F::BLOCK;
    let at = block * (part.len() / block);
    F::write(finish::<F>(h, &part[at..], part.len()))
}

// The digest of a part.
pub fn digest<F: HashFunction>(part: &[u8]) -> F::Digest
    ensures { F.bytes_of result ≡ digest F.hash part.now }
{
    close::<F>(absorb::<F>(F::start(), part), part)
}

// The bytes of words, z of each, the most significant first.
pub fn write_words<const N: usize>(z: usize, h: &[u64]) -> [u8; N]
    requires { z * length h.now ≡ N }
    ensures { result ≡ all_bytes z (length h.now) h.now }
{
    let mut out = [0u8; N];
    for (i, word) in h.iter().enumerate() {
        put_number(&mut out, z * i, z, *word);
    }
    out
}
