// SHA-384 of FIPS 180-4, over words of 64 bits.
//
// `word` has the functions of one word, `load` the words of a block, `block` the compression of one block.
#![tactic(auto)]

mod block;
mod load;
mod word;

ghost use Rattle.sha.specs.Sha2.{sha384};
ghost use Rattle.sha.proofs.Sizes.{sizes64};

use block::compress_block;
use sha::HashFunction;

// The initial hash value, FIPS 180-4, section 5.3.4.
const H384: [u64; 8] = [
    0xcbbb9d5dc1059ed8,
    0x629a292a367cd507,
    0x9159015a3070dd17,
    0x152fecd8f70e5939,
    0x67332667ffc00b31,
    0x8eb44a8768581511,
    0xdb0c2e0d64f98fa7,
    0x47b5481dbefa4fa4,
];

// SHA-384, section 6.5.
pub struct Sha384;

impl HashFunction for Sha384 {
    type Value = [u64; 8];

    type Digest = [u8; 48];

    const BLOCK: usize = 128;

    ghost BLOCK = { 128 };

    const LENGTH: usize = 16;

    ghost LENGTH = { 16 };

    ghost hash = { sha384 };

    ghost words_of = { λ h. h };

    ghost bytes_of = { λ d. d };

    fn start() -> [u64; 8] {
        H384
    }

    fn compress(h: [u64; 8], b: &[u8], at: usize) -> [u64; 8] {
        compress_block(h, b, at)
    }

    // The first six words of the hash value.
    fn write(h: [u64; 8]) -> [u8; 48] {
        sha::write_words(8, &h[..6])
    }

    ghost sizes = { sizes64 };
}
