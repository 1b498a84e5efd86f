// SHA-256 of four messages of one length, side by side (FIPS 180-4, section 6.2).
//
// Four messages at once take about twice the time of one: `word` and `block` are written so that the compiler puts the words of the four
// into vector registers, which every x86-64 has. The last bytes of each message, with the padding, go through `sha32`. The messages have four
// names, and no array, since the clauses speak of each.
#![tactic(auto)]

mod block;
mod word;

ghost use Rattle.std.specs.Prelude.{◌≡◌, [], ◌∷◌, ◌/◌, ◌<◌, length};
ghost use Rattle.sha.specs.Hash.{chain, digest};
ghost use Rattle.sha.specs.Sha2.{sha256, h256};
ghost use Rattle.sha256x4.specs.Lanes.{lane, Four};

use block::compress_blocks;
use sha32::{H256, Sha256};

// The initial hash value of each message.
fn start() -> [u32; 32]
    ensures { Four (λ j. lane 8 j result ≡ h256) }
{
    let h = H256;
    [
        h[0], h[0], h[0], h[0], h[1], h[1], h[1], h[1], h[2], h[2], h[2], h[2], h[3], h[3], h[3],
        h[3], h[4], h[4], h[4], h[4], h[5], h[5], h[5], h[5], h[6], h[6], h[6], h[6], h[7], h[7],
        h[7], h[7],
    ]
}

// The hash values after the whole blocks of four messages of one length; the bytes behind them are not read.
fn absorb(a: &[u8], b: &[u8], c: &[u8], d: &[u8]) -> [u32; 32]
    requires { (length b.now ≡ length a.now) × (length c.now ≡ length a.now) × (length d.now ≡ length a.now) }
    ensures { (lane 8 0 result ≡ chain sha256 h256 a.now (length a.now / 64)) × (lane 8 1 result ≡ chain sha256 h256 b.now (length b.now / 64)) × (lane 8 2 result ≡ chain sha256 h256 c.now (length c.now / 64)) × (lane 8 3 result ≡ chain sha256 h256 d.now (length d.now / 64)) }
{
    let mut v = start();
    for i in 0..a.len() / 64 {
        // The prover takes a call's array into a name of its own alone.
        let next = compress_blocks(v, a, b, c, d, 64 * i);
        v = next;
    }
    v
}

// The digest of message j, from the hash values after the whole blocks.
fn close(v: [u32; 32], j: usize, part: &[u8]) -> [u8; 32]
    requires { (j < 4) × (lane 8 j v ≡ chain sha256 h256 part.now (length part.now / 64)) }
    ensures { result ≡ digest sha256 part.now }
{
    let h = [
        v[j],
        v[4 + j],
        v[8 + j],
        v[12 + j],
        v[16 + j],
        v[20 + j],
        v[24 + j],
        v[28 + j],
    ];
    sha::close::<Sha256>(h, part)
}

// The digests of four messages of one length.
pub fn digests(a: &[u8], b: &[u8], c: &[u8], d: &[u8]) -> [[u8; 32]; 4]
    requires { (length b.now ≡ length a.now) × (length c.now ≡ length a.now) × (length d.now ≡ length a.now) }
    ensures { result ≡ digest sha256 a.now ∷ digest sha256 b.now ∷ digest sha256 c.now ∷ digest sha256 d.now ∷ [] }
{
    let v = absorb(a, b, c, d);
    [
        close(v, 0, a),
        close(v, 1, b),
        close(v, 2, c),
        close(v, 3, d),
    ]
}
