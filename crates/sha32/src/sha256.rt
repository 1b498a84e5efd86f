// The block step of SHA-256, FIPS 180-4, section 6.2.2.
//
// Names are the standard's: a block's words w, the working words s (a to h), T1 and T2, the hash value h. Sixteen words of the schedule
// are kept: each new one takes the place of the one sixteen before it, in the step whose round uses that one. Every call gives its place
// as a literal, and so its index in the table of constants: neither needs an array in memory.
ghost use Rattle.std.specs.Prelude.{◌≡◌, ◌+◌, ◌*◌, ◌<◌, ◌≤◌, length, take, drop, slice_index};
ghost use Rattle.sha.specs.Sha2.{t1, t2, round, rounds, mix, mixed, schedule, core256, k256, sha256};
ghost use Rattle.sha.specs.Window.{renewed, rolled, ran, round_of_core};
ghost use Rattle.sha.proofs.Sizes.{sizes32};

use super::load::load_block;
use super::word::{Rotations, Sigmas, add, add_words, choose, majority, wide};
use sha::HashFunction;

// The initial hash value, section 5.3.3.
pub const H256: [u32; 8] = [
    0x6a09e667, 0xbb67ae85, 0x3c6ef372, 0xa54ff53a, 0x510e527f, 0x9b05688c, 0x1f83d9ab, 0x5be0cd19,
];

// The round constants, section 4.2.2.
pub const K256: [u32; 64] = [
    0x428a2f98, 0x71374491, 0xb5c0fbcf, 0xe9b5dba5, 0x3956c25b, 0x59f111f1, 0x923f82a4, 0xab1c5ed5,
    0xd807aa98, 0x12835b01, 0x243185be, 0x550c7dc3, 0x72be5d74, 0x80deb1fe, 0x9bdc06a7, 0xc19bf174,
    0xe49b69c1, 0xefbe4786, 0x0fc19dc6, 0x240ca1cc, 0x2de92c6f, 0x4a7484aa, 0x5cb0a9dc, 0x76f988da,
    0x983e5152, 0xa831c66d, 0xb00327c8, 0xbf597fc7, 0xc6e00bf3, 0xd5a79147, 0x06ca6351, 0x14292967,
    0x27b70a85, 0x2e1b2138, 0x4d2c6dfc, 0x53380d13, 0x650a7354, 0x766a0abb, 0x81c2c92e, 0x92722c85,
    0xa2bfe8a1, 0xa81a664b, 0xc24b8b70, 0xc76c51a3, 0xd192e819, 0xd6990624, 0xf40e3585, 0x106aa070,
    0x19a4c116, 0x1e376c08, 0x2748774c, 0x34b0bcb5, 0x391c0cb3, 0x4ed8aa4a, 0x5b9cca4f, 0x682e6ff3,
    0x748f82ee, 0x78a5636f, 0x84c87814, 0x8cc70208, 0x90befffa, 0xa4506ceb, 0xbef9a3f7, 0xc67178f2,
];

// T1 of a round.
pub fn temp1<S: Sigmas>(e: u32, f: u32, g: u32, h: u32, k: u32, w: u32) -> u32
    ensures { result ≡ t1 core256 e f g h k w }
{
    add(add(add(add(h, S::big_sigma1(e)), choose(e, f, g)), k), w)
}

// T2 of a round.
pub fn temp2<S: Sigmas>(a: u32, b: u32, c: u32) -> u32
    ensures { result ≡ t2 core256 a b c }
{
    add(S::big_sigma0(a), majority(a, b, c))
}

// One round, with the constant k and the schedule's word w.
fn round_step(s: [u32; 8], k: u32, w: u32) -> [u32; 8]
    ensures { result ≡ round core256 s k w }
{
    let x = temp1::<Rotations>(s[4], s[5], s[6], s[7], k, w);
    let y = temp2::<Rotations>(s[0], s[1], s[2]);
    [add(x, y), s[0], s[1], s[2], add(s[3], x), s[4], s[5], s[6]]
}

// A word of the schedule, from the words 2, 7, 15 and 16 places before it.
pub fn next_word<S: Sigmas>(w2: u32, w7: u32, w15: u32, w16: u32) -> u32
    ensures { result ≡ mix core256 w2 w7 w15 w16 }
{
    add(add(add(S::small_sigma1(w2), w7), S::small_sigma0(w15)), w16)
}

// The sixteen words kept, with the word sixteen after the one at place i in its place.
fn renew_word(m: [u32; 16], i: usize) -> [u32; 16]
    requires { i < 16 }
    ensures { result ≡ renewed (mixed core256) i m }
{
    let mut w = m;
    w[i] = next_word::<Rotations>(w[(i + 14) % 16], w[(i + 9) % 16], w[(i + 1) % 16], w[i]);
    w
}

// The constants of sixteen rounds, from round t on.
fn constants_from(k: [u32; 64], t: usize) -> [u32; 16]
    requires { t + 16 ≤ 64 }
    ensures { result ≡ take 16 (drop t k) }
{
    [
        k[t],
        k[t + 1],
        k[t + 2],
        k[t + 3],
        k[t + 4],
        k[t + 5],
        k[t + 6],
        k[t + 7],
        k[t + 8],
        k[t + 9],
        k[t + 10],
        k[t + 11],
        k[t + 12],
        k[t + 13],
        k[t + 14],
        k[t + 15],
    ]
}

// The constants of a turn of sixteen rounds. The compiler puts what such a `match` chooses among into the program's constants, so that no
// table is built on the stack.
fn constants(turn: usize) -> [u32; 16]
    requires { turn < 4 }
    ensures { result ≡ take 16 (drop (16 * turn) k256) }
{
    let k = K256;
    match turn {
        0 => constants_from(k, 0),
        1 => constants_from(k, 16),
        2 => constants_from(k, 32),
        _ => constants_from(k, 48),
    }
}

// Round i of a turn, with the constant and the word at place i.
fn round_at(s: [u32; 8], w: [u32; 16], k: [u32; 16], i: usize) -> [u32; 8]
    requires { i < 16 }
    ensures { result ≡ round_of_core core256 k i s (slice_index w i) }
{
    round_step(s, k[i], w[i])
}

// The working words, and the sixteen words of the schedule that are kept.
#[derive(Clone, Copy)]
struct State {
    s: [u32; 8],
    w: [u32; 16],
}

// The new word at place i, and round i of a turn with the word that stood there. The word is made first: otherwise the compiled code's time
// goes by where it lies (docs/DECISIONS.md).
fn step(x: State, k: [u32; 16], i: usize) -> State
    requires { i < 16 }
    ensures { (result.s ≡ round_of_core core256 k i x.s (slice_index x.w i)) × (result.w ≡ renewed (mixed core256) i x.w) }
{
    let s = x.s;
    let w = x.w;
    State {
        w: renew_word(w, i),
        s: round_at(s, w, k, i),
    }
}

// Eight rounds of a turn, from place FROM on, with their new words. The places are written out, here and in `last_rounds`: a loop over them
// keeps the words in memory, and takes more than twice the time.
fn steps<const FROM: usize>(x: State, k: [u32; 16]) -> State
    requires { FROM + 8 ≤ 16 }
    ensures { (result.s ≡ ran (round_of_core core256 k) 0 FROM 8 x.s x.w) × (result.w ≡ rolled (mixed core256) FROM 8 x.w) }
{
    let x1 = step(x, k, FROM);
    let x2 = step(x1, k, FROM + 1);
    let x3 = step(x2, k, FROM + 2);
    let x4 = step(x3, k, FROM + 3);
    let x5 = step(x4, k, FROM + 4);
    let x6 = step(x5, k, FROM + 5);
    let x7 = step(x6, k, FROM + 6);
    step(x7, k, FROM + 7)
}

// The sixteen rounds of the last turn, which needs no new word.
fn last_rounds(s: [u32; 8], w: [u32; 16], k: [u32; 16]) -> [u32; 8]
    ensures { result ≡ ran (round_of_core core256 k) 0 0 16 s w }
{
    let s1 = round_at(s, w, k, 0);
    let s2 = round_at(s1, w, k, 1);
    let s3 = round_at(s2, w, k, 2);
    let s4 = round_at(s3, w, k, 3);
    let s5 = round_at(s4, w, k, 4);
    let s6 = round_at(s5, w, k, 5);
    let s7 = round_at(s6, w, k, 6);
    let s8 = round_at(s7, w, k, 7);
    let s9 = round_at(s8, w, k, 8);
    let s10 = round_at(s9, w, k, 9);
    let s11 = round_at(s10, w, k, 10);
    let s12 = round_at(s11, w, k, 11);
    let s13 = round_at(s12, w, k, 12);
    let s14 = round_at(s13, w, k, 13);
    let s15 = round_at(s14, w, k, 14);
    round_at(s15, w, k, 15)
}

// The 64 rounds of the block m.
fn run_rounds(h: [u32; 8], m: [u32; 16]) -> [u32; 8]
    ensures { result ≡ rounds core256 64 h (schedule core256 48 m) }
{
    let mut x = State { s: h, w: m };
    for turn in 0..3 {
        let k = constants(turn);
        let y = steps::<0>(x, k);
        x = steps::<8>(y, k);
    }
    last_rounds(x.s, x.w, constants(3))
}

// SHA-256, section 6.2.
pub struct Sha256;

impl HashFunction for Sha256 {
    type Value = [u32; 8];

    type Digest = [u8; 32];

    const BLOCK: usize = 64;

    ghost BLOCK = { 64 };

    const LENGTH: usize = 8;

    ghost LENGTH = { 8 };

    ghost hash = { sha256 };

    ghost words_of = { λ h. h };

    ghost bytes_of = { λ d. d };

    fn start() -> [u32; 8] {
        H256
    }

    fn compress(h: [u32; 8], b: &[u8], at: usize) -> [u32; 8] {
        add_words(&h, &run_rounds(h, load_block(b, at)))
    }

    fn write(h: [u32; 8]) -> [u8; 32] {
        sha::write_words(4, &wide(&h))
    }

    ghost sizes = { sizes32 };
}
