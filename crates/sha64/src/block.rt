// The block step of SHA-384 and SHA-512, FIPS 180-4, section 6.4.2.
//
// Names are the standard's: a block's words w, the working words s (a to h), T1 and T2, the hash value h. Sixteen words of the schedule
// are kept: each new one takes the place of the one sixteen before it, in the step whose round uses that one. Every call gives its place
// as a literal, and so its index in the table of constants: neither needs an array in memory.
//
// `sha32` has the same rounds for words of 32 bits. One text for both would hold arrays of a type parameter, whose size and length a proof
// does not know.
ghost use Rattle.std.specs.Prelude.{◌≡◌, ◌+◌, ◌*◌, ◌<◌, ◌≤◌, length, take, drop, slice_index};
ghost use Rattle.sha.specs.Words.{sums};
ghost use Rattle.sha.specs.Message.{words};
ghost use Rattle.sha.specs.Sha2.{t1, t2, round, rounds, mix, mixed, schedule, compress, core512, k512};
ghost use Rattle.sha.specs.Window.{renewed, rolled, ran, round_of_core};

use super::load::load_block;
use super::word::{add, big_sigma0, big_sigma1, choose, majority, small_sigma0, small_sigma1};

// The round constants, section 4.2.3.
const K512: [u64; 80] = [
    0x428a2f98d728ae22,
    0x7137449123ef65cd,
    0xb5c0fbcfec4d3b2f,
    0xe9b5dba58189dbbc,
    0x3956c25bf348b538,
    0x59f111f1b605d019,
    0x923f82a4af194f9b,
    0xab1c5ed5da6d8118,
    0xd807aa98a3030242,
    0x12835b0145706fbe,
    0x243185be4ee4b28c,
    0x550c7dc3d5ffb4e2,
    0x72be5d74f27b896f,
    0x80deb1fe3b1696b1,
    0x9bdc06a725c71235,
    0xc19bf174cf692694,
    0xe49b69c19ef14ad2,
    0xefbe4786384f25e3,
    0x0fc19dc68b8cd5b5,
    0x240ca1cc77ac9c65,
    0x2de92c6f592b0275,
    0x4a7484aa6ea6e483,
    0x5cb0a9dcbd41fbd4,
    0x76f988da831153b5,
    0x983e5152ee66dfab,
    0xa831c66d2db43210,
    0xb00327c898fb213f,
    0xbf597fc7beef0ee4,
    0xc6e00bf33da88fc2,
    0xd5a79147930aa725,
    0x06ca6351e003826f,
    0x142929670a0e6e70,
    0x27b70a8546d22ffc,
    0x2e1b21385c26c926,
    0x4d2c6dfc5ac42aed,
    0x53380d139d95b3df,
    0x650a73548baf63de,
    0x766a0abb3c77b2a8,
    0x81c2c92e47edaee6,
    0x92722c851482353b,
    0xa2bfe8a14cf10364,
    0xa81a664bbc423001,
    0xc24b8b70d0f89791,
    0xc76c51a30654be30,
    0xd192e819d6ef5218,
    0xd69906245565a910,
    0xf40e35855771202a,
    0x106aa07032bbd1b8,
    0x19a4c116b8d2d0c8,
    0x1e376c085141ab53,
    0x2748774cdf8eeb99,
    0x34b0bcb5e19b48a8,
    0x391c0cb3c5c95a63,
    0x4ed8aa4ae3418acb,
    0x5b9cca4f7763e373,
    0x682e6ff3d6b2b8a3,
    0x748f82ee5defb2fc,
    0x78a5636f43172f60,
    0x84c87814a1f0ab72,
    0x8cc702081a6439ec,
    0x90befffa23631e28,
    0xa4506cebde82bde9,
    0xbef9a3f7b2c67915,
    0xc67178f2e372532b,
    0xca273eceea26619c,
    0xd186b8c721c0c207,
    0xeada7dd6cde0eb1e,
    0xf57d4f7fee6ed178,
    0x06f067aa72176fba,
    0x0a637dc5a2c898a6,
    0x113f9804bef90dae,
    0x1b710b35131c471b,
    0x28db77f523047d84,
    0x32caab7b40c72493,
    0x3c9ebe0a15c9bebc,
    0x431d67c49c100d4c,
    0x4cc5d4becb3e42b6,
    0x597f299cfc657e2a,
    0x5fcb6fab3ad6faec,
    0x6c44198c4a475817,
];

// T1 of a round.
fn temp1(e: u64, f: u64, g: u64, h: u64, k: u64, w: u64) -> u64
    ensures { result ≡ t1 core512 e f g h k w }
{
    add(add(add(add(h, big_sigma1(e)), choose(e, f, g)), k), w)
}

// T2 of a round.
fn temp2(a: u64, b: u64, c: u64) -> u64
    ensures { result ≡ t2 core512 a b c }
{
    add(big_sigma0(a), majority(a, b, c))
}

// One round, with the constant k and the schedule's word w.
fn round_step(s: [u64; 8], k: u64, w: u64) -> [u64; 8]
    ensures { result ≡ round core512 s k w }
{
    let x = temp1(s[4], s[5], s[6], s[7], k, w);
    let y = temp2(s[0], s[1], s[2]);
    [add(x, y), s[0], s[1], s[2], add(s[3], x), s[4], s[5], s[6]]
}

// A word of the schedule, from the words 2, 7, 15 and 16 places before it.
fn next_word(w2: u64, w7: u64, w15: u64, w16: u64) -> u64
    ensures { result ≡ mix core512 w2 w7 w15 w16 }
{
    add(add(add(w16, w7), small_sigma0(w15)), small_sigma1(w2))
}

// The sixteen words kept, with the word sixteen after the one at place i in its place.
fn renew_word(m: [u64; 16], i: usize) -> [u64; 16]
    requires { i < 16 }
    ensures { result ≡ renewed (mixed core512) i m }
{
    let mut w = m;
    w[i] = next_word(w[(i + 14) % 16], w[(i + 9) % 16], w[(i + 1) % 16], w[i]);
    w
}

// The closing sum, of words of another type than `sha32::add_words` has.
fn add_words(h: [u64; 8], s: [u64; 8]) -> [u64; 8]
    ensures { result ≡ sums 64 8 h s }
{
    [
        add(h[0], s[0]),
        add(h[1], s[1]),
        add(h[2], s[2]),
        add(h[3], s[3]),
        add(h[4], s[4]),
        add(h[5], s[5]),
        add(h[6], s[6]),
        add(h[7], s[7]),
    ]
}

// The constants of sixteen rounds, from round t on.
fn constants_from(k: [u64; 80], t: usize) -> [u64; 16]
    requires { t + 16 ≤ 80 }
    ensures { result ≡ take 16 (drop t k) }
{
    [
        k[t],
        k[t + 1],
        k[t + 2],
        k[t + 3],
        k[t + 4],
        k[t + 5],
        k[t + 6],
        k[t + 7],
        k[t + 8],
        k[t + 9],
        k[t + 10],
        k[t + 11],
        k[t + 12],
        k[t + 13],
        k[t + 14],
        k[t + 15],
    ]
}

// The constants of a turn of sixteen rounds. The compiler puts what such a `match` chooses among into the program's constants, so that no
// table is built on the stack.
fn constants(turn: usize) -> [u64; 16]
    requires { turn < 5 }
    ensures { result ≡ take 16 (drop (16 * turn) k512) }
{
    let k = K512;
    match turn {
        0 => constants_from(k, 0),
        1 => constants_from(k, 16),
        2 => constants_from(k, 32),
        3 => constants_from(k, 48),
        _ => constants_from(k, 64),
    }
}

// Round i of a turn, with the constant and the word at place i.
fn round_at(s: [u64; 8], w: [u64; 16], k: [u64; 16], i: usize) -> [u64; 8]
    requires { i < 16 }
    ensures { result ≡ round_of_core core512 k i s (slice_index w i) }
{
    round_step(s, k[i], w[i])
}

// The working words, and the sixteen words of the schedule that are kept.
#[derive(Clone, Copy)]
struct State {
    s: [u64; 8],
    w: [u64; 16],
}

// The new word at place i, and round i of a turn with the word that stood there. The word is made first: otherwise the compiled code's time
// goes by where it lies (docs/DECISIONS.md).
fn step(x: State, k: [u64; 16], i: usize) -> State
    requires { i < 16 }
    ensures { (result.s ≡ round_of_core core512 k i x.s (slice_index x.w i)) × (result.w ≡ renewed (mixed core512) i x.w) }
{
    let s = x.s;
    let w = x.w;
    State {
        w: renew_word(w, i),
        s: round_at(s, w, k, i),
    }
}

// Eight rounds of a turn, from place FROM on, with their new words. The places are written out, here and in `last_rounds`: a loop over them
// keeps the words in memory, and takes more than twice the time.
fn steps<const FROM: usize>(x: State, k: [u64; 16]) -> State
    requires { FROM + 8 ≤ 16 }
    ensures { (result.s ≡ ran (round_of_core core512 k) 0 FROM 8 x.s x.w) × (result.w ≡ rolled (mixed core512) FROM 8 x.w) }
{
    let x1 = step(x, k, FROM);
    let x2 = step(x1, k, FROM + 1);
    let x3 = step(x2, k, FROM + 2);
    let x4 = step(x3, k, FROM + 3);
    let x5 = step(x4, k, FROM + 4);
    let x6 = step(x5, k, FROM + 5);
    let x7 = step(x6, k, FROM + 6);
    step(x7, k, FROM + 7)
}

// The sixteen rounds of the last turn, which needs no new word.
fn last_rounds(s: [u64; 8], w: [u64; 16], k: [u64; 16]) -> [u64; 8]
    ensures { result ≡ ran (round_of_core core512 k) 0 0 16 s w }
{
    let s1 = round_at(s, w, k, 0);
    let s2 = round_at(s1, w, k, 1);
    let s3 = round_at(s2, w, k, 2);
    let s4 = round_at(s3, w, k, 3);
    let s5 = round_at(s4, w, k, 4);
    let s6 = round_at(s5, w, k, 5);
    let s7 = round_at(s6, w, k, 6);
    let s8 = round_at(s7, w, k, 7);
    let s9 = round_at(s8, w, k, 8);
    let s10 = round_at(s9, w, k, 9);
    let s11 = round_at(s10, w, k, 10);
    let s12 = round_at(s11, w, k, 11);
    let s13 = round_at(s12, w, k, 12);
    let s14 = round_at(s13, w, k, 13);
    let s15 = round_at(s14, w, k, 14);
    round_at(s15, w, k, 15)
}

// The 80 rounds of the block m.
fn run_rounds(h: [u64; 8], m: [u64; 16]) -> [u64; 8]
    ensures { result ≡ rounds core512 80 h (schedule core512 64 m) }
{
    let mut x = State { s: h, w: m };
    for turn in 0..4 {
        let k = constants(turn);
        let y = steps::<0>(x, k);
        x = steps::<8>(y, k);
    }
    last_rounds(x.s, x.w, constants(4))
}

// The hash value after the block at byte `at`.
pub fn compress_block(h: [u64; 8], b: &[u8], at: usize) -> [u64; 8]
    requires { at + 128 ≤ length b.now }
    ensures { result ≡ compress core512 h (words 8 16 b.now at) }
{
    add_words(h, run_rounds(h, load_block(b, at)))
}
