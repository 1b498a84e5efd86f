// The block step of SHA-1, FIPS 180-4, section 6.1.2.
//
// Names are the standard's: a block's words w, the working words s (a to e), T, the hash value h. Sixteen words of the schedule are kept:
// each new one stands in the place of the one sixteen before it, behind the round that uses that one. Every call gives
// its place as a literal.
ghost use Rattle.std.specs.Prelude.{◌≡◌, ◌+◌, ◌<◌, ◌≤◌, length, slice_index};
ghost use Rattle.sha.specs.Sha1.{f1, k1, mix1, mixed1, temp, round1, rounds1, schedule1, sha1};
ghost use Rattle.sha.proofs.Sizes.{sizes32};
ghost use Rattle.sha.specs.Window.{renewed, rolled, ran};

use super::load::load_block;
use super::word::{add, add_words, choose, majority, parity, rotate_left, wide};
use sha::HashFunction;

// The initial hash value, section 5.3.1.
const H1: [u32; 5] = [0x67452301, 0xefcdab89, 0x98badcfe, 0x10325476, 0xc3d2e1f0];

// The function of round t, section 4.1.1.
fn logical(t: usize, x: u32, y: u32, z: u32) -> u32
    ensures { result ≡ f1 t x y z }
{
    match t {
        0..=19 => choose(x, y, z),
        20..=39 => parity(x, y, z),
        40..=59 => majority(x, y, z),
        _ => parity(x, y, z),
    }
}

// The constant of round t, section 4.2.1.
fn constant(t: usize) -> u32
    ensures { result ≡ k1 t }
{
    match t {
        0..=19 => 0x5a827999,
        20..=39 => 0x6ed9eba1,
        40..=59 => 0x8f1bbcdc,
        _ => 0xca62c1d6,
    }
}

// T of round t, with the schedule's word w.
fn temp(t: usize, s: [u32; 5], w: u32) -> u32
    ensures { result ≡ temp t (slice_index s 0) (slice_index s 1) (slice_index s 2) (slice_index s 3) (slice_index s 4) w }
{
    add(
        add(
            add(
                add(rotate_left(s[0], 5), logical(t, s[1], s[2], s[3])),
                s[4],
            ),
            constant(t),
        ),
        w,
    )
}

// Round t, with the schedule's word w.
fn round_step(t: usize, s: [u32; 5], w: u32) -> [u32; 5]
    ensures { result ≡ round1 t s w }
{
    [temp(t, s, w), s[0], rotate_left(s[1], 30), s[2], s[3]]
}

// A word of the schedule, from the words 3, 8, 14 and 16 places before it.
fn next_word(w3: u32, w8: u32, w14: u32, w16: u32) -> u32
    ensures { result ≡ mix1 w3 w8 w14 w16 }
{
    rotate_left(w3 ^ w8 ^ w14 ^ w16, 1)
}

// The sixteen words kept, with the word sixteen after the one at place i in its place.
fn renew_word(m: [u32; 16], i: usize) -> [u32; 16]
    requires { i < 16 }
    ensures { result ≡ renewed mixed1 i m }
{
    let mut w = m;
    w[i] = next_word(w[(i + 13) % 16], w[(i + 8) % 16], w[(i + 2) % 16], w[i]);
    w
}

// The working words, and the sixteen words of the schedule that are kept. As in `sha256`, with five words for eight, rounds that go by their
// number, and the new word behind the round: no line is the same.
#[derive(Clone, Copy)]
struct State {
    s: [u32; 5],
    w: [u32; 16],
}

// Round t + i, with the word at place i, and then the new word there.
fn step(x: State, t: usize, i: usize) -> State
    requires { (t ≤ 64) × (i < 16) }
    ensures { (result.s ≡ round1 (t + i) x.s (slice_index x.w i)) × (result.w ≡ renewed mixed1 i x.w) }
{
    let s = x.s;
    let w = x.w;
    State {
        s: round_step(t + i, s, w[i]),
        w: renew_word(w, i),
    }
}

// Eight rounds of a turn of sixteen from t on, from place FROM on, with their new words. The places are written out, here and in
// `last_rounds`: a loop over them keeps the words in memory, and takes more than twice the time.
fn steps<const FROM: usize>(x: State, t: usize) -> State
    requires { (t ≤ 64) × (FROM + 8 ≤ 16) }
    ensures { (result.s ≡ ran round1 t FROM 8 x.s x.w) × (result.w ≡ rolled mixed1 FROM 8 x.w) }
{
    let x1 = step(x, t, FROM);
    let x2 = step(x1, t, FROM + 1);
    let x3 = step(x2, t, FROM + 2);
    let x4 = step(x3, t, FROM + 3);
    let x5 = step(x4, t, FROM + 4);
    let x6 = step(x5, t, FROM + 5);
    let x7 = step(x6, t, FROM + 6);
    step(x7, t, FROM + 7)
}

// The sixteen rounds of the last turn, which needs no new word.
fn last_rounds(s: [u32; 5], w: [u32; 16]) -> [u32; 5]
    ensures { result ≡ ran round1 64 0 16 s w }
{
    let s1 = round_step(64, s, w[0]);
    let s2 = round_step(65, s1, w[1]);
    let s3 = round_step(66, s2, w[2]);
    let s4 = round_step(67, s3, w[3]);
    let s5 = round_step(68, s4, w[4]);
    let s6 = round_step(69, s5, w[5]);
    let s7 = round_step(70, s6, w[6]);
    let s8 = round_step(71, s7, w[7]);
    let s9 = round_step(72, s8, w[8]);
    let s10 = round_step(73, s9, w[9]);
    let s11 = round_step(74, s10, w[10]);
    let s12 = round_step(75, s11, w[11]);
    let s13 = round_step(76, s12, w[12]);
    let s14 = round_step(77, s13, w[13]);
    let s15 = round_step(78, s14, w[14]);
    round_step(79, s15, w[15])
}

// The 80 rounds of the block m.
fn run_rounds(h: [u32; 5], m: [u32; 16]) -> [u32; 5]
    ensures { result ≡ rounds1 80 h (schedule1 64 m) }
{
    let mut x = State { s: h, w: m };
    for turn in 0..4 {
        let y = steps::<0>(x, 16 * turn);
        x = steps::<8>(y, 16 * turn);
    }
    last_rounds(x.s, x.w)
}

// SHA-1, section 6.1.
pub struct Sha1;

impl HashFunction for Sha1 {
    type Value = [u32; 5];

    type Digest = [u8; 20];

    const BLOCK: usize = 64;

    ghost BLOCK = { 64 };

    const LENGTH: usize = 8;

    ghost LENGTH = { 8 };

    ghost hash = { sha1 };

    ghost words_of = { λ h. h };

    ghost bytes_of = { λ d. d };

    fn start() -> [u32; 5] {
        H1
    }

    fn compress(h: [u32; 5], b: &[u8], at: usize) -> [u32; 5] {
        add_words(&h, &run_rounds(h, load_block(b, at)))
    }

    fn write(h: [u32; 5]) -> [u8; 20] {
        sha::write_words(4, &wide(&h))
    }

    ghost sizes = { sizes32 };
}
