// The block step of SHA-256 for four messages, FIPS 180-4, section 6.2.2.
//
// Names are the standard's: a block's words w, the working words s (a to h), T1 and T2, the hash value h. Word i of message j stands at place
// 4 * i + j, so that each operation meets four words in a row, which the compiler puts into one vector register. Sixteen words of each
// message's schedule are kept, as in `sha32`; but in memory, since their places go by the round.
ghost use Rattle.std.specs.Prelude.{◌≡◌, ◌+◌, ◌*◌, ◌%◌, ◌<◌, ◌≤◌, length, get_or};
ghost use Rattle.sha.specs.Message.{words};
ghost use Rattle.sha.specs.Sha2.{round, rounds, mix, mixed, schedule, compress, core256};
ghost use Rattle.sha.specs.Window.{Last};
ghost use Rattle.sha256x4.specs.Lanes.{lane, Four};

use super::word::Shifts;
use sha32::{K256, add, add_words, next_word, temp1, temp2, word_at};

// Word t + 16 of message j's schedule, of which w holds the sixteen words from word t on, each at its place modulo 16.
fn new_word(w: &[u32; 64], t: usize, j: usize) -> u32
    requires { (t < 48) × (j < 4) }
    ensures { result ≡ mix core256 (get_or w.now (4 * ((t + 14) % 16) + j) 0) (get_or w.now (4 * ((t + 9) % 16) + j) 0) (get_or w.now (4 * ((t + 1) % 16) + j) 0) (get_or w.now (4 * (t % 16) + j) 0) }
{
    next_word::<Shifts>(
        w[4 * ((t + 14) % 16) + j],
        w[4 * ((t + 9) % 16) + j],
        w[4 * ((t + 1) % 16) + j],
        w[4 * (t % 16) + j],
    )
}

// The words at place i of the four messages. A type for a place below 16 would be longer than the clause.
fn words_at(w: &[u32; 64], i: usize) -> [u32; 4]
    requires { i < 16 }
    ensures { Four (λ j. get_or result j 0 ≡ get_or w.now (4 * i + j) 0) }
{
    [w[4 * i + 0], w[4 * i + 1], w[4 * i + 2], w[4 * i + 3]]
}

// One round of each message, with the constant k and the schedules' words w. Written out, so that the compiler finds four words in a row.
fn round_step(s: [u32; 32], k: u32, w: [u32; 4]) -> [u32; 32]
    ensures { Four (λ j. lane 8 j result ≡ round core256 (lane 8 j s) k (get_or w j 0)) }
{
    let x0 = temp1::<Shifts>(s[16], s[20], s[24], s[28], k, w[0]);
    let x1 = temp1::<Shifts>(s[17], s[21], s[25], s[29], k, w[1]);
    let x2 = temp1::<Shifts>(s[18], s[22], s[26], s[30], k, w[2]);
    let x3 = temp1::<Shifts>(s[19], s[23], s[27], s[31], k, w[3]);
    let y0 = temp2::<Shifts>(s[0], s[4], s[8]);
    let y1 = temp2::<Shifts>(s[1], s[5], s[9]);
    let y2 = temp2::<Shifts>(s[2], s[6], s[10]);
    let y3 = temp2::<Shifts>(s[3], s[7], s[11]);
    [
        add(x0, y0),
        add(x1, y1),
        add(x2, y2),
        add(x3, y3),
        s[0],
        s[1],
        s[2],
        s[3],
        s[4],
        s[5],
        s[6],
        s[7],
        s[8],
        s[9],
        s[10],
        s[11],
        add(s[12], x0),
        add(s[13], x1),
        add(s[14], x2),
        add(s[15], x3),
        s[16],
        s[17],
        s[18],
        s[19],
        s[20],
        s[21],
        s[22],
        s[23],
        s[24],
        s[25],
        s[26],
        s[27],
    ]
}

// The working words, and the sixteen words of each message's schedule that are kept.
#[derive(Clone, Copy)]
struct State {
    s: [u32; 32],
    w: [u32; 64],
}

// The first 48 rounds of the blocks m. Behind each round the new words take the places of those that it used.
fn first_rounds(h: [u32; 32], m: [u32; 64]) -> State
    ensures { Four (λ j. (lane 8 j result.s ≡ rounds core256 48 (lane 8 j h) (schedule core256 48 (lane 16 j m))) × Last (mixed core256) (lane 16 j m) 48 (lane 16 j result.w)) }
{
    let k = K256;
    let mut s = h;
    let mut w = m;
    for t in 0..48 {
        // The prover takes a call's array into a name of its own alone.
        let n = round_step(s, k[t], words_at(&w, t % 16));
        s = n;
        let a = new_word(&w, t, 0);
        let b = new_word(&w, t, 1);
        let c = new_word(&w, t, 2);
        let d = new_word(&w, t, 3);
        let i = 4 * (t % 16);
        w[i] = a;
        w[i + 1] = b;
        w[i + 2] = c;
        w[i + 3] = d;
    }
    State { s, w }
}

// The 64 rounds of the blocks m; the last sixteen need no new words.
fn run_rounds(h: [u32; 32], m: [u32; 64]) -> [u32; 32]
    ensures { Four (λ j. lane 8 j result ≡ rounds core256 64 (lane 8 j h) (schedule core256 48 (lane 16 j m))) }
{
    let k = K256;
    let x = first_rounds(h, m);
    let w = x.w;
    let mut s = x.s;
    for t in 48..64 {
        // Into a name of its own, as above.
        let n = round_step(s, k[t], words_at(&w, t - 48));
        s = n;
    }
    s
}

// The words of four blocks, at byte `at` of each message.
fn load_blocks(a: &[u8], b: &[u8], c: &[u8], d: &[u8], at: usize) -> [u32; 64]
    requires { (at + 64 ≤ length a.now) × (at + 64 ≤ length b.now) × (at + 64 ≤ length c.now) × (at + 64 ≤ length d.now) }
    ensures { (lane 16 0 result ≡ words 4 16 a.now at) × (lane 16 1 result ≡ words 4 16 b.now at) × (lane 16 2 result ≡ words 4 16 c.now at) × (lane 16 3 result ≡ words 4 16 d.now at) }
{
    let mut w = [0u32; 64];
    for i in 0..16 {
        let o = 4 * i;
        let x = word_at(a, at + o);
        let y = word_at(b, at + o);
        let z = word_at(c, at + o);
        let v = word_at(d, at + o);
        w[o] = x;
        w[o + 1] = y;
        w[o + 2] = z;
        w[o + 3] = v;
    }
    w
}

// The hash values after the blocks at byte `at` of each message.
pub fn compress_blocks(h: [u32; 32], a: &[u8], b: &[u8], c: &[u8], d: &[u8], at: usize) -> [u32; 32]
    requires { (at + 64 ≤ length a.now) × (at + 64 ≤ length b.now) × (at + 64 ≤ length c.now) × (at + 64 ≤ length d.now) }
    ensures { (lane 8 0 result ≡ compress core256 (lane 8 0 h) (words 4 16 a.now at)) × (lane 8 1 result ≡ compress core256 (lane 8 1 h) (words 4 16 b.now at)) × (lane 8 2 result ≡ compress core256 (lane 8 2 h) (words 4 16 c.now at)) × (lane 8 3 result ≡ compress core256 (lane 8 3 h) (words 4 16 d.now at)) }
{
    add_words(&h, &run_rounds(h, load_blocks(a, b, c, d, at)))
}
