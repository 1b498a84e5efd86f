// The last blocks of a message, FIPS 180-4, section 5.1, over z, the bytes of a word.
ghost use Rattle.std.specs.Prelude.{◌≡◌, ◌∷◌, ◌++◌, ◌+◌, ◌-◌, ◌*◌, ◌<◌, ◌≤◌, length, take, drop, replicate};
ghost use Rattle.endian.specs.Numbers.{bytes};

// Stores the last `width` bytes of x from byte `at` on, the most significant first.
pub fn put_number(out: &mut [u8], at: usize, width: usize, x: u64)
    requires { at + width ≤ length out.old }
    ensures { out.new ≡ take at out.old ++ bytes width x ++ drop (at + width) out.old }
{
    let mut y = x;
    for i in 0..width {
        out[at + (width - 1 - i)] = (y % 256) as u8;
        y /= 256;
    }
}

// Puts a message's last bytes and the bit 1 at the start of a buffer.
fn open_tail(out: &mut [u8], rest: &[u8])
    requires { length rest.now < length out.old }
    ensures { out.new ≡ rest.now ++ 128 ∷ drop (length rest.now + 1) out.old }
{
    let n = rest.len();
    out[..n].copy_from_slice(rest);
    out[n] = 128;
}

// The same, with the length in bits of a message of n bytes, a number of two words, at the end of the buffer's first e bytes. The
// buffer is lent as zeros, and of its bytes behind these nothing is claimed. 8 * n can exceed a machine word, so its last byte and those before it are taken from n.
pub fn close_tail(out: &mut [u8], rest: &[u8], n: usize, e: usize, z: usize)
    requires { (out.old ≡ replicate (length out.old) 0) × (e ≤ length out.old) × (length rest.now + 1 + 2 * z ≤ e) × (0 < z) }
    ensures { take e out.new ≡ rest.now ++ (128 ∷ replicate (e - (1 + 2 * z) - length rest.now) 0) ++ bytes (2 * z) (8 * n) }
{
    open_tail(out, rest);
    put_number(out, e - 2 * z, 2 * z - 1, (n / 32) as u64);
    out[e - 1] = (n % 32 * 8) as u8;
}
