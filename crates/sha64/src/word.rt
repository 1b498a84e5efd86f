// The functions of FIPS 180-4, section 4.1.3, on words of 64 bits. Ch and Maj are computed in forms that take fewer operations
// than the standard's (`ch_short` and `maj_short` of `sha`). The sigmas rotate around a rotation (`big_sigma_nested`, `small_sigma_nested`),
// which takes fewer copies of the word where a rotation overwrites what it rotates; but for Σ1, on whose result a round waits longest.
// That add, rotate, Ch and Maj stand here and in `sha32`: the reason is there.
ghost use Rattle.std.specs.Prelude.{◌≡◌, ◌<◌};
ghost use Rattle.sha.specs.Words.{plus, rotr, ch, maj, big_sigma, small_sigma};

pub fn add(a: u64, b: u64) -> u64
    ensures { result ≡ plus 64 a b }
{
    a.wrapping_add(b)
}

// ROTR as the standard writes it, section 3.2; the compiler makes one instruction of it.
pub fn rotate(x: u64, n: u64) -> u64
    requires { (0 < n) × (n < 64) }
    ensures { result ≡ rotr 64 n x }
{
    (x >> n) | (x << (64 - n))
}

pub fn big_sigma0(x: u64) -> u64
    ensures { result ≡ big_sigma 64 28 34 39 x }
{
    rotate(rotate(rotate(x, 5) ^ x, 6) ^ x, 28)
}

pub fn big_sigma1(x: u64) -> u64
    ensures { result ≡ big_sigma 64 14 18 41 x }
{
    rotate(x, 14) ^ rotate(x, 18) ^ rotate(x, 41)
}

pub fn small_sigma0(x: u64) -> u64
    ensures { result ≡ small_sigma 64 1 8 7 x }
{
    rotate(rotate(x, 7) ^ x, 1) ^ (x >> 7)
}

pub fn small_sigma1(x: u64) -> u64
    ensures { result ≡ small_sigma 64 19 61 6 x }
{
    rotate(rotate(x, 42) ^ x, 19) ^ (x >> 6)
}

pub fn choose(x: u64, y: u64, z: u64) -> u64
    ensures { result ≡ ch 64 x y z }
{
    z ^ (x & (y ^ z))
}

pub fn majority(x: u64, y: u64, z: u64) -> u64
    ensures { result ≡ maj x y z }
{
    y ^ ((x ^ y) & (y ^ z))
}
