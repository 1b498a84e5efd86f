// The words of a block, FIPS 180-4, section 5.2.1.
ghost use Rattle.std.specs.Prelude.{◌≡◌, ◌+◌, ◌≤◌, length};
ghost use Rattle.endian.specs.Numbers.{big};
ghost use Rattle.sha.specs.Message.{words};

// The big-endian word at byte j.
pub fn word_at(b: &[u8], j: usize) -> u32
    requires { j + 4 ≤ length b.now }
    ensures { result ≡ big 4 b.now j }
{
    u32::from_be_bytes([b[j], b[j + 1], b[j + 2], b[j + 3]])
}

// The sixteen words of the block at byte `at`, written out: a loop over the places would fill an array in memory. `sha64` has words of
// another type.
pub fn load_block(b: &[u8], at: usize) -> [u32; 16]
    requires { at + 64 ≤ length b.now }
    ensures { result ≡ words 4 16 b.now at }
{
    [
        word_at(b, at + 0),
        word_at(b, at + 4),
        word_at(b, at + 8),
        word_at(b, at + 12),
        word_at(b, at + 16),
        word_at(b, at + 20),
        word_at(b, at + 24),
        word_at(b, at + 28),
        word_at(b, at + 32),
        word_at(b, at + 36),
        word_at(b, at + 40),
        word_at(b, at + 44),
        word_at(b, at + 48),
        word_at(b, at + 52),
        word_at(b, at + 56),
        word_at(b, at + 60),
    ]
}
