// The words of a block, FIPS 180-4, section 5.2.2.
ghost use Rattle.std.specs.Prelude.{◌≡◌, ◌+◌, ◌<◌, ◌≤◌, length};
ghost use Rattle.endian.specs.Numbers.{big};
ghost use Rattle.sha.specs.Message.{words};

// The big-endian word at byte j.
fn word_at(b: &[u8], j: usize) -> u64
    requires { j + 8 ≤ length b.now }
    ensures { result ≡ big 8 b.now j }
{
    u64::from_be_bytes([
        b[j],
        b[j + 1],
        b[j + 2],
        b[j + 3],
        b[j + 4],
        b[j + 5],
        b[j + 6],
        b[j + 7],
    ])
}

// The sixteen words of the block at byte `at`, written out as in `sha32`, whose words have another type.
pub fn load_block(b: &[u8], at: usize) -> [u64; 16]
    requires { at + 128 ≤ length b.now }
    ensures { result ≡ words 8 16 b.now at }
{
    [
        word_at(b, at + 0),
        word_at(b, at + 8),
        word_at(b, at + 16),
        word_at(b, at + 24),
        word_at(b, at + 32),
        word_at(b, at + 40),
        word_at(b, at + 48),
        word_at(b, at + 56),
        word_at(b, at + 64),
        word_at(b, at + 72),
        word_at(b, at + 80),
        word_at(b, at + 88),
        word_at(b, at + 96),
        word_at(b, at + 104),
        word_at(b, at + 112),
        word_at(b, at + 120),
    ]
}
