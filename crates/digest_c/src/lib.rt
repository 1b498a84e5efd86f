// The digest of a slice, exported for the benchmark under host/: `tools/staticlib digest_c`.
#![tactic(auto)]

ghost use Rattle.std.specs.Prelude.{◌≡◌, ◌++◌, ◌-◌, replicate};
ghost use Rattle.layout.specs.CodeDirectory.{width_of};
ghost use Rattle.digest.specs.Kinds.{digest_of};

// Writes the digest of a message by a kind, and zeros behind it.
#[unsafe(no_mangle)]
pub extern "C" fn trewizlow_digest(kind: u32, message: &[u8], out: &mut [u8; 48])
    ensures { out.new ≡ digest_of kind message.now ++ replicate (48 - width_of kind) 0 }
{
    *out = digest::digest(kind as usize, message);
}
