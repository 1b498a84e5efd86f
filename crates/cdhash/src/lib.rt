// The hash of a code directory, cut to the 20 bytes that a trust cache lists.
//
// It covers the whole blob, head included, and is by the directory's own kind. What it is is specs/Hash.antt.
#![tactic(auto)]

ghost use Rattle.std.specs.Prelude.{◌≡◌};
ghost use Rattle.layout.specs.CodeDirectory.{KnownKind, hash_type};
ghost use Rattle.cdhash.specs.Hash.{cdhash};

use layout::directory::CodeDirectory;

// The hash of the directory whose blob is d. A kind that is not known has none.
pub fn cdhash(d: &[u8]) -> [u8; 20]
    requires { KnownKind (hash_type d.now) }
    ensures { result ≡ cdhash d.now }
{
    let kind = CodeDirectory::read(d).hash_type;
    digest::cut(digest::digest(kind, d))
}
