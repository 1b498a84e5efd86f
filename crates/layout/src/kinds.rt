// The hash kinds of a directory's slots.
ghost use Rattle.std.specs.Prelude.{◌≡◌, ◌≤◌, IfSome, IsNone};
ghost use Rattle.layout.specs.CodeDirectory.{width_of, kind_number};

use super::directory::CodeDirectory;

// By the number that hashType holds (CS_HASHTYPE_SHA1, .._SHA256, .._SHA256_TRUNCATED, .._SHA384).
#[derive(Clone, Copy, Debug, PartialEq, Eq)]
pub enum HashKind {
    Sha1 = 1,
    Sha256 = 2,
    Sha256Truncated = 3,
    Sha384 = 4,
}

impl HashKind {
    // The kind of a number, where it is known. No TryFrom: a number that names no kind is no error here.
    pub fn of(number: usize) -> Option<HashKind>
        ensures known { IfSome result (λ kind. kind_number kind ≡ number) }
        ensures unknown { IsNone result → width_of number ≡ 0 }
    {
        match number {
            1 => Some(HashKind::Sha1),
            2 => Some(HashKind::Sha256),
            3 => Some(HashKind::Sha256Truncated),
            4 => Some(HashKind::Sha384),
            _ => None,
        }
    }

    pub fn number(self) -> usize
        ensures { result ≡ kind_number self }
    {
        self as usize
    }

    // Bytes of a slot.
    pub fn width(self) -> usize
        ensures value { result ≡ width_of (kind_number self) }
        ensures most { result ≤ 48 }
    {
        match self {
            HashKind::Sha1 => CodeDirectory::SHA1_SLOT,
            HashKind::Sha256 => CodeDirectory::SHA256_SLOT,
            HashKind::Sha256Truncated => CodeDirectory::SHA256_TRUNCATED_SLOT,
            HashKind::Sha384 => CodeDirectory::SHA384_SLOT,
        }
    }
}
