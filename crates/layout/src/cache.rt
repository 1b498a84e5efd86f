// The trust cache, little-endian: version, a 16-byte identifier and the number of entries, then the entries, each a
// directory's hash cut to 20 bytes, the hash type, flags, the constraint category and a reserved byte.
ghost use Rattle.std.specs.Prelude.{◌≡◌};
ghost use Rattle.layout.specs.TrustCache.{CacheRead, EntryRead, hash_at};

use super::parts::part;

#[derive(Clone, Copy)]
pub struct CacheHead {
    pub version: usize,
    pub entries: usize,
}

impl CacheHead {
    // The one version that is taken.
    pub const VERSION: usize = 2;

    // Bytes of the head; the entries start behind it.
    pub const HEAD: usize = 24;

    pub fn read(c: &[u8]) -> CacheHead
        ensures { CacheRead c.now result }
    {
        CacheHead {
            version: endian::le32(c, 0, 0),
            entries: endian::le32(c, 0, 20),
        }
    }
}

// What an entry says of its hash. The hash itself is not copied: `hash_of` lends it.
#[derive(Clone, Copy)]
pub struct CacheEntry {
    pub hash_type: usize,
    pub category: usize,
}

impl CacheEntry {
    // Bytes of an entry.
    pub const SIZE: usize = 24;

    // Bytes of its hash, with which it opens.
    pub const HASH: usize = 20;

    // Entry i.
    pub fn read(c: &[u8], i: usize) -> CacheEntry
        ensures { EntryRead c.now i result }
    {
        if c.len() / CacheEntry::SIZE < i {
            return CacheEntry {
                hash_type: 0,
                category: 0,
            };
        }
        let entry = CacheEntry::SIZE * i;
        let behind = CacheHead::HEAD + CacheEntry::HASH;
        CacheEntry {
            hash_type: endian::byte(c, behind, entry),
            category: endian::byte(c, behind + 2, entry),
        }
    }
}

// The hash of entry i, as a part of the cache: what there is of it, where the cache ends before.
pub fn hash_of<'a>(c: &'a [u8], i: usize) -> &'a [u8]
    ensures { result.now ≡ hash_at c.now i }
{
    let size = c.len();
    if size / CacheEntry::SIZE < i {
        return part(c, size, CacheEntry::HASH);
    }
    part(c, CacheHead::HEAD + CacheEntry::SIZE * i, CacheEntry::HASH)
}
