// The entry of a directory, tests 26 to 28.
ghost use Rattle.std.specs.Prelude.{◌<◌, IfSome};
ghost use Rattle.std.specs.Option.{unwrap_or};
ghost use Rattle.layout.specs.TrustCache.{entry_count};
ghost use Rattle.refusals.specs.Named.{place_answer};
ghost use Rattle.trustcache.specs.Lookup.{EntryFound, LookupAnswer};

use super::entries::compare;
use layout::cache::{CacheEntry, CacheHead, hash_of};
use refusals::Refusal;
use std::cmp::Ordering;

// The highest constraint category.
const HIGHEST_CATEGORY: usize = 1;

// The entry that has the hash, if one has it, by halving what is left of the entries. The entries are bytes of the cache and no slice of
// hashes, which std's `binary_search` asks for.
fn find_entry(c: &[u8], hash: [u8; 20]) -> Option<usize>
    ensures found { EntryFound c.now hash (unwrap_or result (entry_count c.now)) }
    ensures within { IfSome result (λ entry. entry < entry_count c.now) }
{
    let mut low = 0;
    let mut high = CacheHead::read(c).entries;
    while low < high {
        let middle = low + (high - low) / 2;
        match compare(hash_of(c, middle), &hash) {
            Ordering::Less => low = middle + 1,
            Ordering::Equal => return Some(middle),
            Ordering::Greater => high = middle,
        }
    }
    None
}

// Tests 26 to 28, of a directory of this hash kind, and its entry. In a cache that 24 or 25 refuses, which entry is found is left open.
pub fn lookup_tested(c: &[u8], kind: usize, hash: [u8; 20]) -> Result<usize, Refusal>
    ensures { LookupAnswer c.now kind hash (place_answer result) }
{
    let Some(found) = find_entry(c, hash) else {
        return Err(Refusal::NotListed);
    };
    let entry = CacheEntry::read(c, found);
    if entry.hash_type != kind {
        return Err(Refusal::OtherKind(found));
    }
    if HIGHEST_CATEGORY < entry.category {
        return Err(Refusal::UnknownCategory(entry.category));
    }
    Ok(found)
}
