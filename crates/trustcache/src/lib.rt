// The trust cache and the launch constraints, tests 24 to 30 of document 01.
//
// A cache lists the directories that are admitted, by the first 20 bytes of their hashes, in strictly increasing order; an entry names
// the constraint category that the launch has to meet. `entries` has the cache's form and order, 24 and 25, and `search` the lookup, 26
// to 28; `launch` has the constraints, 29 and 30. Nothing is asked of the lent bytes: a byte past the end reads as 0.
#![tactic(auto)]

mod entries;
mod launch;
mod search;

ghost use Rattle.std.specs.Prelude.{◌≡◌};
ghost use Rattle.refusals.specs.Named.{place_answer};
ghost use Rattle.trustcache.specs.Table.{cache_answer};

use entries::form_tested;
pub use launch::Launch;
use launch::launch_tested;
use layout::cache::CacheEntry;
use refusals::Refusal;
use search::lookup_tested;

// Tests 24 to 30, of the directory whose hash, by its kind, begins with these 20 bytes, and its entry. The kind is a number, as entries hold
// it: any may be compared.
pub fn tested(c: &[u8], kind: usize, hash: [u8; 20], facts: Launch) -> Result<usize, Refusal>
    ensures { place_answer result ≡ cache_answer c.now kind hash facts }
{
    form_tested(c)?;
    let found = lookup_tested(c, kind, hash)?;
    launch_tested(CacheEntry::read(c, found).category, facts)?;
    Ok(found)
}
