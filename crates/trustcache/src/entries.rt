// The form of a cache, test 24, and the order of its entries, test 25.
ghost use Rattle.std.specs.Prelude.{◌≡◌, ◌+◌, ◌-◌, ◌*◌, ◌<◌, ◌≤◌, length};
ghost use Rattle.endian.specs.Numbers.{big};
ghost use Rattle.layout.specs.TrustCache.{cache_head, entry_size, cdhash_length, hash_at};
ghost use Rattle.refusals.specs.Refusals.{holds, first, accepted};
ghost use Rattle.refusals.specs.Named.{test_answer};
ghost use Rattle.trustcache.specs.Order.{order_number, order};
ghost use Rattle.trustcache.specs.Rows.{not_above, form_rows};

use layout::cache::{CacheEntry, CacheHead, hash_of};
use refusals::Refusal;
use std::cmp::Ordering;

// The most entries that a cache may have.
const MOST_ENTRIES: usize = 65536;

// A hash as numbers: how many, and the bytes of each.
const NUMBERS: usize = 5;

const WIDTH: usize = 4;

// How the hash x stands to the hash y. The first byte that differs decides. A byte past an end counts as 0, so it is no comparison of slices.
pub fn compare(x: &[u8], y: &[u8]) -> Ordering
    ensures { order_number result ≡ order x.now y.now }
{
    for i in 0..CacheEntry::HASH {
        let order = endian::byte(x, 0, i).cmp(&endian::byte(y, 0, i));
        if order.is_ne() {
            return order;
        }
    }
    Ordering::Equal
}

// Four bytes from byte `at` on as a number, the first the most significant: one load, in bounds.
fn number_at(c: &[u8], at: usize) -> u32
    requires { at + 4 ≤ length c.now }
    ensures { result ≡ big 4 c.now at }
{
    u32::from_be_bytes([c[at], c[at + 1], c[at + 2], c[at + 3]])
}

// How the hash of entry i stands to the hash of entry j, both whole in the cache. It is `compare` by numbers, which are ordered as
// their bytes are.
fn compare_entries(c: &[u8], i: usize, j: usize) -> Ordering
    requires i_whole { cache_head + entry_size * i + cdhash_length ≤ length c.now }
    requires j_whole { cache_head + entry_size * j + cdhash_length ≤ length c.now }
    ensures { order_number result ≡ order (hash_at c.now i) (hash_at c.now j) }
{
    let x = CacheHead::HEAD + CacheEntry::SIZE * i;
    let y = CacheHead::HEAD + CacheEntry::SIZE * j;
    for k in 0..NUMBERS {
        let order = number_at(c, x + WIDTH * k).cmp(&number_at(c, y + WIDTH * k));
        if order.is_ne() {
            return order;
        }
    }
    Ordering::Equal
}

// How the hash of entry i stands to that of the entry before it. In a cache that passed 24 both are whole, and are compared where
// they lie: the order test reads every entry, and `compare` takes several times as long.
fn compare_to_previous(c: &[u8], i: usize) -> Ordering
    requires { 0 < i }
    ensures { order_number result ≡ order (hash_at c.now i) (hash_at c.now (i - 1)) }
{
    if CacheHead::HEAD <= c.len() && i < (c.len() - CacheHead::HEAD) / CacheEntry::SIZE {
        return compare_entries(c, i, i - 1);
    }
    compare(hash_of(c, i), hash_of(c, i - 1))
}

// Whether entry i is not above the one before it.
#[tactic(auto, using(crate::proofs::Order::first_is_above, crate::proofs::Order::not_above_is))]
fn not_above(c: &[u8], i: usize) -> bool
    ensures { result ≡ holds (not_above c.now i) }
{
    i != 0 && compare_to_previous(c, i).is_le()
}

// Tests 24 and 25.
pub fn form_tested(c: &[u8]) -> Result<(), Refusal>
    ensures { test_answer result ≡ first (form_rows c.now) accepted }
{
    let head = CacheHead::read(c);
    if c.len() < CacheHead::HEAD
        || head.version != CacheHead::VERSION
        || MOST_ENTRIES < head.entries
        || c.len() != CacheHead::HEAD + CacheEntry::SIZE * head.entries
    {
        return Err(Refusal::CacheForm);
    }
    match (0..head.entries).find(|i| not_above(c, *i)) {
        Some(entry) => Err(Refusal::CacheOrder(entry)),
        None => Ok(()),
    }
}
