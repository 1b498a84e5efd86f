// The special slots of a directory: tests 21 to 23 of document 01.
//
// Slot k holds the hash of one thing: 1 the Info.plist, 3 the CodeResources, 2, 5, 7 and 8 to 11 the blob of that type with its head; 4 and
// 6 cover nothing. The hash is by the directory's kind. A slot that is empty while its thing is there is refused, as is a slot that is
// filled while its thing is not. The test's definition is specs/Slots.antt, and its plain reading specs/Matches.antt.
#![tactic(auto)]

mod sides;

ghost use Rattle.std.specs.Prelude.{◌≡◌, ◌<◌, true, IfSome};
ghost use Rattle.refusals.specs.Refusals.{first, accepted};
ghost use Rattle.refusals.specs.Named.{test_answer};
ghost use Rattle.digest.specs.Kinds.{digest_of};
ghost use Rattle.digest.specs.Same.{same};
ghost use Rattle.slots.specs.Slots.{all_zero, there, thing, fault_of, fault, special_rows};
ghost use Rattle.slots.specs.Lent.{is_there, bytes_of, sides_of, slot_answer};

use directory::MOST_SPECIAL_SLOTS;
use layout::directory::CodeDirectory;
use refusals::Refusal;
pub use sides::SideFiles;

// Tests 21 to 23 of the directory d, over k from 1 to 11.
pub fn tested(sig: &[u8], d: &[u8], sides: SideFiles<'_>) -> Result<(), Refusal>
    ensures { test_answer result ≡ first (special_rows sig.now d.now (sides_of sides.entry)) accepted }
{
    for k in 1..MOST_SPECIAL_SLOTS + 1 {
        slot_tested(sig, d, sides, k)?;
    }
    Ok(())
}

// Slot k against its thing.
fn slot_tested(sig: &[u8], d: &[u8], sides: SideFiles<'_>, k: u32) -> Result<(), Refusal>
    requires { 0 < k }
    ensures { test_answer result ≡ slot_answer (fault sig.now d.now (sides_of sides.entry) k) k }
{
    let kind = CodeDirectory::read(d).hash_type;
    let slot = directory::special_slot(d, k as usize);
    thing_tested(kind, slot, thing_of(sig, sides, k), k as usize)
}

// The thing that slot k covers, where it is there: of 1 the Info.plist, of 3 the CodeResources, of 4 and 6 nothing. Slots go by their
// numbers, which are those of blobs' types.
fn thing_of<'a>(sig: &'a [u8], sides: SideFiles<'a>, k: u32) -> Option<&'a [u8]>
    requires { 0 < k }
    ensures flag { is_there result ≡ there sig.now (sides_of sides.entry) k }
    ensures bytes { is_there result ≡ true → bytes_of result ≡ thing sig.now (sides_of sides.entry) k }
{
    match k {
        1 => sides.info,
        3 => sides.resources,
        4 | 6 => None,
        _ => superblob::has(sig, k).then_some(superblob::blob_of(sig, k)),
    }
}

// Slot k, by the number of the directory's hash kind, which `digest_of` takes, the slot's bytes, and the thing, where it is there.
fn thing_tested(kind: usize, slot: &[u8], thing: Option<&[u8]>, k: usize) -> Result<(), Refusal>
    ensures { test_answer result ≡ slot_answer (fault_of (all_zero slot.now) (is_there thing.entry) (same (digest_of kind (bytes_of thing.entry)) slot.now)) k }
{
    match (thing, all_zero(slot)) {
        (Some(_), true) => Err(Refusal::EmptySlot(k)),
        (Some(thing), false) if digest::agrees(kind, thing, slot) => Ok(()),
        (Some(_), false) => Err(Refusal::OtherHash(k)),
        (None, true) => Ok(()),
        (None, false) => Err(Refusal::ThingMissing(k)),
    }
}

fn all_zero(slot: &[u8]) -> bool
    ensures { result ≡ all_zero slot.now }
{
    slot.iter().all(|byte| *byte == 0)
}
