// An answer, made from a refusal and from what a test gives.
ghost use Rattle.std.specs.Prelude.{◌≡◌};
ghost use Rattle.refusals.specs.Refusals.{refuse};
ghost use Rattle.refusals.specs.Named.{answer_of, test_answer, place_answer};

use super::{Answer, Refusal};

// An answer in one expression.
pub fn answer(number: u32, place: usize) -> Answer
    ensures { result ≡ refuse number place }
{
    Answer { number, place }
}

// One table, an arm a refusal.
impl From<Refusal> for Answer {
    ghost from_gives = { λ refusal answer. answer ≡ answer_of refusal };

    fn from(refusal: Refusal) -> Answer {
        match refusal {
            Refusal::InputLength => answer(1, 0),
            Refusal::SuperBlobMagic => answer(2, 0),
            Refusal::BlobCount => answer(3, 0),
            Refusal::SuperBlobLength => answer(4, 0),
            Refusal::UnknownType(position) => answer(5, position),
            Refusal::RepeatedType(position) => answer(6, position),
            Refusal::BlobOutside(position) => answer(7, position),
            Refusal::BlobMagic(position) => answer(8, position),
            Refusal::BlobsOverlap(position) => answer(9, position),
            Refusal::NoDirectory => answer(10, 0),
            Refusal::Version => answer(11, 0),
            Refusal::DirectoryHead => answer(12, 0),
            Refusal::HashKind => answer(13, 0),
            Refusal::PageSize => answer(14, 0),
            Refusal::CodeLimit => answer(15, 0),
            Refusal::SlotCount => answer(16, 0),
            Refusal::SlotsOutside => answer(17, 0),
            Refusal::Identifier => answer(18, 0),
            Refusal::ImageLength => answer(19, 0),
            Refusal::MarksLength => answer(20, 0),
            Refusal::ThingMissing(slot) => answer(21, slot),
            Refusal::OtherHash(slot) => answer(22, slot),
            Refusal::EmptySlot(slot) => answer(23, slot),
            Refusal::CacheForm => answer(24, 0),
            Refusal::CacheOrder(entry) => answer(25, entry),
            Refusal::NotListed => answer(26, 0),
            Refusal::OtherKind(entry) => answer(27, entry),
            Refusal::UnknownCategory(category) => answer(28, category),
            Refusal::SelfConstraint => answer(29, 0),
            Refusal::ParentConstraint => answer(30, 0),
            Refusal::PageDiffers(page) => answer(31, page),
            Refusal::RangeOutside => answer(32, 0),
            Refusal::ContentsLength => answer(33, 0),
            Refusal::BadMark(page) => answer(34, page),
            Refusal::Scatter => answer(35, 0),
            Refusal::MachHeader => answer(36, 0),
            Refusal::LoadCommand(position) => answer(37, position),
            Refusal::NoSignature => answer(38, 0),
            Refusal::SignatureCommand(position) => answer(39, position),
            Refusal::SignatureOutside(position) => answer(40, position),
            Refusal::SignatureStart(position) => answer(41, position),
            Refusal::Flags => answer(46, 0),
        }
    }
}

// Of a test, which passes or refuses.
impl From<Result<(), Refusal>> for Answer {
    ghost from_gives = { λ tested answer. answer ≡ test_answer tested };

    fn from(tested: Result<(), Refusal>) -> Answer {
        match tested {
            Ok(()) => answer(0, 0),
            Err(refusal) => Answer::from(refusal),
        }
    }
}

// Of a test that names a place where it passes.
impl From<Result<usize, Refusal>> for Answer {
    ghost from_gives = { λ tested answer. answer ≡ place_answer tested };

    fn from(tested: Result<usize, Refusal>) -> Answer {
        match tested {
            Ok(place) => answer(0, place),
            Err(refusal) => Answer::from(refusal),
        }
    }
}
