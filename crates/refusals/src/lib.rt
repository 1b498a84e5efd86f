// What a check answers: nothing to refuse, or a refusal of the table with the place that it names.
//
// specs/Refusals.antt states how the table decides, and that each number is given exactly when its own row is the first to hold (`Exact`);
// specs/Named.antt has the number and the place of each refusal.
#![tactic(auto)]

pub mod answers;
mod refusal;

pub use refusal::Refusal;

// A refusal number with its place, or 0 where nothing is refused: what C reads.
#[repr(C)]
#[derive(Clone, Copy)]
pub struct Answer {
    pub number: u32,
    pub place: usize,
}
