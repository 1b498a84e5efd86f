// SHA-1 and SHA-256 of FIPS 180-4, over words of 32 bits.
//
// `word` has the functions of one word, `load` the words of a block, `sha1` and `sha256` what `sha` asks of the two hash functions.
#![tactic(auto)]

mod load;
mod sha1;
mod sha256;
mod word;

pub use load::word_at;
pub use sha1::Sha1;
pub use sha256::{H256, K256, Sha256, next_word, temp1, temp2};
pub use word::{Sigmas, add, add_words, choose, majority};
