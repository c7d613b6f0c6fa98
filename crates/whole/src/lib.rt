// Whole numbers: single numbers, words of bits and bytes, each with the laws behind it in specs/.
#![tactic(auto)]

pub mod bytes;
pub mod number;
pub mod word;
