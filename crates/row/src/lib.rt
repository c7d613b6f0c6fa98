// Rows of exponents in lent slices, of any number of columns.
#![tactic(auto)]

pub mod add;
pub mod change;
pub mod smallest;
pub mod test;
