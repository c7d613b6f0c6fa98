// The elimination: its own layer, which knows nothing of lines.
#![tactic(auto)]

pub mod call;
pub mod columns;
pub mod equation;
pub mod progress;
pub mod refusal;
pub mod room;
pub mod round;
pub mod table;
