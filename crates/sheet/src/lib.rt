// Calibration sheets: their bytes, their checks, their lines, and the calls on them.
#![tactic(auto)]

pub mod ask;
pub mod call;
pub mod check;
pub mod line;
pub mod operation;
pub mod parts;
pub mod refusal;
pub mod room;
pub mod shape;
pub mod units;
pub mod work;
