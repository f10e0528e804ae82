// The listing of a corrected series, and readout from bytes to text.
#![tactic(auto)]

pub mod line;
pub mod listing;
pub mod readout;
pub mod refused;
