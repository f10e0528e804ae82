// Correction records and batches of them: bytes in and out.
#![tactic(auto)]

pub mod batch;
pub mod fault;
pub mod laws;
pub mod record;
pub mod writing;
