// Two projections merged, and one with its constants pushed, for texts that were checked: measured, and written if the answer fits.
#![tactic(auto)]

pub mod merge;
pub mod push;
