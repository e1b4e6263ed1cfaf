// Places in a text that was checked, and the text written under new names.
#![tactic(auto)]

pub mod line;
pub mod places;
