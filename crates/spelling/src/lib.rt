// A select query's text for an edition, from the lines of the query.
#![tactic(auto)]

pub mod after;
pub mod before;
pub mod fields;
pub mod marks;
pub mod say;
pub mod seek;
