// The calls that join: merge patterns and merge queries, without, which has a minus in the join's place, and push constants, which joins
// a query with its constants.
#![tactic(auto)]

mod forms;
pub mod merge;
pub mod patterns;
pub mod push;
pub mod queries;
pub mod without;
