// Columns of a project under their new names, which of them go by a mask, and the positions that a list names among them.
#![tactic(auto)]

pub mod columns;
pub mod list;
