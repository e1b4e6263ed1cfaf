// What the calls bindings and filters share: the fields of a line, the end of a pattern, a projection's columns, the terms of values.
#![tactic(auto)]

pub mod columns;
pub mod ends;
pub mod field;
pub mod steps;
pub mod term;
