// One line of a text by the one table of words: its fields, its variables kept and noted on the way, and what it asks for.
#![tactic(auto)]

pub mod below;
pub mod fields;
pub mod line;
mod slots;
pub mod sorts;
mod variables;
pub mod wanted;
