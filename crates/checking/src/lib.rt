// The check of a text by descent: a line, then the lines that it asks for, and what is left over.
#![tactic(auto)]

pub mod check;
mod descent;
mod place;
