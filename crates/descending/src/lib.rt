// A checked tree renamed by its noted lines, in one descent.
#![tactic(auto)]

pub mod tree;
