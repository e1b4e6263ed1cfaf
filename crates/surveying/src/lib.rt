// The call scope: which variables of a tree are in scope, and which are hidden. It takes any input, and its answer is decided by the text alone.
#![tactic(auto)]

pub mod scope;
