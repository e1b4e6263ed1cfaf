// The call rename. It takes any input, and its answer is decided by the texts alone.
#![tactic(auto)]

pub mod rename;
