// The call bindings: a tree whose outermost projection's inner pattern is joined with the Values of binding sets.
#![tactic(auto)]

pub mod bindings;
pub mod judge;
pub mod values;
