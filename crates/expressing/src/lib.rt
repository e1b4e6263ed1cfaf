// The call filters: a tree whose outermost projection's inner pattern stands under the filters that SPARQL can express.
#![tactic(auto)]

pub mod express;
pub mod filters;
pub mod place;
