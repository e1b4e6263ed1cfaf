// One side of a merge, or the only side of a push: a project's columns and inner pattern under new names, with constants bound.
#![tactic(auto)]

pub mod project;
pub mod side;
pub mod writing;
