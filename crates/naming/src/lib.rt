// nemo's standardize_variables over the variable table: which bases get a prefix and a number, and what each name of the table becomes.
#![tactic(auto)]

mod label;
pub mod new_names;
pub mod numbers;
mod pushes;
