// One line of a filter as SPARQL has it: constants, references and operators.
#![tactic(auto)]

pub mod line;
