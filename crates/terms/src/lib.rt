// What an edition's grammar allows in a name, an IRI or a literal.
#![tactic(auto)]

pub mod iri;
pub mod literal;
pub mod term;
pub mod utf8;
pub mod variable;
