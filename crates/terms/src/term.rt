// A term or a cell, by its kind.
ghost use Rattle.std.specs.Prelude.{◌≡◌};
ghost use Rattle.text.specs.Field.{is_iri, is_dash, is_blank};
ghost use Rattle.editions.specs.Spelling.{cell_of};
ghost use Rattle.editions.specs.Refusals.{allowed_token, allowed};

use crate::iri::is_reference;
use crate::literal::is_rdf_literal;
use crate::variable::is_var1;
use text::is_var;

#[tactic(auto, unfolding(text::specs::Field::is_iri))]
fn is_iri(f: &[u8]) -> bool
    ensures { result ≡ is_iri f.now }
{
    matches!(f, [b'<', .., b'>'])
}

#[tactic(auto, unfolding(text::specs::Field::is_dash))]
pub fn is_dash(f: &[u8]) -> bool
    ensures { result ≡ is_dash f.now }
{
    matches!(f, [b'-'])
}

#[tactic(auto, unfolding(text::specs::Field::is_blank))]
pub fn is_blank(f: &[u8]) -> bool
    ensures { result ≡ is_blank f.now }
{
    matches!(f, [b'_', b':', ..])
}

#[tactic(auto, unfolding(editions::specs::Refusals::allowed, editions::specs::Spelling::term_of))]
pub fn is_allowed(f: &[u8]) -> bool
    ensures { result ≡ allowed f.now }
{
    if is_var(f) {
        return is_var1(f);
    }
    if is_iri(f) {
        return is_reference(f);
    }
    is_rdf_literal(f)
}

#[tactic(auto, unfolding(editions::specs::Spelling::cell_of))]
pub fn is_allowed_cell(f: &[u8]) -> bool
    ensures { result ≡ allowed_token (cell_of f.now) }
{
    if is_dash(f) {
        return true;
    }
    if is_iri(f) {
        return is_reference(f);
    }
    is_rdf_literal(f)
}
