// IRIs.
ghost use Rattle.std.specs.Prelude.{◌≡◌, drop};
ghost use Rattle.editions.specs.Lexical.{iri_byte, iri_rest, is_iriref};

use crate::utf8::is_encoded;

fn is_iri_byte(b: u8) -> bool
    ensures { result ≡ iri_byte b }
{
    !matches!(
        b,
        0..=b' ' | b'<' | b'"' | b'{' | b'}' | b'|' | b'^' | b'`' | b'\\'
    )
}

// What stands behind <.
#[tactic(auto, unfolding(editions::specs::Lexical::iri_rest))]
fn is_iri_rest(f: &[u8]) -> bool
    ensures { result ≡ iri_rest f.now }
{
    for (i, b) in f.iter().enumerate() {
        if *b == b'>' {
            return i + 1 == f.len();
        }
        if !is_iri_byte(*b) {
            return false;
        }
    }
    false
}

#[tactic(auto, unfolding(editions::specs::Lexical::is_iriref))]
pub(crate) fn is_reference(f: &[u8]) -> bool
    ensures { result ≡ is_iriref f.now }
{
    match f {
        [b'<', rest @ ..] => is_iri_rest(rest) && is_encoded(rest),
        _ => false,
    }
}

// The same of the bytes from a place on.
pub fn is_iriref(f: &[u8], from: usize) -> bool
    ensures { result ≡ is_iriref (drop from f.now) }
{
    let at = from.min(f.len());
    is_reference(&f[at..])
}
