// Literals as N-Triples writes them, without \u and \U.
ghost use Rattle.std.specs.Prelude.{◌≡◌, true, false, ◌&&◌, ◌||◌, not, ◌∷◌};
ghost use Rattle.text.specs.Text.{Bytes};
ghost use Rattle.editions.specs.Lexical.{letter, digit, is_tag, is_suffix, is_echar, is_string, unescaped, is_rdf_literal};
ghost use Rattle.terms.specs.bridge.State.{stays, TagSteps};

use crate::iri::is_reference;
use crate::utf8::is_encoded;
use crate::variable::{is_digit, is_letter};

// A byte of a language tag that is no hyphen.
fn is_tag_byte(first: bool, b: u8) -> bool
    ensures { result ≡ (letter b || (not first && digit b)) }
{
    is_letter(b) | (!first & is_digit(b))
}

// Some byte of this part was read, and it is the first part.
#[derive(Clone, Copy)]
pub struct Tag {
    pub more: bool,
    pub first: bool,
}

// One byte more of a language tag, unless it may not stand there.
#[tactic(auto, unfolding(editions::specs::Lexical::is_tag))]
fn tag_step(t: Tag, b: u8) -> Option<Tag>
    ensures { TagSteps t b result }
{
    if b == b'-' {
        if !t.more {
            return None;
        }
        return Some(Tag {
            more: false,
            first: false,
        });
    }
    if !is_tag_byte(t.first, b) {
        return None;
    }
    Some(Tag {
        more: true,
        first: t.first,
    })
}

// What stands behind @.
#[tactic(auto, unfolding(editions::specs::Lexical::is_tag))]
fn is_tag(f: &[u8]) -> bool
    ensures { result ≡ is_tag false true f.now }
{
    let mut tag = Tag {
        more: false,
        first: true,
    };
    for b in f {
        let Some(next) = tag_step(tag, *b) else {
            return false;
        };
        tag = next;
    }
    tag.more
}

// What stands behind the closing quote.
#[tactic(auto, unfolding(editions::specs::Lexical::is_suffix))]
fn is_suffix(f: &[u8]) -> bool
    ensures { result ≡ is_suffix f.now }
{
    match f {
        [] => true,
        [b'@', tag @ ..] => is_tag(tag),
        [b'^', b'^', iri @ ..] => is_reference(iri),
        _ => false,
    }
}

fn is_echar(b: u8) -> bool
    ensures { result ≡ is_echar b }
{
    matches!(b, b't' | b'b' | b'n' | b'r' | b'f' | b'\\' | b'"' | b'\'')
}

// A byte of a string that doesn't end it; behind a backslash or not.
fn is_inside(escaped: bool, b: u8) -> bool
    ensures { result ≡ stays escaped b }
{
    if escaped {
        return is_echar(b);
    }
    (b != b'\n') & (b != b'\r')
}

// What stands behind the opening quote.
#[tactic(auto, unfolding(editions::specs::Lexical::is_string))]
fn is_string(f: &[u8]) -> bool
    ensures { result ≡ is_string false f.now }
{
    let mut escaped = false;
    for (i, b) in f.iter().enumerate() {
        if !escaped & (*b == b'"') {
            return is_suffix(&f[i + 1..]);
        }
        if !is_inside(escaped, *b) {
            return false;
        }
        escaped = !escaped & (*b == b'\\');
    }
    false
}

// No \u and no \U.
#[tactic(auto, unfolding(editions::specs::Lexical::unescaped))]
fn is_unescaped(f: &[u8]) -> bool
    ensures { result ≡ unescaped f.now }
{
    let mut slash = false;
    for b in f {
        if slash & ((*b == b'u') | (*b == b'U')) {
            return false;
        }
        slash = *b == b'\\';
    }
    true
}

#[tactic(auto, unfolding(editions::specs::Lexical::is_rdf_literal))]
pub fn is_rdf_literal(f: &[u8]) -> bool
    ensures { result ≡ is_rdf_literal f.now }
{
    match f {
        [b'"', rest @ ..] => is_string(rest) && is_unescaped(rest) && is_encoded(rest),
        _ => false,
    }
}
