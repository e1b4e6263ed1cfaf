// The term that a value becomes.
ghost use Rattle.std.specs.Prelude.{◌≡◌, [], ◌∷◌, ◌++◌};
ghost use Rattle.emit.specs.bridge.Writer.{Wrote};
ghost use Rattle.filtering.specs.bridge.Terms.{form_of, term_of};

use emit::Writer;
use text::equal;

const PLAIN_STRING: [u8; 11] = *b"PlainString";

const LANGUAGE_TAGGED_STRING: [u8; 20] = *b"LanguageTaggedString";

const IRI: [u8; 3] = *b"Iri";

const NULL: [u8; 4] = *b"Null";

const TUPLE: [u8; 5] = *b"Tuple";

const MAP: [u8; 3] = *b"Map";

const OTHER: [u8; 5] = *b"Other";

// The form of a domain's terms: 0 plain, 1 tagged, 2 an IRI, 3 unbound, 4 none, 5 typed and no expression, 6 typed.
pub fn form_of(domain: &[u8]) -> u8
    ensures { result ≡ form_of domain.now }
{
    if equal(domain, &PLAIN_STRING) {
        return 0;
    }
    if equal(domain, &LANGUAGE_TAGGED_STRING) {
        return 1;
    }
    if equal(domain, &IRI) {
        return 2;
    }
    if equal(domain, &NULL) {
        return 3;
    }
    if equal(domain, &TUPLE) {
        return 4;
    }
    if equal(domain, &MAP) {
        return 4;
    }
    if equal(domain, &OTHER) {
        return 5;
    }
    6
}

// The lexical form between two bytes.
fn put_between(first: u8, lexical: &[u8], last: u8, w: &mut Writer)
    ensures { Wrote w.old w.new (first ∷ (lexical.now ++ (last ∷ []))) }
{
    w.put(first);
    w.put_all(lexical);
    w.put(last);
}

const MARKS: [u8; 2] = *b"^^";

// The term of a value of this form.
pub fn put_term(form: u8, lexical: &[u8], extra: &[u8], w: &mut Writer)
    ensures { Wrote w.old w.new (term_of form lexical.now extra.now) }
{
    if form == 2 {
        put_between(60, lexical, 62, w);
        return;
    }
    if form == 3 {
        w.put(45);
        return;
    }
    if form == 4 {
        return;
    }
    put_between(34, lexical, 34, w);
    if form == 0 {
        return;
    }
    if form == 1 {
        w.put(64);
        w.put_all(extra);
        return;
    }
    w.put_all(&MARKS);
    w.put_all(extra);
}
