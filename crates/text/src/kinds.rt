// The kinds of fields: whether a field has the marks of a term, of a part of a value, of a number.
ghost use Rattle.std.specs.Prelude.{◌≡◌, ◌≤◌, ◌||◌, drop};
ghost use Rattle.text.specs.Field.{number_of, is_var, is_iri, is_literal, is_blank, is_dash, is_flag, small as is_small, is_region, is_tag, is_datatype, is_form, is_kind, is_constant, is_plain, given};
ghost use Rattle.text.specs.bridge.Code.{kind_at};

use crate::equal;
use crate::integers::is_integer;

pub fn is_var(f: &[u8]) -> bool
    ensures { result ≡ is_var f.now }
{
    if f.len() < 2 {
        return false;
    }
    if 129 < f.len() {
        return false;
    }
    f[0] == 63
}

fn is_iri(f: &[u8]) -> bool
    ensures { result ≡ is_iri f.now }
{
    if f.len() < 2 {
        return false;
    }
    if f[0] != 60 {
        return false;
    }
    f[f.len() - 1] == 62
}

fn is_literal(f: &[u8]) -> bool
    ensures { result ≡ is_literal f.now }
{
    if f.len() < 1 {
        return false;
    }
    f[0] == 34
}

fn is_blank(f: &[u8]) -> bool
    ensures { result ≡ is_blank f.now }
{
    if f.len() < 2 {
        return false;
    }
    if f[0] != 95 {
        return false;
    }
    f[1] == 58
}

fn is_dash(f: &[u8]) -> bool
    ensures { result ≡ is_dash f.now }
{
    if f.len() != 1 {
        return false;
    }
    f[0] == 45
}

fn is_flag(f: &[u8]) -> bool
    ensures { result ≡ is_flag f.now }
{
    if f.len() != 1 {
        return false;
    }
    if f[0] == 48 {
        return true;
    }
    f[0] == 49
}

fn small(b: u8) -> bool
    ensures { result ≡ is_small b }
{
    if b < 97 {
        return false;
    }
    b <= 122
}

// Nothing from a place on, or `-` and two small letters.
fn is_region(f: &[u8], at: usize) -> bool
    ensures { result ≡ is_region (drop at f.now) }
{
    if f.len() <= at {
        return true;
    }
    if f.len() - at != 3 {
        return false;
    }
    if f[at] != 45 {
        return false;
    }
    if !small(f[at + 1]) {
        return false;
    }
    small(f[at + 2])
}

// A language tag.
fn is_tag(f: &[u8]) -> bool
    ensures { result ≡ is_tag f.now }
{
    if f.len() < 2 {
        return false;
    }
    if !small(f[0]) {
        return false;
    }
    if !small(f[1]) {
        return false;
    }
    if is_region(f, 2) {
        return true;
    }
    if f.len() < 3 {
        return false;
    }
    if !small(f[2]) {
        return false;
    }
    is_region(f, 3)
}

const XSD_STRING: [u8; 41] = *b"<http://www.w3.org/2001/XMLSchema#string>";

const RDF_LANG_STRING: [u8; 55] = *b"<http://www.w3.org/1999/02/22-rdf-syntax-ns#langString>";

// A datatype that a value may name.
fn is_datatype(f: &[u8]) -> bool
    ensures { result ≡ is_datatype f.now }
{
    if !is_iri(f) {
        return false;
    }
    if equal(f, &XSD_STRING) {
        return false;
    }
    if equal(f, &RDF_LANG_STRING) {
        return false;
    }
    true
}

const SELECT: [u8; 6] = *b"select";

const ASK: [u8; 3] = *b"ask";

const CONSTRUCT: [u8; 9] = *b"construct";

const DESCRIBE: [u8; 8] = *b"describe";

// The kind of a query.
fn is_form(f: &[u8]) -> bool
    ensures { result ≡ is_form f.now }
{
    if equal(f, &SELECT) {
        return true;
    }
    if equal(f, &ASK) {
        return true;
    }
    if equal(f, &CONSTRUCT) {
        return true;
    }
    equal(f, &DESCRIBE)
}

// An IRI or a literal.
fn is_constant(f: &[u8]) -> bool
    ensures { result ≡ is_constant f.now }
{
    if is_iri(f) {
        return true;
    }
    is_literal(f)
}

// A variable, an IRI or a literal.
fn is_plain(f: &[u8]) -> bool
    ensures { result ≡ is_plain f.now }
{
    if is_var(f) {
        return true;
    }
    is_constant(f)
}

// Any term.
fn is_node(f: &[u8]) -> bool
    ensures { result ≡ is_plain f.now || is_blank f.now }
{
    if is_plain(f) {
        return true;
    }
    is_blank(f)
}

// An IRI or a variable.
fn is_name(f: &[u8]) -> bool
    ensures { result ≡ is_iri f.now || is_var f.now }
{
    if is_iri(f) {
        return true;
    }
    is_var(f)
}

// An IRI, a literal, or `-`.
fn is_cell(f: &[u8]) -> bool
    ensures { result ≡ is_constant f.now || is_dash f.now }
{
    if is_constant(f) {
        return true;
    }
    is_dash(f)
}

// An integer, or `-`.
fn is_limit(f: &[u8]) -> bool
    ensures { result ≡ given (number_of f.now) || is_dash f.now }
{
    if is_integer(f) {
        return true;
    }
    is_dash(f)
}

// A field has the marks of a kind of term.
fn is_term(kind: u8, f: &[u8]) -> bool
    requires { kind ≤ 5 }
    ensures { result ≡ is_kind (kind_at kind) f.now }
{
    match kind {
        0 => is_var(f),
        1 => is_node(f),
        2 => is_plain(f),
        3 => is_name(f),
        4 => is_constant(f),
        _ => is_cell(f),
    }
}

// A field has the marks of a kind of part of a value, or is the kind of a query.
fn is_part(kind: u8, f: &[u8]) -> bool
    requires { 10 ≤ kind }
    ensures { result ≡ is_kind (kind_at kind) f.now }
{
    match kind {
        10 => true,
        11 => is_dash(f),
        12 => is_tag(f),
        13 => is_datatype(f),
        _ => is_form(f),
    }
}

// A field has the marks of a kind.
pub fn is_kind(kind: u8, f: &[u8]) -> bool
    ensures { result ≡ is_kind (kind_at kind) f.now }
{
    if kind <= 5 {
        return is_term(kind, f);
    }
    if 10 <= kind {
        return is_part(kind, f);
    }
    match kind {
        6 => is_integer(f),
        7 => is_limit(f),
        8 => is_flag(f),
        _ => 1 <= f.len(),
    }
}
