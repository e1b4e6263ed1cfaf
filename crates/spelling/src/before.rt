// The tokens of a line before its children, and the manner that a line gives a project under it.
ghost use Rattle.std.specs.Prelude.{◌≡◌, ◌+◌, ◌≤◌, ◌<◌, [], ◌∷◌, ◌++◌, length, get_or};
ghost use Rattle.text.specs.Text.{Bytes};
ghost use Rattle.text.specs.Word.{bytes};
ghost use Rattle.cursor.specs.bridge.Cursor.{left};
ghost use Rattle.words.specs.bridge.Key.{Keyed};
ghost use Rattle.emit.specs.bridge.Emit.{em, puts};
ghost use Rattle.editions.specs.Token.{text};
ghost use Rattle.editions.specs.Spelling.{spell_vars, spell_cells};
ghost use Rattle.spelling.specs.bridge.Saying.{manner_of, marked, before};
ghost use Rattle.spelling.specs.bridge.Walks.{manner_at, manner_told};

use crate::fields::{put_between, put_cells, put_variables};
use crate::marks::put_opening;
use emit::put_all;
use placing::field::field_at;
use words::keys;

const NOTHING: [u8; 0] = *b"";

const SPACE: [u8; 1] = *b" ";

const DOT: [u8; 3] = *b" . ";

const BOUND: [u8; 8] = *b"BOUND ( ";

const BOUND_END: [u8; 3] = *b" ) ";

const GRAPH: [u8; 6] = *b"GRAPH ";

const GRAPH_END: [u8; 3] = *b" { ";

const SELECT: [u8; 7] = *b"SELECT ";

const DISTINCT: [u8; 9] = *b"DISTINCT ";

const REDUCED: [u8; 8] = *b"REDUCED ";

const WHERE: [u8; 8] = *b"WHERE { ";

const LEFT: [u8; 2] = *b"( ";

const COLS_END: [u8; 4] = *b") { ";

const ROW_END: [u8; 2] = *b") ";

// What stands behind SELECT: DISTINCT, REDUCED or neither.
#[derive(Clone, Copy, Debug, PartialEq, Eq)]
pub enum Manner {
    Plain,
    Distinct,
    Reduced,
}

// The manner with a number: 2 and any higher one is the last.
impl From<u8> for Manner {
    ghost from_gives = { λ number manner. manner_at manner ≡ manner_told number };

    fn from(number: u8) -> Manner {
        match number {
            0 => Manner::Plain,
            1 => Manner::Distinct,
            _ => Manner::Reduced,
        }
    }
}

// The manner that a line gives, by the key of its word.
pub fn manner_of(key: u64) -> Manner
    ensures { (f : Bytes) → Keyed f key → manner_at result ≡ manner_of f }
{
    match key {
        keys::DISTINCT => Manner::Distinct,
        keys::REDUCED => Manner::Reduced,
        _ => Manner::Plain,
    }
}

// s p o .
fn put_triple(query: &[u8], from: usize, end: usize, out: &mut [u8], at: usize) -> usize
    requires { (end < length query.now) × (from ≤ end + 1) }
    ensures { em result out.new ≡ puts (get_or (left query.now from end) 0 [] ++ (32 ∷ (get_or (left query.now from end) 1 [] ++ (32 ∷ (get_or (left query.now from end) 2 [] ++ bytes " . "))))) (em at out.old) }
{
    let subject = field_at(query, from, end);
    let predicate = field_at(query, subject.next, end);
    let a = put_between(&NOTHING, query, from, end, &SPACE, out, at);
    let b = put_between(&NOTHING, query, subject.next, end, &SPACE, out, a);
    put_between(&NOTHING, query, predicate.next, end, &DOT, out, b)
}

// Its token, if it has one.
fn put_manner(manner: Manner, out: &mut [u8], at: usize) -> usize
    ensures { em result out.new ≡ puts (text (marked (manner_at manner) [])) (em at out.old) }
{
    match manner {
        Manner::Plain => at,
        Manner::Distinct => put_all(out, at, &DISTINCT),
        Manner::Reduced => put_all(out, at, &REDUCED),
    }
}

// SELECT, the manner, the columns, WHERE {
fn put_select(
    manner: Manner,
    query: &[u8],
    from: usize,
    end: usize,
    out: &mut [u8],
    at: usize,
) -> usize
    requires { (end < length query.now) × (from ≤ end + 1) }
    ensures { em result out.new ≡ puts (bytes "SELECT " ++ (text (marked (manner_at manner) []) ++ (text (spell_vars (left query.now from end) []) ++ bytes "WHERE { "))) (em at out.old) }
{
    let a = put_all(out, at, &SELECT);
    let b = put_manner(manner, out, a);
    let c = put_variables(query, from, end, out, b);
    put_all(out, c, &WHERE)
}

// ( the columns ) {
fn put_columns(query: &[u8], from: usize, end: usize, out: &mut [u8], at: usize) -> usize
    requires { (end < length query.now) × (from ≤ end + 1) }
    ensures { em result out.new ≡ puts (bytes "( " ++ (text (spell_vars (left query.now from end) []) ++ bytes ") { ")) (em at out.old) }
{
    let a = put_all(out, at, &LEFT);
    let b = put_variables(query, from, end, out, a);
    put_all(out, b, &COLS_END)
}

// ( the cells )
fn put_row(query: &[u8], from: usize, end: usize, out: &mut [u8], at: usize) -> usize
    requires { (end < length query.now) × (from ≤ end + 1) }
    ensures { em result out.new ≡ puts (bytes "( " ++ (text (spell_cells (left query.now from end) []) ++ bytes ") ")) (em at out.old) }
{
    let a = put_all(out, at, &LEFT);
    let b = put_cells(query, from, end, out, a);
    put_all(out, b, &ROW_END)
}

impl Manner {
    // A line's first tokens: its word has this key, and its other fields stand from `first` to its end.
    pub fn put_before(
        self,
        query: &[u8],
        key: u64,
        first: usize,
        end: usize,
        out: &mut [u8],
        at: usize,
    ) -> usize
        requires { (end < length query.now) × (first ≤ end + 1) }
        ensures { (f : Bytes) → Keyed f key → em result out.new ≡ puts (text (before (manner_at self) (f ∷ left query.now first end))) (em at out.old) }
    {
        match key {
            keys::T => put_triple(query, first, end, out, at),
            keys::TERM => put_between(&NOTHING, query, first, end, &SPACE, out, at),
            keys::BOUND => put_between(&BOUND, query, first, end, &BOUND_END, out, at),
            keys::GRAPH => put_between(&GRAPH, query, first, end, &GRAPH_END, out, at),
            keys::PROJECT => put_select(self, query, first, end, out, at),
            keys::COLS => put_columns(query, first, end, out, at),
            keys::ROW => put_row(query, first, end, out, at),
            _ => put_opening(key, out, at),
        }
    }
}

// The same with a manner by its number: its word has this key, and its other fields stand from `first` to its end.
pub fn put_before(
    manner: u8,
    query: &[u8],
    key: u64,
    first: usize,
    end: usize,
    out: &mut [u8],
    at: usize,
) -> usize
    requires { (end < length query.now) × (first ≤ end + 1) }
    ensures { (f : Bytes) → Keyed f key → em result out.new ≡ puts (text (before (manner_told manner) (f ∷ left query.now first end))) (em at out.old) }
{
    Manner::from(manner).put_before(query, key, first, end, out, at)
}
