// The tokens behind a line's children.
ghost use Rattle.std.specs.Prelude.{◌≡◌, ◌+◌, ◌≤◌, ◌<◌, cond, [], ◌∷◌, ◌++◌, length, get_or};
ghost use Rattle.text.specs.Text.{Bytes, same, lines_from};
ghost use Rattle.text.specs.Word.{bytes};
ghost use Rattle.cursor.specs.bridge.Cursor.{left};
ghost use Rattle.words.specs.bridge.Key.{Keyed};
ghost use Rattle.emit.specs.bridge.Emit.{em, puts};
ghost use Rattle.editions.specs.Token.{text};
ghost use Rattle.editions.specs.Spelling.{spell_slice};
ghost use Rattle.spelling.specs.bridge.Saying.{first_or, word_next, after};

use crate::fields::put_between;
use crate::marks::put_closing;
use emit::put_all;
use placing::field::field_at;
use reader::line_end;
use terms::term::is_dash;
use words::{keys, word_at};

const BIND: [u8; 9] = *b"} BIND ( ";

const AS: [u8; 3] = *b"AS ";

const AS_END: [u8; 3] = *b" ) ";

const CLOSE: [u8; 2] = *b"} ";

const OFFSET: [u8; 7] = *b"OFFSET ";

const LIMIT: [u8; 6] = *b"LIMIT ";

const SPACE: [u8; 1] = *b" ";

// The line that starts here is an orderby's.
fn is_order(query: &[u8], from: usize) -> bool
    ensures { result ≡ same (word_next (lines_from query.now from)) (bytes "orderby") }
{
    let end = line_end(query, from);
    if end == query.len() {
        return false;
    }
    let w = word_at(query, from, end);
    w.key == keys::ORDERBY
}

// Behind an extend's child number i.
fn put_bind(i: usize, query: &[u8], from: usize, end: usize, out: &mut [u8], at: usize) -> usize
    requires { (end < length query.now) × (from ≤ end + 1) }
    ensures { em result out.new ≡ puts (first_or i (bytes "} BIND ( ") (bytes "AS " ++ (get_or (left query.now from end) 0 [] ++ bytes " ) "))) (em at out.old) }
{
    if i == 0 {
        return put_all(out, at, &BIND);
    }
    put_between(&AS, query, from, end, &AS_END, out, at)
}

// Behind a project's child, whose lines start here: an orderby has closed the group.
fn put_project_end(query: &[u8], next: usize, out: &mut [u8], at: usize) -> usize
    ensures { em result out.new ≡ puts (cond (same (word_next (lines_from query.now next)) (bytes "orderby")) [] (bytes "} ")) (em at out.old) }
{
    if is_order(query, next) {
        return at;
    }
    put_all(out, at, &CLOSE)
}

// OFFSET and LIMIT, of the slice whose numbers start here.
fn put_slice(query: &[u8], from: usize, end: usize, out: &mut [u8], at: usize) -> usize
    requires { (end < length query.now) × (from ≤ end + 1) }
    ensures { em result out.new ≡ puts (text (spell_slice (get_or (left query.now from end) 0 []) (get_or (left query.now from end) 1 []) [])) (em at out.old) }
{
    let start = field_at(query, from, end);
    let second = start.next;
    let limit = field_at(query, second, end);
    let to = limit.to;
    let a = put_between(&OFFSET, query, from, end, &SPACE, out, at);
    if is_dash(&query[second..to]) {
        return a;
    }
    put_between(&LIMIT, query, second, end, &SPACE, out, a)
}

// Behind the child number i of a line, where n are to come: its word has this key, and its other fields stand from `first` to its end.
pub fn put_after(
    query: &[u8],
    key: u64,
    first: usize,
    end: usize,
    i: usize,
    n: usize,
    out: &mut [u8],
    at: usize,
) -> usize
    requires { (end < length query.now) × (first ≤ end + 1) }
    ensures { (f : Bytes) → Keyed f key → em result out.new ≡ puts (text (after (f ∷ left query.now first end) (lines_from query.now (end + 1)) i n)) (em at out.old) }
{
    match key {
        keys::EXTEND => put_bind(i, query, first, end, out, at),
        keys::PROJECT => put_project_end(query, end + 1, out, at),
        keys::SLICE => put_slice(query, first, end, out, at),
        _ => put_closing(key, i, n, out, at),
    }
}
