// Whether a variable is in scope in a pattern, from its lines: patterns and expressions call one another, remaining depth falling.
ghost use Rattle.std.specs.Prelude.{◌≡◌, ◌+◌, ◌≤◌, ◌<◌, ◌||◌, List, [], ◌∷◌, length, get_or};
ghost use Rattle.text.specs.Text.{Bytes, same, lines_from};
ghost use Rattle.algebra.specs.Valid.{mem};
ghost use Rattle.cursor.specs.bridge.Cursor.{left};
ghost use Rattle.words.specs.bridge.Key.{Keyed};
ghost use Rattle.words.specs.bridge.Words.{Worded};
ghost use Rattle.spelling.specs.bridge.Seeking.{names_on, shows, sought_line, sought_child, sought_tree};
ghost use Rattle.spelling.specs.bridge.Walks.{Seeks};

use crate::say::{Sort, sort_at};
use placing::ends::lines_under;
use placing::field::field_at;
use reader::line_end;
use text::equal;
use words::table::WordRow;
use words::{keys, word_at};

// It is among the fields from here on.
pub fn is_among(v: &[u8], query: &[u8], from: usize, end: usize) -> bool
    requires { (end < length query.now) × (from ≤ end + 1) }
    ensures { result ≡ mem v.now (left query.now from end) }
{
    let mut next = from;
    while next <= end {
        let field = field_at(query, next, end);
        let stop = field.to;
        if equal(v, &query[next..stop]) {
            return true;
        }
        next = field.next;
    }
    false
}

// It is the field that starts here.
pub fn is_field(v: &[u8], query: &[u8], from: usize, end: usize) -> bool
    requires { (end < length query.now) × (from ≤ end + 1) }
    ensures { result ≡ same v.now (get_or (left query.now from end) 0 []) }
{
    let field = field_at(query, from, end);
    let to = field.to;
    equal(v, &query[from..to])
}

// It is the first field from here on, or the third.
fn is_end_of_path(v: &[u8], query: &[u8], from: usize, end: usize) -> bool
    requires { (end < length query.now) × (from ≤ end + 1) }
    ensures { result ≡ (same v.now (get_or (left query.now from end) 0 []) || same v.now (get_or (left query.now from end) 2 [])) }
{
    let subject = field_at(query, from, end);
    let path = field_at(query, subject.next, end);
    is_field(v, query, from, end) | is_field(v, query, path.next, end)
}

// It is named by a line: its word has this key, and its other fields stand from `first` to its end.
fn is_named(v: &[u8], query: &[u8], key: u64, first: usize, end: usize) -> bool
    requires { (end < length query.now) × (first ≤ end + 1) }
    ensures { (f : Bytes) → Keyed f key → result ≡ mem v.now (names_on (f ∷ left query.now first end)) }
{
    match key {
        keys::T => is_among(v, query, first, end),
        keys::PROJECT => is_among(v, query, first, end),
        keys::COLS => is_among(v, query, first, end),
        keys::PATH => is_end_of_path(v, query, first, end),
        keys::GRAPH => is_field(v, query, first, end),
        keys::SERVICE => is_field(v, query, first, end),
        keys::EXTEND => is_field(v, query, first, end),
        keys::AGG => is_field(v, query, first, end),
        keys::AGGALL => is_field(v, query, first, end),
        _ => false,
    }
}

// What is in scope in the line's child number i is in scope in the line.
fn shows_child(key: u64, i: usize) -> bool
    ensures { (f : Bytes) → Keyed f key → (fs : List Bytes) → result ≡ shows (f ∷ fs) i }
{
    match key {
        keys::LEFTJOIN => i < 2,
        keys::MINUS => i == 0,
        keys::FILTER => i == 0,
        keys::EXTEND => i == 0,
        keys::ORDERBY => i == 0,
        keys::GROUP => i != 1,
        keys::PROJECT => false,
        keys::AGG => false,
        _ => true,
    }
}

// Whether it was found, and where the lines behind start.
#[derive(Clone, Copy)]
pub struct Sought {
    pub found: bool,
    pub from: usize,
}

// The pattern that starts here, where `depth` levels may still be opened; nothing is found where it isn't shown.
#[cycle(seek_child_seek_expression_seek_flat_seek_line_seek_pattern)]
pub fn seek_pattern(
    v: &[u8],
    query: &[u8],
    words: &[WordRow; 56],
    shown: bool,
    from: usize,
    depth: usize,
) -> Sought
    requires { Worded words.now }
    ensures { Seeks query.now (sought_tree depth v.now shown (lines_from query.now from)) result.found result.from }
{
    if depth == 0 {
        return Sought { found: false, from };
    }
    seek_line(v, query, words, shown, from, depth - 1)
}

// The expression that starts here: what an exists has in scope isn't shown, as no expression is.
#[cycle(seek_child_seek_expression_seek_flat_seek_line_seek_pattern)]
fn seek_expression(
    v: &[u8],
    query: &[u8],
    words: &[WordRow; 56],
    shown: bool,
    from: usize,
    depth: usize,
) -> Sought
    requires { Worded words.now }
    ensures { Seeks query.now (sought_tree depth v.now shown (lines_from query.now from)) result.found result.from }
{
    if depth == 0 {
        return Sought { found: false, from };
    }
    seek_line(v, query, words, shown, from, depth - 1)
}

// The line that starts here, a pattern's or an expression's, and what stands below it.
#[cycle(seek_child_seek_expression_seek_flat_seek_line_seek_pattern)]
fn seek_line(
    v: &[u8],
    query: &[u8],
    words: &[WordRow; 56],
    shown: bool,
    from: usize,
    depth: usize,
) -> Sought
    requires { Worded words.now }
    ensures { Seeks query.now (sought_line (sought_child (sought_tree depth v.now) v.now) v.now shown (lines_from query.now from)) result.found result.from }
{
    let end = line_end(query, from);
    if end == query.len() {
        return Sought {
            found: false,
            from: end,
        };
    }
    let w = word_at(query, from, end);
    let first = w.end + 1;
    let children = lines_under(query, words, w.key, first, end) as usize;
    let mut found = shown & is_named(v, query, w.key, first, end);
    let mut next = end + 1;
    for i in 0..children {
        let child = seek_child(v, query, words, shown & shows_child(w.key, i), next, depth);
        found |= child.found;
        next = child.from;
    }
    Sought { found, from: next }
}

// A line that is neither, and the expressions below it.
#[cycle(seek_child_seek_expression_seek_flat_seek_line_seek_pattern)]
fn seek_flat(
    v: &[u8],
    query: &[u8],
    words: &[WordRow; 56],
    shown: bool,
    from: usize,
    depth: usize,
) -> Sought
    requires { Worded words.now }
    ensures { Seeks query.now (sought_line (sought_tree depth v.now) v.now shown (lines_from query.now from)) result.found result.from }
{
    let end = line_end(query, from);
    if end == query.len() {
        return Sought {
            found: false,
            from: end,
        };
    }
    let w = word_at(query, from, end);
    let first = w.end + 1;
    let children = lines_under(query, words, w.key, first, end) as usize;
    let mut found = shown & is_named(v, query, w.key, first, end);
    let mut next = end + 1;
    for i in 0..children {
        let child = seek_expression(v, query, words, shown & shows_child(w.key, i), next, depth);
        found |= child.found;
        next = child.from;
    }
    Sought { found, from: next }
}

// A line below another, and what stands below it: a pattern, an expression, or neither.
#[cycle(seek_child_seek_expression_seek_flat_seek_line_seek_pattern)]
fn seek_child(
    v: &[u8],
    query: &[u8],
    words: &[WordRow; 56],
    shown: bool,
    from: usize,
    depth: usize,
) -> Sought
    requires { Worded words.now }
    ensures { Seeks query.now (sought_child (sought_tree depth v.now) v.now shown (lines_from query.now from)) result.found result.from }
{
    match sort_at(query, from) {
        Sort::Flat => seek_flat(v, query, words, shown, from, depth),
        Sort::Expression => seek_expression(v, query, words, shown, from, depth),
        Sort::Pattern => seek_pattern(v, query, words, shown, from, depth),
    }
}
