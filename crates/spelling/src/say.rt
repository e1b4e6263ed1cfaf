// A query's lines in the words of SPARQL: patterns and expressions call one another, remaining depth falling.
ghost use Rattle.std.specs.Prelude.{◌≡◌, true};
ghost use Rattle.text.specs.Text.{Bytes, lines_from};
ghost use Rattle.words.specs.bridge.Key.{Keyed};
ghost use Rattle.words.specs.bridge.Words.{Worded};
ghost use Rattle.emit.specs.bridge.Emit.{em};
ghost use Rattle.spelling.specs.declared.before.Manner.TheVariants.{Plain};
ghost use Rattle.spelling.specs.bridge.Saying.{word_next, shallow, said_line, said_child, said_tree};
ghost use Rattle.spelling.specs.bridge.Walks.{manner_at, manner_told, Sorted, Writes};

use crate::after::put_after;
use crate::before::{Manner, manner_of};
use placing::ends::lines_under;
use reader::line_end;
use words::table::WordRow;
use words::{keys, word_at};

// Where the text and the output go on.
#[derive(Clone, Copy)]
pub struct Said {
    pub from: usize,
    pub at: usize,
}

// What a line is: flat is one that is neither pattern nor expression.
#[derive(Clone, Copy, Debug, PartialEq, Eq)]
pub enum Sort {
    Flat,
    Expression,
    Pattern,
}

// The sort of a line by the key of its word.
fn sort_of(key: u64) -> Sort
    ensures { (f : Bytes) → Keyed f key → Sorted f result }
{
    match key {
        keys::T => Sort::Flat,
        keys::COLS => Sort::Flat,
        keys::ROW => Sort::Flat,
        keys::ASC => Sort::Flat,
        keys::DESC => Sort::Flat,
        keys::AGG => Sort::Flat,
        keys::AGGALL => Sort::Flat,
        keys::TERM => Sort::Expression,
        keys::BOUND => Sort::Expression,
        keys::EXISTS => Sort::Expression,
        keys::OR => Sort::Expression,
        keys::AND => Sort::Expression,
        keys::EQ => Sort::Expression,
        keys::SAME => Sort::Expression,
        keys::NOT => Sort::Expression,
        _ => Sort::Pattern,
    }
}

// The sort of the line that starts here.
pub fn sort_at(query: &[u8], from: usize) -> Sort
    ensures { Sorted (word_next (lines_from query.now from)) result }
{
    let end = line_end(query, from);
    if end == query.len() {
        return Sort::Pattern;
    }
    let w = word_at(query, from, end);
    sort_of(w.key)
}

// The pattern that starts here, where `depth` levels may still be opened.
#[cycle(say_child_say_expression_say_flat_say_line_say_pattern)]
pub fn say_tree(
    query: &[u8],
    words: &[WordRow; 56],
    manner: Manner,
    from: usize,
    depth: usize,
    out: &mut [u8],
    at: usize,
) -> Said
    requires { Worded words.now }
    ensures { Writes query.now (said_tree depth (manner_at manner) (lines_from query.now from)) (em at out.old) (em result.at out.new) result.from }
{
    if depth == 0 {
        return Said { from, at };
    }
    say_line(query, words, manner, from, depth - 1, out, at)
}

// The expression that starts here.
#[cycle(say_child_say_expression_say_flat_say_line_say_pattern)]
fn say_expression(
    query: &[u8],
    words: &[WordRow; 56],
    from: usize,
    depth: usize,
    out: &mut [u8],
    at: usize,
) -> Said
    requires { Worded words.now }
    ensures { Writes query.now (said_tree depth (manner_at Plain) (lines_from query.now from)) (em at out.old) (em result.at out.new) result.from }
{
    if depth == 0 {
        return Said { from, at };
    }
    say_line(query, words, Manner::Plain, from, depth - 1, out, at)
}

// The line that starts here, a pattern's or an expression's, and what stands below it.
#[cycle(say_child_say_expression_say_flat_say_line_say_pattern)]
fn say_line(
    query: &[u8],
    words: &[WordRow; 56],
    manner: Manner,
    from: usize,
    depth: usize,
    out: &mut [u8],
    at: usize,
) -> Said
    requires { Worded words.now }
    ensures { Writes query.now (said_line (said_child (said_tree depth)) (manner_at manner) (lines_from query.now from)) (em at out.old) (em result.at out.new) result.from }
{
    let end = line_end(query, from);
    if end == query.len() {
        return Said { from: end, at };
    }
    let w = word_at(query, from, end);
    let first = w.end + 1;
    let under = manner_of(w.key);
    let children = lines_under(query, words, w.key, first, end) as usize;
    let mut to = manner.put_before(query, w.key, first, end, out, at);
    let mut next = end + 1;
    for i in 0..children {
        let child = say_child(query, words, under, next, depth, out, to);
        to = put_after(query, w.key, first, end, i, children - i - 1, out, child.at);
        next = child.from;
    }
    Said { from: next, at: to }
}

// A line that is neither, and the expressions below it.
#[cycle(say_child_say_expression_say_flat_say_line_say_pattern)]
fn say_flat(
    query: &[u8],
    words: &[WordRow; 56],
    manner: Manner,
    from: usize,
    depth: usize,
    out: &mut [u8],
    at: usize,
) -> Said
    requires { Worded words.now × (shallow (word_next (lines_from query.now from)) ≡ true) }
    ensures { Writes query.now (said_line (said_tree depth) (manner_at manner) (lines_from query.now from)) (em at out.old) (em result.at out.new) result.from }
{
    let end = line_end(query, from);
    if end == query.len() {
        return Said { from: end, at };
    }
    let w = word_at(query, from, end);
    let first = w.end + 1;
    let children = lines_under(query, words, w.key, first, end) as usize;
    let mut to = manner.put_before(query, w.key, first, end, out, at);
    let mut next = end + 1;
    for i in 0..children {
        let child = say_expression(query, words, next, depth, out, to);
        to = put_after(query, w.key, first, end, i, children - i - 1, out, child.at);
        next = child.from;
    }
    Said { from: next, at: to }
}

// A line below another, and what stands below it: a pattern, an expression, or neither.
#[cycle(say_child_say_expression_say_flat_say_line_say_pattern)]
fn say_child(
    query: &[u8],
    words: &[WordRow; 56],
    manner: Manner,
    from: usize,
    depth: usize,
    out: &mut [u8],
    at: usize,
) -> Said
    requires { Worded words.now }
    ensures { Writes query.now (said_child (said_tree depth) (manner_at manner) (lines_from query.now from)) (em at out.old) (em result.at out.new) result.from }
{
    match sort_at(query, from) {
        Sort::Flat => say_flat(query, words, manner, from, depth, out, at),
        Sort::Expression => say_expression(query, words, from, depth, out, at),
        Sort::Pattern => say_tree(query, words, manner, from, depth, out, at),
    }
}

// The pattern that starts here, with a manner by its number.
pub fn say_pattern(
    query: &[u8],
    words: &[WordRow; 56],
    manner: u8,
    from: usize,
    depth: usize,
    out: &mut [u8],
    at: usize,
) -> Said
    requires { Worded words.now }
    ensures { Writes query.now (said_tree depth (manner_told manner) (lines_from query.now from)) (em at out.old) (em result.at out.new) result.from }
{
    say_tree(query, words, Manner::from(manner), from, depth, out, at)
}
