// The filters one after the other: noted in one pass, then those that are placed are written by these notes, and the numbers of the others.
ghost use Rattle.std.specs.Prelude.{◌≡◌, ◌+◌, ◌≤◌, ◌<◌, cond, [], ◌++◌, length, drop};
ghost use Rattle.text.specs.Text.{text_of, lines_from};
ghost use Rattle.algebra.specs.Tally.{bounds};
ghost use Rattle.reader.specs.bridge.Lines.{LineEnd};
ghost use Rattle.words.specs.bridge.Words.{Worded};
ghost use Rattle.emit.specs.bridge.Emit.{em};
ghost use Rattle.emit.specs.bridge.Writer.{Wrote};
ghost use Rattle.names.specs.bridge.Names.{names_in};
ghost use Rattle.filtering.specs.bridge.FilterLines.{tree_to_expression};
ghost use Rattle.expressing.specs.bridge.Walks.{Walks, is_true_first, lines_at, Notes};

use crate::express::{Walked, line_from, tree_to_expression};
use algebra::{ENTRIES, PerEntry};
use emit::Writer;
use names::Columns;
use operators::line::is_constant_true;
use placing::steps::both;
use words::table::WordRow;

// No text has more lines than `bounds` says.
const LINES: usize = 2048;

// Where filters start that are placed.
pub type Starts = [usize; ENTRIES];

// How many filters are placed, how long their expressions' lines are, and how many filters are not placed.
#[derive(Clone, Copy)]
pub struct Noted {
    pub many: usize,
    pub size: usize,
    pub others: usize,
}

// A filter that was tried, and how long the lines are with its own.
#[derive(Clone, Copy)]
pub struct Tried {
    pub walked: Walked,
    pub size: usize,
}

// A filter behind lines that are so long, and nothing written.
fn try_filter(
    tree: &[u8],
    columns: &Columns,
    n: usize,
    filters: &[u8],
    words: &[WordRow; 56],
    from: usize,
    size: usize,
) -> Tried
    requires { (n ≤ bounds.columns) × Worded words.now }
    ensures { Walks filters.now (tree_to_expression (names_in tree.now columns.now n) bounds.lines (lines_from filters.now from)) (em size []) (em result.size []) result.walked }
{
    let mut none = [0u8; 0];
    let mut w = Writer::new(&mut none, size);
    let walked = tree_to_expression(tree, columns, n, filters, words, from, LINES, &mut w);
    Tried { walked, size: w.at }
}

// The filter whose first line goes from here to its end is always true.
fn is_true_first(filters: &[u8], from: usize, end: usize) -> bool
    requires { LineEnd filters.now from end }
    ensures { result ≡ is_true_first (lines_from filters.now from) }
{
    if end == filters.len() {
        return false;
    }
    is_constant_true(filters, from, end)
}

fn one_more(many: usize, placed: bool) -> usize
    requires { many < 18446744073709551615 }
    ensures { result ≡ cond placed (many + 1) many }
{
    if placed {
        return many + 1;
    }
    many
}

fn placed_end(placed: bool, end: usize, at: usize) -> usize
    ensures { result ≡ cond placed end at }
{
    if placed {
        return end;
    }
    at
}

// Each filter once: its start is noted, and kept if it is placed; its number is noted, and kept if it isn't. None is placed unless a projection was found.
pub fn note_filters(
    found: bool,
    tree: &[u8],
    columns: &Columns,
    n: usize,
    filters: &[u8],
    words: &[WordRow; 56],
    starts: &mut Starts,
    numbers: &mut PerEntry,
) -> Noted
    requires { (n ≤ bounds.columns) × Worded words.now × (length starts.old ≡ bounds.entries) × (length numbers.old ≡ bounds.entries) }
    ensures { Notes found (names_in tree.now columns.now n) filters.now starts.new numbers.new result }
{
    let mut many = 0;
    let mut size = 0;
    let mut from = 0;
    for i in 0..ENTRIES {
        if filters.len() <= from {
            return Noted {
                many,
                size,
                others: i - many,
            };
        }
        let line = line_from(filters, from);
        let tried = try_filter(tree, columns, n, filters, words, from, size);
        let walked = tried.walked;
        let taken = both(!is_true_first(filters, from, line.end), walked.expressed);
        let placed = both(found, taken);
        starts[many] = from;
        numbers[i - many] = i as u16;
        size = placed_end(placed, tried.size, size);
        many = one_more(many, placed);
        from = walked.from;
    }
    Noted {
        many,
        size,
        others: ENTRIES - many,
    }
}

// The expressions of the filters that start at these places.
pub fn put_expressions(
    tree: &[u8],
    columns: &Columns,
    n: usize,
    filters: &[u8],
    words: &[WordRow; 56],
    starts: &[usize],
    w: &mut Writer,
)
    requires { (n ≤ bounds.columns) × Worded words.now }
    ensures { Wrote w.old w.new (text_of (lines_at (names_in tree.now columns.now n) filters.now starts.now)) }
{
    for j in 0..starts.len() {
        tree_to_expression(tree, columns, n, filters, words, starts[j], LINES, w);
    }
}

// The numbers of the filters that are not placed, from the list's start on.
pub fn put_numbers(numbers: &[u16], list: &mut [u16])
    requires { length numbers.now ≤ length list.old }
    ensures { list.new ≡ numbers.now ++ drop (length numbers.now) list.old }
{
    for j in 0..numbers.len() {
        list[j] = numbers[j];
    }
}
