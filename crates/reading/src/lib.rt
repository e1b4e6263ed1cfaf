// The check of trees, queries, binding sets and filters: each text's number, and the table of its variables.
#![tactic(auto)]

ghost use Rattle.std.specs.Prelude.{◌≡◌, ℕ, ◌+◌, List, [], length, replicate};
ghost use Rattle.text.specs.Text.{First};
ghost use Rattle.algebra.specs.Texts.{read_tree, read_query, read_sets, read_filters};
ghost use Rattle.algebra.specs.Given.{read_given_query};
ghost use Rattle.names.specs.bridge.Checked.{Checked};
ghost use Rattle.lines.specs.bridge.Steps.{InLine, left_at};
ghost use Rattle.reading.specs.bridge.Head.{is_head};
ghost use Rattle.reading.specs.bridge.Charted.{Charted, tree_start, query_start};
ghost use Rattle.reading.specs.bridge.Variables.{tree_names, query_names, set_names, filter_names};
ghost use Rattle.names.specs.bridge.Names.{starts_of, sizes_of, Holds};
ghost use Rattle.words.specs.bridge.Words.{Worded};

use algebra::{DEPTH, Fault};
use checking::check::{Counted, check_list, check_one, note_one};
use cursor::Cursor;
use lines::fields::{Node, Spot, text_field};
use names::{Entry, no_names};
use words::table::WordRow;
use words::{keys, word_at};

// A tree: its number, and the table of its distinct variables by first place.
pub fn check_tree(
    text: &[u8],
    words: &[WordRow; 56],
    table: &mut [Entry; 1024],
    hints: &mut [u16; 2048],
) -> Result<usize, Fault>
    requires { Worded words.now }
    ensures { Checked tree_names text.now (starts_of table.new) (sizes_of table.new) hints.new (read_tree text.now) result }
{
    no_names(table, hints);
    check_one(text, 2, DEPTH, words, table, hints)
}

// The same, and the spots of its variables and the nodes of its lines, for each of which there are three bytes of the text.
pub fn note_tree(
    text: &[u8],
    words: &[WordRow; 56],
    table: &mut [Entry; 1024],
    hints: &mut [u16; 2048],
    spots: &mut [Spot],
    nodes: &mut [Node],
) -> Result<Counted, Fault>
    requires { Worded words.now }
    ensures { Charted tree_names tree_start text.now (starts_of table.new) (sizes_of table.new) hints.new spots.old spots.new words.now nodes.new (read_tree text.now) result }
{
    no_names(table, hints);
    note_one(text, 2, DEPTH, words, table, hints, spots, nodes)
}

// The numbers of two kinds of field: a kind of query, and any bytes.
const FORM: u8 = 14;

const OPAQUE: u8 = 9;

// The fields behind a head line's word: a kind of query, its dataset and its base, and no more.
fn are_head_fields(s: &[u8], c: Cursor) -> bool
    requires { InLine s.now c }
    ensures { result ≡ is_head (left_at s.now c) }
{
    let kind = text_field(s, c, FORM);
    let dataset = text_field(s, kind, OPAQUE);
    let base = text_field(s, dataset, OPAQUE);
    base.at == base.end + 1
}

// A query's head line that stands alone. It is told by itself, as the check of lines has no place for it.
fn check_head(text: &[u8], line: Cursor) -> Result<usize, Fault>
    requires { (line.at ≡ 0) × First 10 text.now 0 (length text.now) line.end × (line.end + 1 ≡ length text.now) }
    ensures { (a l h : List ℕ) → Holds text.now a l h 0 [] → Checked query_names text.now a l h (read_given_query text.now) result }
{
    if 16384 < text.len() {
        return Err(Fault::OverBound);
    }
    let word = word_at(text, line.at, line.end);
    if word.key != keys::QUERY {
        return Err(Fault::Malformed);
    }
    if are_head_fields(text, line.behind(word.end)) {
        return Ok(0);
    }
    Err(Fault::Malformed)
}

// A query: its head line, then a tree, or nothing, which is an empty file's tree.
pub fn check_query(
    text: &[u8],
    words: &[WordRow; 56],
    table: &mut [Entry; 1024],
    hints: &mut [u16; 2048],
) -> Result<usize, Fault>
    requires { Worded words.now }
    ensures { Checked query_names text.now (starts_of table.new) (sizes_of table.new) hints.new (read_given_query text.now) result }
{
    no_names(table, hints);
    let line = Cursor::new(0).next_line(text);
    if text.len() - line.end != 1 {
        return check_one(text, 7, DEPTH, words, table, hints);
    }
    check_head(text, line)
}

// The same, and the spots and nodes of its tree.
pub fn note_query(
    text: &[u8],
    words: &[WordRow; 56],
    table: &mut [Entry; 1024],
    hints: &mut [u16; 2048],
    spots: &mut [Spot],
    nodes: &mut [Node],
) -> Result<Counted, Fault>
    requires { Worded words.now }
    ensures { Charted query_names query_start text.now (starts_of table.new) (sizes_of table.new) hints.new spots.old spots.new words.now nodes.new (read_query text.now) result }
{
    no_names(table, hints);
    note_one(text, 7, DEPTH, words, table, hints, spots, nodes)
}

// A list of binding sets; the table was cleared.
pub fn check_sets(
    text: &[u8],
    words: &[WordRow; 56],
    table: &mut [Entry; 1024],
    hints: &mut [u16; 2048],
) -> Result<usize, Fault>
    requires { Worded words.now × (table.old ≡ replicate 1024 (replicate 2 0)) }
    ensures { Checked set_names text.now (starts_of table.new) (sizes_of table.new) hints.new (read_sets text.now) result }
{
    no_names(table, hints);
    check_list(text, 8, 1, words, table, hints)
}

// A list of filters; the table was cleared.
pub fn check_filters(
    text: &[u8],
    words: &[WordRow; 56],
    table: &mut [Entry; 1024],
    hints: &mut [u16; 2048],
) -> Result<usize, Fault>
    requires { Worded words.now × (table.old ≡ replicate 1024 (replicate 2 0)) }
    ensures { Checked filter_names text.now (starts_of table.new) (sizes_of table.new) hints.new (read_filters text.now) result }
{
    no_names(table, hints);
    check_list(text, 11, DEPTH, words, table, hints)
}
