// The form of a call's texts: trees, or queries, whose trees stand behind their heads. Where nothing does, the tree is that of an
// empty file.
ghost use Rattle.std.specs.Prelude.{◌≡◌, cond, true, ◌≤◌, ltb, length};
ghost use Rattle.algebra.specs.Query.{Query};
ghost use Rattle.algebra.specs.Given.{empty_text};
ghost use Rattle.names.specs.bridge.Names.{starts_of, sizes_of};
ghost use Rattle.words.specs.bridge.Words.{Worded};
ghost use Rattle.joining.specs.bridge.Form.{HeadIs, may_merge, StartsAt, stands_in, stands_from, NotedForm};

use algebra::Fault;
use checking::check::Counted;
use heads::{is_mergeable, tree_start};
use lines::fields::{Node, Spot};
use names::Entry;
use reading::{check_query, note_query, note_tree};
use words::table::WordRow;

// Where the tree starts.
pub fn start_of(query: bool, text: &[u8]) -> usize
    ensures { StartsAt query text.now result }
{
    if query {
        return tree_start(text);
    }
    0
}

// The text in which the tree stands that starts there, if anything does.
pub fn text_of<'a>(text: &'a [u8], from: usize, empty: &'a [u8]) -> &'a [u8]
    ensures { result.now ≡ cond (ltb from (length text.now)) text.now empty.now }
{
    if from < text.len() {
        return text;
    }
    empty
}

// Where it starts in that text.
pub fn place_of(text: &[u8], from: usize) -> usize
    ensures { result ≡ stands_from text.now from }
{
    if from < text.len() {
        return from;
    }
    0
}

// The check of a query whose head stands alone, and of the tree of an empty file.
fn note_alone(
    words: &[WordRow; 56],
    query: &[u8],
    from: usize,
    stands: &[u8],
    table: &mut [Entry; 1024],
    hints: &mut [u16; 2048],
    spots: &mut [Spot],
    nodes: &mut [Node],
) -> Result<Counted, Fault>
    requires { Worded words.now × StartsAt true query.now from × (length query.now ≤ from) × (stands.now ≡ empty_text) }
    ensures { NotedForm true query.now from (starts_of table.new) (sizes_of table.new) spots.old spots.new words.now nodes.new result }
{
    check_query(query, words, table, hints)?;
    note_tree(stands, words, table, hints, spots, nodes)
}

// The check of a text, with the names, the variables and the lines of its tree, which stands in a text.
pub fn note_form(
    query: bool,
    words: &[WordRow; 56],
    text: &[u8],
    from: usize,
    stands: &[u8],
    table: &mut [Entry; 1024],
    hints: &mut [u16; 2048],
    spots: &mut [Spot],
    nodes: &mut [Node],
) -> Result<Counted, Fault>
    requires { Worded words.now × StartsAt query text.now from × (stands.now ≡ stands_in text.now from) }
    ensures { NotedForm query text.now from (starts_of table.new) (sizes_of table.new) spots.old spots.new words.now nodes.new result }
{
    if !query {
        return note_tree(stands, words, table, hints, spots, nodes);
    }
    if from < text.len() {
        return note_query(text, words, table, hints, spots, nodes);
    }
    note_alone(words, text, from, stands, table, hints, spots, nodes)
}

// Tables for two texts. In a function of its own: within a caller that does more, the compiler makes one table and copies it twice.
pub fn new_tables() -> [[Entry; 1024]; 2]
    ensures { length result ≡ 2 }
{
    [[[0u16; 2]; 1024]; 2]
}

// Trees may always be merged, queries if their heads are one.
pub fn may_merge(query: bool, left: &[u8], right: &[u8]) -> bool
    ensures { (a b : Query) → HeadIs query left.now a → HeadIs query right.now b → result ≡ may_merge query a b }
{
    if query {
        return is_mergeable(left, right);
    }
    true
}
