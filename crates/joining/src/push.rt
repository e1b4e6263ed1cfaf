// The call push constants: a query whose columns at some positions are held to constants.
ghost use Rattle.answers.specs.Outcome.{Answered};
ghost use Rattle.merging.specs.Push.{push_constants_outcome};
ghost use Rattle.algebra.specs.Query.{Query};
ghost use Rattle.heads.specs.bridge.TreeAt.{HeadOf};
ghost use Rattle.sides.specs.bridge.Side.{Stands};
ghost use Rattle.projects.specs.bridge.Joining.{KnownTerms};
ghost use Rattle.joining.specs.bridge.Form.{RoomFor, push_with};
ghost use Rattle.std.specs.Prelude.{ℕ, ◌≤◌, ◌*◌, length};
ghost use Rattle.names.specs.bridge.Names.{starts_of, sizes_of};
ghost use Rattle.words.specs.bridge.Words.{Worded};
ghost use Rattle.descending.specs.bridge.Renamed.{Shaped};

use crate::forms::{note_form, place_of, start_of, text_of};
use algebra::EMPTY_TREE;
use answers::Answer;
use heads::{copy_behind, is_select_or_ask};
use lines::fields::{Node, Spot};
use lists::check_constants;
use names::{Entry, new_table};
use projects::push::push_in_project;
use sides::project::is_project;
use sides::side::Standing;
use text::piece;
use words::table::{WordRow, all_words};

// push_constants, for the head and the tree of a query and for constants that were checked.
fn push_of(
    words: &[WordRow; 56],
    head: &[u8],
    text: &[u8],
    standing: Standing,
    table: &[Entry; 1024],
    nodes: &[Node],
    spots: &mut [Spot],
    constants: &[u8],
    out: &mut [u8],
) -> Answer
    requires { ((q : Query) × Stands text.now standing.from (starts_of table.now) (sizes_of table.now) standing.n spots.old q.tree × HeadOf head.now q) × KnownTerms constants.now × Worded words.now × Shaped words.now nodes.now (length nodes.now) (length spots.old) }
    ensures { (q : Query) → Stands text.now standing.from (starts_of table.now) (sizes_of table.now) standing.n spots.old q.tree → HeadOf head.now q → Answered (push_with q constants.now) out.old out.new result }
{
    if !is_select_or_ask(head) {
        return copy_behind(head, piece(text, standing.from, text.len()), out);
    }
    if !is_project(text, standing.from) {
        return copy_behind(head, piece(text, standing.from, text.len()), out);
    }
    push_in_project(
        words, head, text, standing, table, nodes, spots, constants, out,
    )
}

// The same for a query that was checked and any constants.
fn push_by(
    words: &[WordRow; 56],
    head: &[u8],
    text: &[u8],
    standing: Standing,
    table: &[Entry; 1024],
    nodes: &[Node],
    spots: &mut [Spot],
    constants: &[u8],
    out: &mut [u8],
) -> Answer
    requires { ((q : Query) × Stands text.now standing.from (starts_of table.now) (sizes_of table.now) standing.n spots.old q.tree × HeadOf head.now q) × Worded words.now × Shaped words.now nodes.now (length nodes.now) (length spots.old) }
    ensures { (q : Query) → Stands text.now standing.from (starts_of table.now) (sizes_of table.now) standing.n spots.old q.tree → HeadOf head.now q → Answered (push_with q constants.now) out.old out.new result }
{
    check_constants(constants)?;
    push_of(
        words, head, text, standing, table, nodes, spots, constants, out,
    )
}

// The same for any query, with room for its variables.
fn push_with(
    words: &[WordRow; 56],
    query: &[u8],
    nodes: &mut [Node],
    spots: &mut [Spot],
    constants: &[u8],
    out: &mut [u8],
) -> Answer
    requires { RoomFor query.now spots.old nodes.old × Worded words.now }
    ensures { Answered (push_constants_outcome query.now constants.now) out.old out.new result }
{
    let empty = EMPTY_TREE;
    let start = start_of(true, query);
    let stands = text_of(query, start, &empty);
    let mut table = new_table();
    let mut hints = [0u16; 2048];
    let noted = note_form(
        true, words, query, start, stands, &mut table, &mut hints, spots, nodes,
    )?;
    let from = place_of(query, start);
    push_by(
        words,
        piece(query, 0, start),
        stands,
        Standing {
            from,
            n: noted.names,
        },
        &table,
        &nodes[..noted.nodes],
        &mut spots[..noted.spots],
        constants,
        out,
    )
}

// The same with so many nodes and spots, which are cleared first. Each size has a frame of its own.
#[inline(never)]
fn push_in<const NODES: usize, const SPOTS: usize>(
    query: &[u8],
    constants: &[u8],
    out: &mut [u8],
) -> Answer
    requires { (NODES ≤ 2048) × (SPOTS ≤ 5462) × (14 ≤ SPOTS) × (14 ≤ NODES) × (length query.now ≤ 16384 → length query.now ≤ 3 * SPOTS) × ((m : ℕ) → 3 * m ≤ length query.now → m ≤ 2048 → m ≤ NODES) }
    ensures { Answered (push_constants_outcome query.now constants.now) out.old out.new result }
{
    let words = all_words();
    let mut nodes = [[0u32; 3]; NODES];
    let mut spots = [[0u16; 3]; SPOTS];
    push_with(&words, query, &mut nodes, &mut spots, constants, out)
}

// push constants: query and constants to query, with as many nodes and spots as pays.
pub fn push_constants(query: &[u8], constants: &[u8], out: &mut [u8]) -> Answer
    ensures { Answered (push_constants_outcome query.now constants.now) out.old out.new result }
{
    match query.len() {
        0..=1536 => push_in::<512, 512>(query, constants, out),
        1537..=6144 => push_in::<2048, 2048>(query, constants, out),
        _ => push_in::<2048, 5462>(query, constants, out),
    }
}
