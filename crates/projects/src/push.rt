// push_constants_in_project_pattern.
ghost use Rattle.std.specs.Prelude.{◌≡◌, List, [], ◌++◌, false, length};
ghost use Rattle.projects.specs.bridge.Pair.{PushWritten};
ghost use Rattle.algebra.specs.Query.{Pair};
ghost use Rattle.algebra.specs.Layout.{layout};
ghost use Rattle.answers.specs.Outcome.{Answered};
ghost use Rattle.scoping.specs.Label.{prefix_v};
ghost use Rattle.merging.specs.Request.{Projection, tree};
ghost use Rattle.sides.specs.bridge.Side.{Stands, IsFound, IsNamed, Terms};
ghost use Rattle.projects.specs.bridge.Joining.{pushed_tree, KnownTerms, pushed_behind};
ghost use Rattle.names.specs.bridge.Names.{starts_of, sizes_of};
ghost use Rattle.words.specs.bridge.Words.{Worded};
ghost use Rattle.descending.specs.bridge.Renamed.{Shaped};

use answers::{Answer, Refusal, write_answer};
use columns::columns::{put_columns, width};
use emit::Writer;
use lines::fields::{Node, Spot};
use names::Entry;
use sides::side::{FoundSide, Standing, find_side, name_found};
use sides::writing::put_side;
use words::table::WordRow;

const PROJECT: [u8; 7] = *b"project";

// The tree with its constants behind a head, the columns that carry none first.
fn put_pushed(
    head: &[u8],
    query: &[u8],
    table: &[Entry; 1024],
    spots: &[Spot],
    news: &[Entry; 1024],
    constants: &[u8],
    found: FoundSide,
    w: &mut Writer,
)
    requires { (x : Projection) × (ks : List Pair) × IsNamed query.now table.now spots.now prefix_v false constants.now news.now found x [] ks }
    ensures { PushWritten head.now query.now table.now spots.now constants.now news.now found w.old w.new }
{
    let o = found.outline;
    w.put_all(head);
    w.put_all(&PROJECT);
    put_columns(
        query,
        table,
        news,
        spots,
        o.columns,
        o.constant,
        0,
        width(o.columns, o.constant),
        w,
    );
    w.put(10);
    put_side(query, table, spots, news, constants, found, w);
}

// A side that was found: it gets its names, as there is no join list, then 6 unless there is room for the tree
// with its constants.
fn push_found(
    words: &[WordRow; 56],
    head: &[u8],
    query: &[u8],
    table: &[Entry; 1024],
    nodes: &[Node],
    spots: &mut [Spot],
    constants: &[u8],
    found: FoundSide,
    out: &mut [u8],
) -> Answer
    requires { ((x : Projection) × (ks : List Pair) × IsFound query.now table.now spots.old false constants.now found x [] ks) × Worded words.now × Shaped words.now nodes.now (length nodes.now) (length spots.old) }
    ensures { (x : Projection) (ks : List Pair) → IsFound query.now table.now spots.old false constants.now found x [] ks → Answered (pushed_behind head.now x ks) out.old out.new result }
{
    let mut news = [[0u16; 2]; 1024];
    if !name_found(words, query, table, nodes, spots, b'v', found, &mut news) {
        return Err(Refusal::Repeated);
    }
    write_answer(out, |w| {
        put_pushed(head, query, table, spots, &news, constants, found, w)
    })
}

// push_constants_in_project_pattern, behind a head: its side is found, 3 if a position is outside, then
// named and written.
pub fn push_in_project(
    words: &[WordRow; 56],
    head: &[u8],
    query: &[u8],
    standing: Standing,
    table: &[Entry; 1024],
    nodes: &[Node],
    spots: &mut [Spot],
    constants: &[u8],
    out: &mut [u8],
) -> Answer
    requires { ((x : Projection) × Stands query.now standing.from (starts_of table.now) (sizes_of table.now) standing.n spots.old (tree x)) × KnownTerms constants.now × Worded words.now × Shaped words.now nodes.now (length nodes.now) (length spots.old) }
    ensures { (x : Projection) (ks : List Pair) → Stands query.now standing.from (starts_of table.now) (sizes_of table.now) standing.n spots.old (tree x) → Terms constants.now ks → Answered (pushed_behind head.now x ks) out.old out.new result }
{
    let found = find_side(query, standing, &constants[..0], false, constants);
    if !found.outline.inside {
        return Err(Refusal::Outside);
    }
    push_found(
        words, head, query, table, nodes, spots, constants, found, out,
    )
}
