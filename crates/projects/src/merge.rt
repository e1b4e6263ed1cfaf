// merge_project_patterns for two projects, and without, which has a minus in the join's place. Tables of both texts are
// arrays of two, the left text's first; spots and nodes of both stand in one array each, the right text's behind the
// left text's.
ghost use Rattle.std.specs.Prelude.{◌≡◌, ◌≤◌, List, [], ◌∷◌, ◌++◌, true, false, length, get_or, take};
ghost use Rattle.text.specs.Text.{Line, text_of};
ghost use Rattle.text.specs.Word.{bytes};
ghost use Rattle.emit.specs.bridge.Writer.{Left};
ghost use Rattle.algebra.specs.Query.{Pair};
ghost use Rattle.algebra.specs.Layout.{layout};
ghost use Rattle.algebra.specs.Tally.{bounds};
ghost use Rattle.answers.specs.Outcome.{Answered};
ghost use Rattle.merging.specs.Request.{Projection, tree};
ghost use Rattle.walking.specs.bridge.Code.{Inside};
ghost use Rattle.mask.specs.bridge.Words.{mask_value};
ghost use Rattle.columns.specs.bridge.Columns.{picked};
ghost use Rattle.sides.specs.bridge.Side.{IsFound};
ghost use Rattle.projects.specs.bridge.Joining.{StandsAt, combined_tree, Lists, joined_behind, ListsRead, rest, BothShaped};
ghost use Rattle.projects.specs.bridge.Pair.{left_columns, right_columns, LeftNamed, RightNamed, MergeWritten, gone_mask, HeaderFits, head_columns, head_word};
ghost use Rattle.words.specs.bridge.Words.{Worded};

use answers::{Answer, Refusal, write_answer};
use columns::columns::{joined_mask, put_columns, width};
use emit::Writer;
use lines::fields::{Node, Spot};
use mask::Mask;
use names::Entry;
use sides::side::{FoundSide, Standing, find_side, name_found};
use sides::writing::put_side;
use words::table::WordRow;

const PROJECT: [u8; 7] = *b"project";

const JOIN: [u8; 6] = *b"\njoin\n";

const MINUS: [u8; 7] = *b"\nminus\n";

// Both texts of a merge, how many spots and nodes are the left one's, and whether a minus stands in the join's place.
#[derive(Clone, Copy)]
pub struct Texts {
    pub left: Standing,
    pub right: Standing,
    pub spots: usize,
    pub nodes: usize,
    pub minus: bool,
}

// The same of two sides that were found.
#[derive(Clone, Copy)]
struct FoundPair {
    left: FoundSide,
    right: FoundSide,
    spots: usize,
    nodes: usize,
    minus: bool,
}

// The right columns that go: those with a constant, and those whose new names are joined columns' on the left.
fn gone_of(
    left: &[u8],
    right: &[u8],
    pair: FoundPair,
    tables: &[[Entry; 1024]; 2],
    spots: &[Spot],
    news: &[[Entry; 1024]; 2],
) -> Mask
    requires { Inside 1024 (take pair.spots spots.now) pair.left.outline.columns × Inside 1024 (rest pair.spots spots.now) pair.right.outline.columns × (pair.right.outline.columns ≤ bounds.columns) × (pair.spots ≤ length spots.now) }
    ensures { mask_value result ≡ gone_mask pair.left.outline (left_columns left.now pair tables.now spots.now news.now) pair.right.outline (right_columns right.now pair tables.now spots.now news.now) }
{
    let k = pair.spots;
    let l = pair.left.outline;
    let r = pair.right.outline;
    joined_mask(
        right,
        &tables[1],
        &news[1],
        &spots[k..],
        r.columns,
        r.constant,
        left,
        &tables[0],
        &news[0],
        &spots[..k],
        l.columns,
        l.joined,
    )
}

// The head, the merged columns, and the join's line; for a minus the left columns, and its line.
fn put_head(
    head: &[u8],
    left: &[u8],
    right: &[u8],
    pair: FoundPair,
    gone: Mask,
    tables: &[[Entry; 1024]; 2],
    spots: &[Spot],
    news: &[[Entry; 1024]; 2],
    w: &mut Writer,
)
    requires { Inside 1024 (take pair.spots spots.now) pair.left.outline.columns × Inside 1024 (rest pair.spots spots.now) pair.right.outline.columns × (pair.spots ≤ length spots.now) × HeaderFits pair.left.outline (left_columns left.now pair tables.now spots.now news.now) (mask_value gone) pair.right.outline (right_columns right.now pair tables.now spots.now news.now) }
    ensures { (t : List Line) → Left w.old w.new (head.now ++ text_of ((bytes "project" ∷ head_columns pair.minus (picked 0 (mask_value pair.left.outline.constant) (left_columns left.now pair tables.now spots.now news.now)) (picked 0 (mask_value gone) (right_columns right.now pair tables.now spots.now news.now))) ∷ (head_word pair.minus ∷ []) ∷ t)) (text_of t) }
{
    let k = pair.spots;
    let l = pair.left.outline;
    let columns = pair.right.outline.columns;
    w.put_all(head);
    w.put_all(&PROJECT);
    put_columns(
        left,
        &tables[0],
        &news[0],
        &spots[..k],
        l.columns,
        l.constant,
        0,
        width(l.columns, l.constant),
        w,
    );
    if pair.minus {
        w.put_all(&MINUS);
        return;
    }
    put_columns(
        right,
        &tables[1],
        &news[1],
        &spots[k..],
        columns,
        gone,
        0,
        width(columns, gone),
        w,
    );
    w.put_all(&JOIN);
}

// The merged tree behind a head.
fn put_merged(
    head: &[u8],
    left: &[u8],
    right: &[u8],
    pair: FoundPair,
    gone: Mask,
    tables: &[[Entry; 1024]; 2],
    spots: &[Spot],
    news: &[[Entry; 1024]; 2],
    left_constants: &[u8],
    right_constants: &[u8],
    w: &mut Writer,
)
    requires { ((x : Projection) × (y : Projection) × (js : List Pair) × (ks : List Pair) × (ls : List Pair) × LeftNamed left.now left_constants.now pair tables.now spots.now news.now x js ks × RightNamed right.now right_constants.now pair tables.now spots.now news.now y js ls) × (mask_value gone ≡ gone_mask pair.left.outline (left_columns left.now pair tables.now spots.now news.now) pair.right.outline (right_columns right.now pair tables.now spots.now news.now)) × (pair.spots ≤ length spots.now) }
    ensures { MergeWritten head.now left.now right.now left_constants.now right_constants.now pair tables.now spots.now news.now w.old w.new }
{
    let k = pair.spots;
    put_head(head, left, right, pair, gone, tables, spots, news, w);
    put_side(
        left,
        &tables[0],
        &spots[..k],
        &news[0],
        left_constants,
        pair.left,
        w,
    );
    put_side(
        right,
        &tables[1],
        &spots[k..],
        &news[1],
        right_constants,
        pair.right,
        w,
    );
}

// Two sides that are ready, merged: 6 unless there is room for the merged tree.
fn merge_ready(
    head: &[u8],
    left: &[u8],
    right: &[u8],
    pair: FoundPair,
    tables: &[[Entry; 1024]; 2],
    spots: &[Spot],
    news: &[[Entry; 1024]; 2],
    left_constants: &[u8],
    right_constants: &[u8],
    out: &mut [u8],
) -> Answer
    requires { ((x : Projection) × (y : Projection) × (js : List Pair) × (ks : List Pair) × (ls : List Pair) × LeftNamed left.now left_constants.now pair tables.now spots.now news.now x js ks × RightNamed right.now right_constants.now pair tables.now spots.now news.now y js ls) × (pair.spots ≤ length spots.now) }
    ensures { (x y : Projection) (js ks ls : List Pair) → LeftNamed left.now left_constants.now pair tables.now spots.now news.now x js ks → RightNamed right.now right_constants.now pair tables.now spots.now news.now y js ls → Answered (joined_behind pair.minus head.now x y js ks ls) out.old out.new result }
{
    let gone = gone_of(left, right, pair, tables, spots, news);
    write_answer(out, |w| {
        put_merged(
            head,
            left,
            right,
            pair,
            gone,
            tables,
            spots,
            news,
            left_constants,
            right_constants,
            w,
        )
    })
}

// Two sides that were found: each gets its names, 10 if a position stands twice on its side, then both are merged.
fn merge_found(
    words: &[WordRow; 56],
    head: &[u8],
    left: &[u8],
    right: &[u8],
    pair: FoundPair,
    tables: &[[Entry; 1024]; 2],
    nodes: &[Node],
    spots: &mut [Spot],
    left_constants: &[u8],
    right_constants: &[u8],
    out: &mut [u8],
) -> Answer
    requires { ((x : Projection) × (y : Projection) × (js : List Pair) × (ks : List Pair) × (ls : List Pair) × IsFound left.now (get_or tables.now 0 []) (take pair.spots spots.old) false left_constants.now pair.left x js ks × IsFound right.now (get_or tables.now 1 []) (rest pair.spots spots.old) true right_constants.now pair.right y js ls) × Worded words.now × BothShaped words.now nodes.now pair.nodes spots.old pair.spots }
    ensures { (x y : Projection) (js ks ls : List Pair) → IsFound left.now (get_or tables.now 0 []) (take pair.spots spots.old) false left_constants.now pair.left x js ks → IsFound right.now (get_or tables.now 1 []) (rest pair.spots spots.old) true right_constants.now pair.right y js ls → Answered (joined_behind pair.minus head.now x y js ks ls) out.old out.new result }
{
    let mut news = [[[0u16; 2]; 1024]; 2];
    let k = pair.spots;
    let m = pair.nodes;
    if !name_found(
        words,
        left,
        &tables[0],
        &nodes[..m],
        &mut spots[..k],
        b'l',
        pair.left,
        &mut news[0],
    ) {
        return Err(Refusal::Repeated);
    }
    if !name_found(
        words,
        right,
        &tables[1],
        &nodes[m..],
        &mut spots[k..],
        b'r',
        pair.right,
        &mut news[1],
    ) {
        return Err(Refusal::Repeated);
    }
    merge_ready(
        head,
        left,
        right,
        pair,
        tables,
        spots,
        &news,
        left_constants,
        right_constants,
        out,
    )
}

// merge_project_patterns for two projects, or without's, behind a head: both sides are found, 3 if a position is outside, then
// named, 10 if one stands twice on its side, and merged.
pub fn merge_projects(
    words: &[WordRow; 56],
    head: &[u8],
    left: &[u8],
    right: &[u8],
    texts: Texts,
    tables: &[[Entry; 1024]; 2],
    nodes: &[Node],
    spots: &mut [Spot],
    pairs: &[u8],
    left_constants: &[u8],
    right_constants: &[u8],
    out: &mut [u8],
) -> Answer
    requires { ((x : Projection) × StandsAt 0 left.now texts.left tables.now (take texts.spots spots.old) (tree x)) × ((y : Projection) × StandsAt 1 right.now texts.right tables.now (rest texts.spots spots.old) (tree y)) × ListsRead pairs.now left_constants.now right_constants.now × Worded words.now × BothShaped words.now nodes.now texts.nodes spots.old texts.spots }
    ensures { (x y : Projection) (js ks ls : List Pair) → StandsAt 0 left.now texts.left tables.now (take texts.spots spots.old) (tree x) → StandsAt 1 right.now texts.right tables.now (rest texts.spots spots.old) (tree y) → Lists pairs.now left_constants.now right_constants.now js ks ls → Answered (joined_behind texts.minus head.now x y js ks ls) out.old out.new result }
{
    let l = find_side(left, texts.left, pairs, false, left_constants);
    if !l.outline.inside {
        return Err(Refusal::Outside);
    }
    let r = find_side(right, texts.right, pairs, true, right_constants);
    if !r.outline.inside {
        return Err(Refusal::Outside);
    }
    merge_found(
        words,
        head,
        left,
        right,
        FoundPair {
            left: l,
            right: r,
            spots: texts.spots,
            nodes: texts.nodes,
            minus: texts.minus,
        },
        tables,
        nodes,
        spots,
        left_constants,
        right_constants,
        out,
    )
}
