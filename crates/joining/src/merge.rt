// A merge of trees or of queries, or without: the texts checked, then two trees made into one.
ghost use Rattle.std.specs.Prelude.{◌≡◌, List, not, ◌≤◌, length, take};
ghost use Rattle.answers.specs.Outcome.{Answered};
ghost use Rattle.algebra.specs.Tree.{Pattern};
ghost use Rattle.algebra.specs.Query.{Query};
ghost use Rattle.algebra.specs.Reader.{reads};
ghost use Rattle.merging.specs.Sides.{Pair};
ghost use Rattle.merging.specs.Request.{read_joins};
ghost use Rattle.merging.specs.bridge.Combined.{may_combine};
ghost use Rattle.projects.specs.bridge.Joining.{StandsAt, rest, BothShaped, ListsRead, TermsChecked, ListsChecked};
ghost use Rattle.words.specs.bridge.Words.{Worded};
ghost use Rattle.descending.specs.bridge.Renamed.{Shaped};
ghost use Rattle.joining.specs.bridge.Form.{HeadIs, listed_behind, merge_with, merge_outcome, RoomFor, HalvesFor, RoomInHalf};

use crate::forms::{may_merge, new_tables, note_form, place_of, start_of, text_of};
use algebra::{EMPTY_TREE, Fault};
use answers::{Answer, Refusal};
use lines::fields::{Node, Spot};
use lists::{check_constants, check_joins};
use names::Entry;
use projects::merge::{Texts, merge_projects};
use sides::project::is_project;
use sides::side::Standing;
use text::piece;
use words::table::{WordRow, all_words};

// Which it is: of trees or of queries, by a join or by a minus.
#[derive(Clone, Copy)]
pub struct Form {
    pub query: bool,
    pub minus: bool,
}

// The check of two constant lists, in the specification's order.
fn check_terms(left_constants: &[u8], right_constants: &[u8]) -> Result<usize, Fault>
    ensures { TermsChecked left_constants.now right_constants.now result }
{
    check_constants(left_constants)?;
    check_constants(right_constants)
}

// The check of the three lists, in the specification's order.
pub fn check_lists(
    pairs: &[u8],
    left_constants: &[u8],
    right_constants: &[u8],
) -> Result<usize, Fault>
    ensures { ListsChecked pairs.now left_constants.now right_constants.now result }
{
    check_joins(pairs)?;
    check_terms(left_constants, right_constants)
}

// Two trees that were checked, and whether the heads that they stand behind let them be merged.
#[derive(Clone, Copy)]
struct Both {
    texts: Texts,
    mergeable: bool,
}

// A minus whose join list is empty.
fn lacks_pairs(minus: bool, pairs: &[u8]) -> bool
    ensures { (js : List Pair) → read_joins pairs.now ≡ reads js → not result ≡ may_combine minus js }
{
    if !minus {
        return false;
    }
    pairs.len() == 0
}

// A merge for two trees and lists that were checked: 5 unless their heads are one, 4 unless they are projects, 11 if a
// minus has no pair.
fn merge_checked(
    words: &[WordRow; 56],
    head: &[u8],
    left: &[u8],
    right: &[u8],
    both: Both,
    tables: &[[Entry; 1024]; 2],
    nodes: &[Node],
    spots: &mut [Spot],
    pairs: &[u8],
    left_constants: &[u8],
    right_constants: &[u8],
    out: &mut [u8],
) -> Answer
    requires { ((p : Pattern) × StandsAt 0 left.now both.texts.left tables.now (take both.texts.spots spots.old) p) × ((q : Pattern) × StandsAt 1 right.now both.texts.right tables.now (rest both.texts.spots spots.old) q) × ListsRead pairs.now left_constants.now right_constants.now × Worded words.now × BothShaped words.now nodes.now both.texts.nodes spots.old both.texts.spots }
    ensures { (p q : Pattern) → StandsAt 0 left.now both.texts.left tables.now (take both.texts.spots spots.old) p → StandsAt 1 right.now both.texts.right tables.now (rest both.texts.spots spots.old) q → Answered (listed_behind both.texts.minus both.mergeable head.now p q pairs.now left_constants.now right_constants.now) out.old out.new result }
{
    if !both.mergeable {
        return Err(Refusal::NotMergeable);
    }
    let texts = both.texts;
    if !is_project(left, texts.left.from) {
        return Err(Refusal::NotProject);
    }
    if !is_project(right, texts.right.from) {
        return Err(Refusal::NotProject);
    }
    if lacks_pairs(texts.minus, pairs) {
        return Err(Refusal::NoPairs);
    }
    merge_projects(
        words,
        head,
        left,
        right,
        texts,
        tables,
        nodes,
        spots,
        pairs,
        left_constants,
        right_constants,
        out,
    )
}

// The same for two trees that were checked and any lists.
fn merge_listed(
    words: &[WordRow; 56],
    head: &[u8],
    left: &[u8],
    right: &[u8],
    both: Both,
    tables: &[[Entry; 1024]; 2],
    nodes: &[Node],
    spots: &mut [Spot],
    pairs: &[u8],
    left_constants: &[u8],
    right_constants: &[u8],
    out: &mut [u8],
) -> Answer
    requires { ((p : Pattern) × StandsAt 0 left.now both.texts.left tables.now (take both.texts.spots spots.old) p) × ((q : Pattern) × StandsAt 1 right.now both.texts.right tables.now (rest both.texts.spots spots.old) q) × Worded words.now × BothShaped words.now nodes.now both.texts.nodes spots.old both.texts.spots }
    ensures { (p q : Pattern) → StandsAt 0 left.now both.texts.left tables.now (take both.texts.spots spots.old) p → StandsAt 1 right.now both.texts.right tables.now (rest both.texts.spots spots.old) q → Answered (listed_behind both.texts.minus both.mergeable head.now p q pairs.now left_constants.now right_constants.now) out.old out.new result }
{
    check_lists(pairs, left_constants, right_constants)?;
    merge_checked(
        words,
        head,
        left,
        right,
        both,
        tables,
        nodes,
        spots,
        pairs,
        left_constants,
        right_constants,
        out,
    )
}

// A left tree that was checked, how many spots and nodes it has, the form of both texts, and whether a minus stands in
// the join's place.
#[derive(Clone, Copy)]
struct Noted {
    query: bool,
    minus: bool,
    standing: Standing,
    spots: usize,
    nodes: usize,
}

// The same for a left tree that was checked, behind its head, and any right text.
fn merge_right(
    words: &[WordRow; 56],
    head: &[u8],
    left: &[u8],
    right: &[u8],
    noted: Noted,
    tables: &mut [[Entry; 1024]; 2],
    nodes: &mut [Node],
    spots: &mut [Spot],
    pairs: &[u8],
    left_constants: &[u8],
    right_constants: &[u8],
    out: &mut [u8],
) -> Answer
    requires { ((a : Query) × StandsAt 0 left.now noted.standing tables.old (take noted.spots spots.old) a.tree × HeadIs noted.query head.now a) × RoomFor right.now (rest noted.spots spots.old) (rest noted.nodes nodes.old) × Worded words.now × Shaped words.now (take noted.nodes nodes.old) (length (take noted.nodes nodes.old)) (length (take noted.spots spots.old)) × (length tables.old ≡ 2) × (noted.spots ≤ length spots.old) × (noted.nodes ≤ length nodes.old) }
    ensures { (a : Query) → StandsAt 0 left.now noted.standing tables.old (take noted.spots spots.old) a.tree → HeadIs noted.query head.now a → Answered (merge_with noted.minus noted.query a right.now pairs.now left_constants.now right_constants.now) out.old out.new result }
{
    let standing = noted.standing;
    let empty = EMPTY_TREE;
    let start = start_of(noted.query, right);
    let stands = text_of(right, start, &empty);
    let k = noted.spots;
    let m = noted.nodes;
    let mut hints = [0u16; 2048];
    let right_noted = note_form(
        noted.query,
        words,
        right,
        start,
        stands,
        &mut tables[1],
        &mut hints,
        &mut spots[k..],
        &mut nodes[m..],
    )?;
    let mergeable = may_merge(noted.query, head, piece(right, 0, start));
    let from = place_of(right, start);
    let i = k + right_noted.spots;
    let j = m + right_noted.nodes;
    merge_listed(
        words,
        head,
        left,
        stands,
        Both {
            texts: Texts {
                left: standing,
                right: Standing {
                    from,
                    n: right_noted.names,
                },
                spots: k,
                nodes: m,
                minus: noted.minus,
            },
            mergeable,
        },
        tables,
        &nodes[..j],
        &mut spots[..i],
        pairs,
        left_constants,
        right_constants,
        out,
    )
}

// The same for any two texts, with room for their variables: half of it is the left text's, and the right text has what that leaves. The
// table of words is laid out.
fn merge_left(
    form: Form,
    left: &[u8],
    right: &[u8],
    nodes: &mut [Node],
    spots: &mut [Spot],
    pairs: &[u8],
    left_constants: &[u8],
    right_constants: &[u8],
    out: &mut [u8],
) -> Answer
    requires { HalvesFor left.now spots.old nodes.old × HalvesFor right.now spots.old nodes.old }
    ensures { Answered (merge_outcome form.minus form.query left.now right.now pairs.now left_constants.now right_constants.now) out.old out.new result }
{
    let words = all_words();
    let empty = EMPTY_TREE;
    let start = start_of(form.query, left);
    let stands = text_of(left, start, &empty);
    let i = spots.len() / 2;
    let j = nodes.len() / 2;
    let mut tables = new_tables();
    let mut hints = [0u16; 2048];
    let noted = note_form(
        form.query,
        &words,
        left,
        start,
        stands,
        &mut tables[0],
        &mut hints,
        &mut spots[..i],
        &mut nodes[..j],
    )?;
    let from = place_of(left, start);
    merge_right(
        &words,
        piece(left, 0, start),
        stands,
        right,
        Noted {
            query: form.query,
            minus: form.minus,
            standing: Standing {
                from,
                n: noted.names,
            },
            spots: noted.spots,
            nodes: noted.nodes,
        },
        &mut tables,
        nodes,
        spots,
        pairs,
        left_constants,
        right_constants,
        out,
    )
}

// The same with so many nodes and spots, which are cleared first: half of them are a text's. Each size has a frame of its own.
#[inline(never)]
fn merge_in<const NODES: usize, const SPOTS: usize>(
    form: Form,
    left: &[u8],
    right: &[u8],
    pairs: &[u8],
    left_constants: &[u8],
    right_constants: &[u8],
    out: &mut [u8],
) -> Answer
    requires { (NODES ≤ 4096) × (SPOTS ≤ 10924) × (28 ≤ SPOTS) × (28 ≤ NODES) × RoomInHalf left.now NODES SPOTS × RoomInHalf right.now NODES SPOTS }
    ensures { Answered (merge_outcome form.minus form.query left.now right.now pairs.now left_constants.now right_constants.now) out.old out.new result }
{
    let mut nodes = [[0u32; 3]; NODES];
    let mut spots = [[0u16; 3]; SPOTS];
    merge_left(
        form,
        left,
        right,
        &mut nodes,
        &mut spots,
        pairs,
        left_constants,
        right_constants,
        out,
    )
}

// The same with as many nodes and spots as pays for the longer text.
pub fn merge_texts(
    form: Form,
    left: &[u8],
    right: &[u8],
    pairs: &[u8],
    left_constants: &[u8],
    right_constants: &[u8],
    out: &mut [u8],
) -> Answer
    ensures { Answered (merge_outcome form.minus form.query left.now right.now pairs.now left_constants.now right_constants.now) out.old out.new result }
{
    match left.len().max(right.len()) {
        0..=1536 => merge_in::<1024, 1024>(
            form,
            left,
            right,
            pairs,
            left_constants,
            right_constants,
            out,
        ),
        1537..=6144 => merge_in::<4096, 4096>(
            form,
            left,
            right,
            pairs,
            left_constants,
            right_constants,
            out,
        ),
        _ => merge_in::<4096, 10924>(
            form,
            left,
            right,
            pairs,
            left_constants,
            right_constants,
            out,
        ),
    }
}
