// What is found of a side, its columns and positions; then its new names.
ghost use Rattle.std.specs.Prelude.{◌≡◌, ℕ, ◌≤◌, ◌<◌, List, [], Bool, true, false, length, get_or, take};
ghost use Rattle.text.specs.Text.{Bytes, lines_from};
ghost use Rattle.algebra.specs.Tree.{Pattern};
ghost use Rattle.algebra.specs.Query.{Pair};
ghost use Rattle.algebra.specs.Layout.{put};
ghost use Rattle.algebra.specs.Tally.{bounds};
ghost use Rattle.names.specs.bridge.Names.{starts_of, sizes_of, names_in};
ghost use Rattle.scoping.specs.Numbering.{numbered};
ghost use Rattle.scoping.specs.bridge.Pushes.{all_pushes, new_name};
ghost use Rattle.words.specs.bridge.Words.{Worded};
ghost use Rattle.walking.specs.bridge.Code.{Inside};
ghost use Rattle.descending.specs.bridge.Renamed.{Renamed, Shaped};
ghost use Rattle.naming.specs.bridge.Code.{names_at};
ghost use Rattle.merging.specs.Request.{Projection, tree};
ghost use Rattle.scoping.specs.Premises.{inside, side_name};
ghost use Rattle.columns.specs.bridge.Listed.{Listed};
ghost use Rattle.sides.specs.bridge.Side.{TreeIn, Renames, Placed, Asked, FindingIs, IsFound, IsNaming};

use crate::project::find_columns;
use algebra::{ENTRIES, PerEntry};
use columns::columns::position_mask;
use columns::list::read_positions;
use descending::tree::rename_tree;
use lines::fields::{Node, Spot};
use mask::{Mask, count_ones, empty};
use names::{Entry, wide};
use naming::new_names::standardize_variables;
use walking::places::note_places;
use words::table::WordRow;

// The entries of the columns at the first m positions: the columns are the first of a project's variables.
fn join_entries(spots: &[Spot], at: &PerEntry, m: usize, joins: &mut PerEntry)
    requires { (m ≤ bounds.entries) × (length joins.old ≡ bounds.entries) × ((i : ℕ) → i < m → get_or at.now i 0 < length spots.now) }
    ensures { (length joins.new ≡ bounds.entries) × ((i : ℕ) → i < m → get_or joins.new i 0 ≡ get_or (get_or spots.now (get_or at.now i 0) []) 1 0) }
{
    for i in 0..m {
        let s = spots[wide(at[i])];
        joins[i] = s[1];
    }
}

// standardize_variables for a tree whose variables were noted: each name of the table gets its new name.
fn name_side(
    text: &[u8],
    table: &[Entry; 1024],
    n: usize,
    spots: &[Spot],
    prefix: u8,
    joins: &PerEntry,
    m: usize,
    news: &mut [Entry; 1024],
)
    requires { (n ≤ 1024) × Inside 1024 spots.now (length spots.now) × (m ≤ bounds.entries) × ((i : ℕ) → i < m → get_or joins.now i 0 < n) × (length news.old ≡ 1024) × ((k : ℕ) → get_or (sizes_of news.old) k 0 ≡ 0) }
    ensures { (at : ℕ) (p : Pattern) → TreeIn text.now at (starts_of table.now) (sizes_of table.now) n spots.now p → Renames (names_in text.now table.now n) n (starts_of news.new) (sizes_of news.new) (new_name (all_pushes prefix (numbered p) (names_at text.now (starts_of table.now) (sizes_of table.now) joins.now m 0))) }
{
    let mut flags = [0u8; 2048];
    note_places(spots, spots.len(), &mut flags);
    standardize_variables(text, table, n, &flags, prefix, joins, m, news);
}

// Where a text's tree starts, and how many names it has.
#[derive(Clone, Copy)]
pub struct Standing {
    pub from: usize,
    pub n: usize,
}

// The positions that a side's lists name: of joins, of constants, and where the constants' lines start.
#[derive(Clone, Copy)]
pub struct Places {
    pub joins: PerEntry,
    pub at: PerEntry,
    pub starts: PerEntry,
}

// What is found of a side before its names: where its inner pattern starts, how many columns it has, which of them are joined
// and which carry constants, and how many positions each list has. Where a position is not inside the projection, the rest says nothing.
#[derive(Clone, Copy)]
pub struct Outline {
    pub inside: bool,
    pub inner: usize,
    pub columns: usize,
    pub joined: Mask,
    pub joins: usize,
    pub constant: Mask,
    pub constants: usize,
}

// A side that was found.
#[derive(Clone, Copy)]
pub struct FoundSide {
    pub standing: Standing,
    pub outline: Outline,
    pub places: Places,
}

// A position is outside.
fn outside() -> Outline
    ensures { result.inside ≡ false }
{
    Outline {
        inside: false,
        inner: 0,
        columns: 0,
        joined: empty(),
        joins: 0,
        constant: empty(),
        constants: 0,
    }
}

// A project's columns, and the positions of the join list in one of its fields and of the constants.
fn find_positions(
    text: &[u8],
    from: usize,
    pairs: &[u8],
    second: bool,
    constants: &[u8],
    joins: &mut PerEntry,
    at: &mut PerEntry,
    lines: &mut PerEntry,
) -> Outline
    requires { Asked text.now from pairs.now constants.now × (length joins.old ≡ bounds.entries) × (length at.old ≡ bounds.entries) × (length lines.old ≡ bounds.entries) }
    ensures { (length joins.new ≡ bounds.entries) × (length at.new ≡ bounds.entries) × ((x : Projection) (js ks : List Pair) → lines_from text.now from ≡ put (tree x) [] → Listed pairs.now js → Listed constants.now ks → FindingIs text.now second constants.now x js ks joins.new at.new lines.new result) }
{
    let found = find_columns(text, from);
    let columns = found.columns;
    let Some(k) = read_positions(pairs, second, columns, joins, lines) else {
        return outside();
    };
    let Some(m) = read_positions(constants, false, columns, at, lines) else {
        return outside();
    };
    Outline {
        inside: true,
        inner: found.inner,
        columns,
        joined: position_mask(joins, k, columns),
        joins: k,
        constant: position_mask(at, m, columns),
        constants: m,
    }
}

// Finding: a side's columns and positions, with what goes with it.
pub fn find_side(
    text: &[u8],
    standing: Standing,
    pairs: &[u8],
    second: bool,
    constants: &[u8],
) -> FoundSide
    requires { Asked text.now standing.from pairs.now constants.now }
    ensures { (result.standing ≡ standing) × (length result.places.joins ≡ bounds.entries) × (length result.places.at ≡ bounds.entries) × ((x : Projection) (js ks : List Pair) → lines_from text.now standing.from ≡ put (tree x) [] → Listed pairs.now js → Listed constants.now ks → FindingIs text.now second constants.now x js ks result.places.joins result.places.at result.places.starts result.outline) }
{
    let mut joins = [0u16; ENTRIES];
    let mut at = [0u16; ENTRIES];
    let mut starts = [0u16; ENTRIES];
    let outline = find_positions(
        text,
        standing.from,
        pairs,
        second,
        constants,
        &mut joins,
        &mut at,
        &mut starts,
    );
    let places = Places { joins, at, starts };
    FoundSide {
        standing,
        outline,
        places,
    }
}

// The new names of a side, by its join positions: its tree is renamed.
fn name_tree(
    text: &[u8],
    standing: Standing,
    outline: Outline,
    table: &[Entry; 1024],
    words: &[WordRow; 56],
    nodes: &[Node],
    spots: &mut [Spot],
    prefix: u8,
    at: &PerEntry,
    news: &mut [Entry; 1024],
)
    requires { (length news.old ≡ 1024) × ((i : ℕ) → get_or (sizes_of news.old) i 0 ≡ 0) × (outline.joins ≤ bounds.entries) × (length at.now ≡ bounds.entries) × ((x : Projection) × Placed text.now standing.from (starts_of table.now) (sizes_of table.now) standing.n spots.old outline.inner outline.columns x × (inside x.columns (take outline.joins at.now) ≡ true)) × Worded words.now × Shaped words.now nodes.now (length nodes.now) (length spots.old) }
    ensures renames { (x : Projection) → Placed text.now standing.from (starts_of table.now) (sizes_of table.now) standing.n spots.old outline.inner outline.columns x → inside x.columns (take outline.joins at.now) ≡ true → Renames (names_in text.now table.now standing.n) standing.n (starts_of news.new) (sizes_of news.new) (side_name prefix x.columns x.inner (take outline.joins at.now)) }
    ensures renamed { Renamed (sizes_of news.new) spots.old 0 spots.new (length spots.old) }
{
    let mut joins = [0u16; ENTRIES];
    let m = outline.joins;
    join_entries(spots, at, m, &mut joins);
    name_side(text, table, standing.n, spots, prefix, &joins, m, news);
    rename_tree(words, nodes, nodes.len(), spots, spots.len(), news);
}

// Naming: the new names of a side that was found. Where a position stands twice, the mask of the join positions has fewer ones
// than there are positions, and nothing is named.
pub fn name_found(
    words: &[WordRow; 56],
    text: &[u8],
    table: &[Entry; 1024],
    nodes: &[Node],
    spots: &mut [Spot],
    prefix: u8,
    found: FoundSide,
    news: &mut [Entry; 1024],
) -> bool
    requires { (length news.old ≡ 1024) × ((i : ℕ) → get_or (sizes_of news.old) i 0 ≡ 0) × ((second : Bool) × (constants : Bytes) × (x : Projection) × (js : List Pair) × (ks : List Pair) × IsFound text.now table.now spots.old second constants found x js ks) × Worded words.now × Shaped words.now nodes.now (length nodes.now) (length spots.old) }
    ensures { (second : Bool) (constants : Bytes) (x : Projection) (js ks : List Pair) → IsFound text.now table.now spots.old second constants found x js ks → IsNaming text.now table.now spots.new prefix second constants news.new found result x js ks }
{
    let outline = found.outline;
    let places = found.places;
    let joins = places.joins;
    if count_ones(outline.joined) < outline.joins {
        return false;
    }
    name_tree(
        text,
        found.standing,
        outline,
        table,
        words,
        nodes,
        spots,
        prefix,
        &joins,
        news,
    );
    true
}
