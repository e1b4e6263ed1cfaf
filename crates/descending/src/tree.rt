// The variables of a tree renamed by a descent over its noted lines: a pattern and an expression call one another through exists, remaining depth falling.
ghost use Rattle.std.specs.Prelude.{◌≡◌, true, ◌+◌, ◌/◌, ◌%◌, ◌≤◌, ◌<◌, [], ◌∷◌, length, get_or};
ghost use Rattle.names.specs.bridge.Names.{sizes_of};
ghost use Rattle.words.specs.bridge.Code.{sort_at, groups_in};
ghost use Rattle.words.specs.bridge.Words.{Worded};
ghost use Rattle.algebra.specs.bridge.Table.{patterns, expressions};
ghost use Rattle.scoping.specs.bridge.Spots.{noted, groups_below};
ghost use Rattle.scoping.specs.bridge.Skip.{skip, skip_part, skip_times, skip_child, skip_groups};
ghost use Rattle.descending.specs.bridge.Renamed.{new_mark, Renamed, Walked, nodes_from, first_spot, Went, Descends, Heads, Shaped};

use algebra::DEPTH;
use lines::below::amount;
use lines::fields::{Node, Spot};
use lines::sorts::is_noted;
use names::{Entry, wide};
use words::table::WordRow;

// How far a descent is: the number of the next line, and of the next variable.
#[derive(Clone, Copy)]
pub struct Reached {
    pub node: usize,
    pub spot: usize,
}

// What stands below a line that was renamed: its row's groups as one number, its two numbers, and the next variable.
#[derive(Clone, Copy)]
pub struct Head {
    pub groups: u64,
    pub first: usize,
    pub second: usize,
    pub spot: usize,
}

// A number of a noted line as a place.
fn place(x: u32) -> usize
    ensures { (result ≡ x) × (result < 4294967296) }
{
    x as usize
}

// The mark of a variable, by its name's entry: 4 where the name becomes another, 3 where it stays.
fn new_mark(news: &[Entry; 1024], entry: usize) -> u16
    ensures { result ≡ new_mark (sizes_of news.now) entry }
{
    if 1024 <= entry {
        return 3;
    }
    let e = news[entry];
    if e[1] == 0 {
        return 3;
    }
    4
}

fn rename_variable(spots: &mut [Spot], i: usize, news: &[Entry; 1024])
    requires { i < length spots.old }
    ensures { Renamed (sizes_of news.now) spots.old i spots.new (i + 1) }
{
    let s = spots[i];
    let mark = new_mark(news, wide(s[1]));
    spots[i] = [s[0], s[1], mark];
}

// The variables from number j up to another.
fn rename_variables(j: usize, to: usize, spots: &mut [Spot], news: &[Entry; 1024]) -> usize
    requires { (j ≤ length spots.old) × (to ≤ length spots.old) }
    ensures { Walked (sizes_of news.now) spots.old j spots.new result × (to ≤ result) }
{
    for k in j..to {
        rename_variable(spots, k, news);
    }
    j.max(to)
}

// The number of the first variable of a line, of k.
fn first_spot(nodes: &[Node], i: usize, k: usize) -> usize
    ensures { (result ≡ first_spot nodes.now i k) × (result ≤ k) }
{
    if nodes.len() <= i {
        return k;
    }
    let n = nodes[i];
    let first = place(n[0]) % 65536;
    if k < first {
        return k;
    }
    first
}

// The groups below a line, by its word's number.
fn groups_of(words: &[WordRow], number: usize) -> u64
    ensures { result ≡ get_or (get_or words.now number []) 1 0 / 4294967296 }
{
    if words.len() <= number {
        return 0;
    }
    let w = words[number];
    w[1] / 0x1_0000_0000
}

// A line's variables, up to those of the next line; and what stands below it.
fn rename_line(
    i: usize,
    j: usize,
    words: &[WordRow; 56],
    nodes: &[Node],
    spots: &mut [Spot],
    news: &[Entry; 1024],
) -> Head
    requires { (i < length nodes.now) × (j ≤ length spots.old) × Worded words.now }
    ensures went { Went nodes.now (sizes_of news.now) spots.old i j spots.new (i + 1) result.spot }
    ensures head { Heads words.now (get_or nodes.now i []) result.groups result.first result.second }
{
    let n = nodes[i];
    let groups = groups_of(words, place(n[0]) / 65536);
    let to = first_spot(nodes, i + 1, spots.len());
    let spot = rename_variables(j, to, spots, news);
    Head {
        groups,
        first: place(n[1]),
        second: place(n[2]),
        spot,
    }
}

// rename_in_graph_pattern: the variables of the pattern that is noted next, and of all that is below it.
#[cycle(rename_below_rename_child_rename_group_rename_in_expression_rename_in_graph_pattern_rename_part)]
pub fn rename_in_graph_pattern(
    i: usize,
    j: usize,
    depth: u8,
    words: &[WordRow; 56],
    nodes: &[Node],
    spots: &mut [Spot],
    news: &[Entry; 1024],
) -> Reached
    requires { (j ≤ length spots.old) × Worded words.now }
    ensures { Descends words.now nodes.now (sizes_of news.now) (skip depth patterns (nodes_from words.now nodes.now i)) spots.old i j spots.new result.node result.spot }
{
    if depth == 0 {
        return Reached { node: i, spot: j };
    }
    if nodes.len() <= i {
        return Reached { node: i, spot: j };
    }
    let h = rename_line(i, j, words, nodes, spots, news);
    rename_below(i + 1, depth - 1, h, words, nodes, spots, news)
}

// The lines below a pattern, group by group.
#[cycle(rename_below_rename_child_rename_group_rename_in_expression_rename_in_graph_pattern_rename_part)]
fn rename_below(
    i: usize,
    depth: u8,
    h: Head,
    words: &[WordRow; 56],
    nodes: &[Node],
    spots: &mut [Spot],
    news: &[Entry; 1024],
) -> Reached
    requires { (h.spot ≤ length spots.old) × Worded words.now × (h.groups < 134217728) × (h.first < 4294967296) × (h.second < 4294967296) }
    ensures { Descends words.now nodes.now (sizes_of news.now) (skip_groups (skip depth) (groups_below (groups_in 3 h.groups) (h.first ∷ h.second ∷ [])) (nodes_from words.now nodes.now i)) spots.old i h.spot spots.new result.node result.spot }
{
    let mut r = Reached {
        node: i,
        spot: h.spot,
    };
    let mut groups = h.groups;
    while groups != 0 {
        let times = amount(groups, h.first, h.second);
        let sort = (groups / 32 % 16) as u8;
        r = rename_group(
            r.node, r.spot, depth, sort, times, words, nodes, spots, news,
        );
        groups = groups / 512;
    }
    r
}

// So many lines of a sort; triples, columns and rows have no notes of their own.
#[cycle(rename_below_rename_child_rename_group_rename_in_expression_rename_in_graph_pattern_rename_part)]
fn rename_group(
    i: usize,
    j: usize,
    depth: u8,
    sort: u8,
    times: u64,
    words: &[WordRow; 56],
    nodes: &[Node],
    spots: &mut [Spot],
    news: &[Entry; 1024],
) -> Reached
    requires { (j ≤ length spots.old) × Worded words.now }
    ensures { Descends words.now nodes.now (sizes_of news.now) (skip_times (skip_child (skip depth) (sort_at sort)) times (nodes_from words.now nodes.now i)) spots.old i j spots.new result.node result.spot }
{
    if !is_noted(sort) {
        return Reached { node: i, spot: j };
    }
    let mut r = Reached { node: i, spot: j };
    for done in 0..times {
        r = rename_child(r.node, r.spot, depth, sort, words, nodes, spots, news);
    }
    r
}

// A line of a sort that is noted.
#[cycle(rename_below_rename_child_rename_group_rename_in_expression_rename_in_graph_pattern_rename_part)]
fn rename_child(
    i: usize,
    j: usize,
    depth: u8,
    sort: u8,
    words: &[WordRow; 56],
    nodes: &[Node],
    spots: &mut [Spot],
    news: &[Entry; 1024],
) -> Reached
    requires { (j ≤ length spots.old) × Worded words.now × (noted (sort_at sort) ≡ true) }
    ensures { Descends words.now nodes.now (sizes_of news.now) (skip_child (skip depth) (sort_at sort) (nodes_from words.now nodes.now i)) spots.old i j spots.new result.node result.spot }
{
    if sort == 2 {
        return rename_in_graph_pattern(i, j, depth, words, nodes, spots, news);
    }
    if sort == 3 {
        return rename_in_expression(i, j, depth, words, nodes, spots, news);
    }
    rename_part(i, j, depth, words, nodes, spots, news)
}

// An order or an aggregate, and the expression below it, if any.
#[cycle(rename_below_rename_child_rename_group_rename_in_expression_rename_in_graph_pattern_rename_part)]
fn rename_part(
    i: usize,
    j: usize,
    depth: u8,
    words: &[WordRow; 56],
    nodes: &[Node],
    spots: &mut [Spot],
    news: &[Entry; 1024],
) -> Reached
    requires { (j ≤ length spots.old) × Worded words.now }
    ensures { Descends words.now nodes.now (sizes_of news.now) (skip_part (skip depth) (nodes_from words.now nodes.now i)) spots.old i j spots.new result.node result.spot }
{
    if nodes.len() <= i {
        return Reached { node: i, spot: j };
    }
    let h = rename_line(i, j, words, nodes, spots, news);
    if amount(h.groups, h.first, h.second) == 0 {
        return Reached {
            node: i + 1,
            spot: h.spot,
        };
    }
    rename_in_expression(i + 1, h.spot, depth, words, nodes, spots, news)
}

// rename_in_expression: the variables of the expression that is noted next, and of all that is below it: other expressions or, through exists, a pattern.
#[cycle(rename_below_rename_child_rename_group_rename_in_expression_rename_in_graph_pattern_rename_part)]
pub fn rename_in_expression(
    i: usize,
    j: usize,
    depth: u8,
    words: &[WordRow; 56],
    nodes: &[Node],
    spots: &mut [Spot],
    news: &[Entry; 1024],
) -> Reached
    requires { (j ≤ length spots.old) × Worded words.now }
    ensures { Descends words.now nodes.now (sizes_of news.now) (skip depth expressions (nodes_from words.now nodes.now i)) spots.old i j spots.new result.node result.spot }
{
    if depth == 0 {
        return Reached { node: i, spot: j };
    }
    if nodes.len() <= i {
        return Reached { node: i, spot: j };
    }
    let h = rename_line(i, j, words, nodes, spots, news);
    if h.groups / 32 % 16 == 2 {
        return rename_in_graph_pattern(i + 1, h.spot, depth - 1, words, nodes, spots, news);
    }
    let mut r = Reached {
        node: i + 1,
        spot: h.spot,
    };
    let below = amount(h.groups, h.first, h.second);
    for done in 0..below {
        r = rename_in_expression(r.node, r.spot, depth - 1, words, nodes, spots, news);
    }
    r
}

// The first k variables of a tree, by its first m noted lines: one pattern, and all that is below it.
pub fn rename_tree(
    words: &[WordRow; 56],
    nodes: &[Node],
    m: usize,
    spots: &mut [Spot],
    k: usize,
    news: &[Entry; 1024],
)
    requires { Worded words.now × (k ≤ length spots.old) × Shaped words.now nodes.now m k }
    ensures { Renamed (sizes_of news.now) spots.old 0 spots.new k }
{
    rename_in_graph_pattern(0, 0, DEPTH, words, &nodes[..m], &mut spots[..k], news);
}
