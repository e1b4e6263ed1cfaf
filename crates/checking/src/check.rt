// Whole texts: one line with all that it asks for, or a list of such; then left-over lines.
ghost use Rattle.std.specs.Prelude.{IfOk, IfErr, ◌≡◌, ◌≤◌, pred, cond, not, ◌&&◌, ltb, eqb, length, [], ◌∷◌};
ghost use Rattle.algebra.specs.Tally.{bounds};
ghost use Rattle.algebra.specs.bridge.Machine.{want, done, bad, entries, check_text};
ghost use Rattle.names.specs.bridge.Names.{starts_of, sizes_of, HoldsIn};
ghost use Rattle.words.specs.bridge.Code.{sort_at};
ghost use Rattle.words.specs.bridge.Words.{Worded};
ghost use Rattle.checking.specs.bridge.Run.{refusal, Begins, tree_sort, level_for, Tells};
ghost use Rattle.checking.specs.bridge.Walks.{Reads, ReadTo, answer_of, Charts};

use crate::descent::check_entry;
use crate::place::{Place, start};
use algebra::{ENTRIES, Fault};
use lines::fields::{Node, Spot};
use names::Entry;
use reader::LineReader;
use words::table::WordRow;

// Only a query has a head line.
fn lacks_head(head: bool, sort: u8) -> bool
    ensures { result ≡ (head && not (eqb sort 7)) }
{
    if head {
        return sort != 7;
    }
    false
}

// The sort of a text's head line, or of its tree: a query's is a pattern.
fn part_sort(head: bool, sort: u8) -> u8
    ensures { result ≡ cond head sort (tree_sort sort) }
{
    if head {
        return sort;
    }
    if sort == 7 {
        return 2;
    }
    sort
}

// A part of a text of a sort, from a place on: its head line, which only a query has, or its tree with all that it asks for.
fn check_from(
    text: &[u8],
    next: usize,
    p: Place,
    sort: u8,
    level: u8,
    head: bool,
    words: &[WordRow; 56],
    table: &mut [Entry; 1024],
    hints: &mut [u16; 2048],
    spots: &mut [Spot],
    nodes: &mut [Node],
) -> Result<Place, Fault>
    requires { Begins text.now next p sort words.now }
    ensures { Reads head text.now words.now table.old hints.old spots.old nodes.old p sort level table.new hints.new spots.new nodes.new result }
{
    if lacks_head(head, sort) {
        return Ok(p);
    }
    let mut q = p;
    let cursor = q.cursor.moved_to(next);
    q.cursor = cursor;
    check_entry(
        q,
        level,
        part_sort(head, sort),
        text,
        words,
        table,
        hints,
        spots,
        nodes,
        !head,
    )
}

// The same by a line reader, that is lent for it.
fn check_lent<'a>(
    reader: LineReader<'a>,
    p: Place,
    sort: u8,
    level: u8,
    head: bool,
    words: &[WordRow; 56],
    table: &mut [Entry; 1024],
    hints: &mut [u16; 2048],
    spots: &mut [Spot],
    nodes: &mut [Node],
) -> Result<Place, Fault>
    requires { Begins reader.text.now reader.next p sort words.now }
    ensures { Reads head reader.entry.text.now words.now table.old hints.old spots.old nodes.old p sort level table.new hints.new spots.new nodes.new result }
{
    check_from(
        reader.text,
        reader.next,
        p,
        sort,
        level,
        head,
        words,
        table,
        hints,
        spots,
        nodes,
    )
}

// Something stands in the text from here on.
fn is_left(text: &[u8], next: usize) -> bool
    ensures { result ≡ ltb next (length text.now) }
{
    next < text.len()
}

// The same by a line reader: something is left over.
fn left_over<'a>(reader: LineReader<'a>) -> bool
    ensures { result ≡ ltb reader.entry.next (length reader.entry.text.now) }
{
    is_left(reader.text, reader.next)
}

// Where the check of a text ended, and whether something is left over.
#[derive(Clone, Copy)]
pub struct Ended {
    pub place: Place,
    pub left: bool,
}

// One line reader goes over a text of a sort: it takes a query's head line, is lent behind it to the check of the tree,
// and asked behind that what is left over.
fn read_one(
    s: &[u8],
    sort: u8,
    level: u8,
    words: &[WordRow; 56],
    table: &mut [Entry; 1024],
    hints: &mut [u16; 2048],
    spots: &mut [Spot],
    nodes: &mut [Node],
) -> Result<Ended, Fault>
    requires { (sort ≤ 11) × (length s.now ≤ 16384) × HoldsIn s.now table.old hints.old 0 [] × Worded words.now }
    ensures read { IfOk result (λ e. ReadTo s.now words.now table.old spots.old nodes.old table.new hints.new spots.new nodes.new sort level e.place e.left) }
    ensures refused { IfErr result (λ f. check_text bounds done (want (sort_at sort) level 0 ∷ []) s.now ≡ bad (refusal f)) }
{
    let reader = LineReader { text: s, next: 0 };
    let p = check_lent(
        reader,
        start(),
        sort,
        level,
        true,
        words,
        table,
        hints,
        spots,
        nodes,
    )?;
    let behind = LineReader {
        text: reader.text,
        next: p.cursor.at,
    };
    let q = check_lent(
        behind, p, sort, level, false, words, table, hints, spots, nodes,
    )?;
    let left = left_over(LineReader {
        text: reader.text,
        next: q.cursor.at,
    });
    Ok(Ended { place: q, left })
}

// A text that is one line of a sort with all that it asks for.
pub fn check_one(
    s: &[u8],
    sort: u8,
    level: u8,
    words: &[WordRow; 56],
    table: &mut [Entry; 1024],
    hints: &mut [u16; 2048],
) -> Result<usize, Fault>
    requires { (sort ≤ 11) × HoldsIn s.now table.old hints.old 0 [] × Worded words.now }
    ensures { Tells s.now (starts_of table.new) (sizes_of table.new) hints.new (check_text bounds done (want (sort_at sort) level 0 ∷ []) s.now) result }
{
    let mut no_spots: [Spot; 1] = [[0, 0, 0]];
    let mut no_nodes: [Node; 1] = [[0, 0, 0]];
    let noted = note_one(
        s,
        sort,
        level,
        words,
        table,
        hints,
        &mut no_spots,
        &mut no_nodes,
    )?;
    Ok(noted.names)
}

// How many names, spots and nodes a check noted.
#[derive(Clone, Copy)]
pub struct Counted {
    pub names: usize,
    pub spots: usize,
    pub nodes: usize,
}

// A text that is one line of a sort with all that it asks for, its spots and its nodes.
pub fn note_one(
    s: &[u8],
    sort: u8,
    level: u8,
    words: &[WordRow; 56],
    table: &mut [Entry; 1024],
    hints: &mut [u16; 2048],
    spots: &mut [Spot],
    nodes: &mut [Node],
) -> Result<Counted, Fault>
    requires { (sort ≤ 11) × HoldsIn s.now table.old hints.old 0 [] × Worded words.now }
    ensures tells { Tells s.now (starts_of table.new) (sizes_of table.new) hints.new (check_text bounds done (want (sort_at sort) level 0 ∷ []) s.now) (answer_of result) }
    ensures charts { sort ≤ 7 → Charts s.now words.now (starts_of table.new) (sizes_of table.new) spots.old spots.new nodes.new sort level result }
{
    if 16384 < s.len() {
        return Err(Fault::OverBound);
    }
    let e = read_one(s, sort, level, words, table, hints, spots, nodes)?;
    if e.left {
        return Err(Fault::Malformed);
    }
    Ok(Counted {
        names: e.place.n,
        spots: e.place.spots,
        nodes: e.place.nodes,
    })
}

// An entry too many has no level.
fn entry_level(left: usize, level: u8) -> u8
    ensures { result ≡ level_for left level }
{
    if left == 0 {
        return 0;
    }
    level
}

fn fewer(left: usize) -> usize
    ensures { result ≡ pred left }
{
    if left == 0 {
        return 0;
    }
    left - 1
}

// A text that is a list of such entries.
pub fn check_list(
    s: &[u8],
    sort: u8,
    level: u8,
    words: &[WordRow; 56],
    table: &mut [Entry; 1024],
    hints: &mut [u16; 2048],
) -> Result<usize, Fault>
    requires { (sort ≤ 11) × HoldsIn s.now table.old hints.old 0 [] × Worded words.now }
    ensures { Tells s.now (starts_of table.new) (sizes_of table.new) hints.new (check_text bounds (entries bounds.entries (sort_at sort) level) [] s.now) result }
{
    if 16384 < s.len() {
        return Err(Fault::OverBound);
    }
    let mut p = start();
    let mut left = ENTRIES;
    let mut no_spots: [Spot; 1] = [[0, 0, 0]];
    let mut no_nodes: [Node; 1] = [[0, 0, 0]];
    while p.cursor.at < s.len() {
        let d = entry_level(left, level);
        left = fewer(left);
        p = check_entry(
            p,
            d,
            sort,
            s,
            words,
            table,
            hints,
            &mut no_spots,
            &mut no_nodes,
            true,
        )?;
    }
    Ok(p.n)
}
