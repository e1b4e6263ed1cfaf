// Where a check stands in a text, and the line that it takes from there.
ghost use Rattle.std.specs.Prelude.{Ok, Err, IfOk, IfErr, ◌≡◌, ◌≤◌, ◌<◌, [], ◌∷◌, eqb};
ghost use Rattle.algebra.specs.bridge.Machine.{want};
ghost use Rattle.words.specs.bridge.Code.{sort_at};
ghost use Rattle.words.specs.bridge.Words.{Worded};
ghost use Rattle.lines.specs.bridge.Says.{below};
ghost use Rattle.lines.specs.bridge.Below.{groups};
ghost use Rattle.checking.specs.bridge.Run.{Ready, Started, Runs, Sound};
ghost use Rattle.lines.specs.bridge.Spotted.{mark_at};
ghost use Rattle.checking.specs.bridge.Walks.{LineWalks, NodePut, book_in};
ghost use Rattle.lines.specs.bridge.Below.{mark_under};

use algebra::Fault;
use cursor::Cursor;
use lines::fields::{Node, Spot};
use lines::line::{Asked, read_line};
use lines::sorts::is_noted;
use lines::wanted::Wanted;
use names::Entry;
use words::Row;
use words::table::WordRow;

// Where the text goes on, and how many lines, names, spots and nodes there were.
#[derive(Clone, Copy)]
pub struct Place {
    pub cursor: Cursor,
    pub lines: usize,
    pub n: usize,
    pub spots: usize,
    pub nodes: usize,
}

// Before the first line.
pub fn start() -> Place
    ensures { Started result }
{
    let cursor = Cursor::new(0);
    Place {
        cursor,
        lines: 0,
        n: 0,
        spots: 0,
        nodes: 0,
    }
}

// The mark of a line below another with that flag: expressions are silent, and the last pattern may be hidden.
pub fn mark_below(sort: u8, flag: u8, last: bool, mark: u8) -> u8
    ensures { mark_at result ≡ mark_under sort (eqb flag 1) last (mark_at mark) }
{
    if sort == 3 {
        return 2;
    }
    if sort != 2 {
        return mark;
    }
    if flag != 1 {
        return mark;
    }
    if !last {
        return mark;
    }
    if mark == 0 {
        return 1;
    }
    mark
}

// A line that was read: what it asks for, and the place behind it.
#[derive(Clone, Copy)]
pub struct Taken {
    pub row: Row,
    pub first: usize,
    pub second: usize,
    pub place: Place,
}

// Notes a line of a sort that is noted, where there is room, behind so many spots.
fn put_node(nodes: &mut [Node], m: usize, sort: u8, before: usize, a: Asked) -> usize
    requires { (sort ≤ 11) × (a.number ≤ 56) × (a.first < 4294967296) × (a.second < 4294967296) }
    ensures { NodePut nodes.old m sort before a nodes.new result }
{
    if !is_noted(sort) {
        return m;
    }
    if nodes.len() <= m {
        return m;
    }
    nodes[m] = [
        (a.number * 65536 + before % 65536) as u32,
        a.first as u32,
        a.second as u32,
    ];
    m + 1
}

// The line that starts here, by what is wanted of it.
pub fn take_line(
    p: Place,
    w: Wanted,
    s: &[u8],
    words: &[WordRow; 56],
    table: &mut [Entry; 1024],
    hints: &mut [u16; 2048],
    spots: &mut [Spot],
    nodes: &mut [Node],
) -> Result<Taken, Fault>
    requires { (w.sort ≤ 11) × Ready s.now p × Worded words.now }
    ensures runs { IfOk result (λ t. Runs s.now table.old hints.old p (want (sort_at w.sort) w.level w.width ∷ []) (groups 3 t.row.below (below w.sort w.level) t.first t.second) table.new hints.new (Ok t.place)) }
    ensures refused { IfErr result (λ f. Runs s.now table.old hints.old p (want (sort_at w.sort) w.level w.width ∷ []) [] table.new hints.new (Err f)) }
    ensures sound { IfOk result (λ t. Sound s.now p w.sort w.level t) }
    ensures walks { w.sort ≤ 7 → IfOk result (λ t. LineWalks s.now (book_in table.old spots.old words.now nodes.old p) p (book_in table.new spots.new words.now nodes.new t.place) w.sort w.mark t) }
{
    let at = p.cursor.at;
    if s.len() <= at {
        return Err(Fault::Malformed);
    }
    let c = p.cursor.next_line(s);
    if c.end == s.len() {
        return Err(Fault::Malformed);
    }
    let a = read_line(s, c, w, p.lines, words, table, hints, p.n, spots, p.spots)?;
    let m = put_node(nodes, p.nodes, w.sort, p.spots, a);
    let row = a.row;
    let cursor = c.line_done();
    Ok(Taken {
        row,
        first: a.first,
        second: a.second,
        place: Place {
            cursor,
            lines: p.lines + 1,
            n: a.names,
            spots: a.spots,
            nodes: m,
        },
    })
}
