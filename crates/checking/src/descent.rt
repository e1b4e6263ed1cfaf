// A text by descent: a line, then the groups of lines that it asks for, each line with what it asks for itself.
ghost use Rattle.std.specs.Prelude.{IfOk, ◌≡◌, ◌≤◌, ◌<◌, [], ◌∷◌, true, false, replicate, eqb};
ghost use Rattle.algebra.specs.bridge.Machine.{want};
ghost use Rattle.scoping.specs.bridge.Places.{visible};
ghost use Rattle.scoping.specs.bridge.Walk.{times as many, child, beneath, tree};
ghost use Rattle.scoping.specs.bridge.Spots.{spot_line};
ghost use Rattle.words.specs.bridge.Code.{sort_at, groups_in, sorts_in};
ghost use Rattle.words.specs.bridge.Words.{Worded};
ghost use Rattle.lines.specs.bridge.Says.{below};
ghost use Rattle.lines.specs.bridge.Below.{groups};
ghost use Rattle.checking.specs.bridge.Run.{Ready, Ahead, Runs};
ghost use Rattle.lines.specs.bridge.Spotted.{mark_at};
ghost use Rattle.checking.specs.bridge.Walks.{Notes, HeadNotes, entry_of, mark_alone};
ghost use Rattle.lines.specs.bridge.Below.{mark_under};

use crate::place::{Place, Taken, mark_below, take_line};
use algebra::Fault;
use lines::below::{amount, below_level};
use lines::fields::{Node, Spot};
use lines::wanted::Wanted;
use names::Entry;
use words::table::WordRow;

// A line of a sort, with all that it asks for; or, where it is not wanted whole, the line alone.
#[cycle(check_below_check_line_check_lines)]
fn check_line(
    p: Place,
    w: Wanted,
    s: &[u8],
    words: &[WordRow; 56],
    table: &mut [Entry; 1024],
    hints: &mut [u16; 2048],
    spots: &mut [Spot],
    nodes: &mut [Node],
    whole: bool,
) -> Result<Place, Fault>
    requires { (w.sort ≤ 11) × Ready s.now p × Worded words.now }
    ensures runs { whole ≡ true → Runs s.now table.old hints.old p (want (sort_at w.sort) w.level w.width ∷ []) [] table.new hints.new result }
    ensures ready { IfOk result (λ r. Ahead s.now p w.sort w.level r) }
    ensures walks { whole ≡ true → w.sort ≤ 7 → Notes s.now words.now table.old spots.old nodes.old p table.new spots.new nodes.new result (entry_of w.level w.sort (mark_at w.mark)) }
    ensures head { whole ≡ false → w.sort ≡ 7 → Runs s.now table.old hints.old p (want (sort_at w.sort) w.level w.width ∷ []) (want (sort_at 2) (below w.sort w.level) 0 ∷ []) table.new hints.new result }
    ensures shown { whole ≡ false → w.sort ≡ 7 → mark_at w.mark ≡ visible → HeadNotes s.now words.now table.old spots.old nodes.old p table.new spots.new nodes.new result }
{
    let t = take_line(p, w, s, words, table, hints, spots, nodes)?;
    if !whole {
        return Ok(t.place);
    }
    if t.row.below == 0 {
        return Ok(t.place);
    }
    let d = below_level(w.sort, w.level);
    check_below(t, d, w.mark, s, words, table, hints, spots, nodes)
}

// The groups of lines that a taken line asks for: the cursor awaits each in turn.
#[cycle(check_below_check_line_check_lines)]
fn check_below(
    t: Taken,
    level: u8,
    mark: u8,
    s: &[u8],
    words: &[WordRow; 56],
    table: &mut [Entry; 1024],
    hints: &mut [u16; 2048],
    spots: &mut [Spot],
    nodes: &mut [Node],
) -> Result<Place, Fault>
    requires { (sorts_in 11 3 t.row.below ≡ true) × (t.first < 4294967296) × (t.second < 4294967296) × Ready s.now t.place × Worded words.now }
    ensures runs { Runs s.now table.old hints.old t.place (groups 3 t.row.below level t.first t.second) [] table.new hints.new result }
    ensures ready { IfOk result (λ r. (t.place.cursor.at ≤ r.cursor.at) × Ready s.now r) }
    ensures walks { sorts_in 6 3 t.row.below ≡ true → Notes s.now words.now table.old spots.old nodes.old t.place table.new spots.new nodes.new result (beneath spot_line (tree spot_line level) (eqb t.row.flag 1) (mark_at mark) (groups_in 3 t.row.below) (t.first ∷ t.second ∷ [])) }
{
    let mut q = t.place;
    let mut code = t.row.below;
    while code != 0 {
        let times = amount(code, t.first, t.second);
        let cursor = q.cursor.awaiting(times);
        q.cursor = cursor;
        q = check_lines(
            q,
            Wanted {
                sort: (code / 32 % 16) as u8,
                level,
                width: t.first,
                mark,
            },
            t.row.flag,
            s,
            words,
            table,
            hints,
            spots,
            nodes,
            true,
        )?;
        code = code / 512;
    }
    Ok(q)
}

// The lines that the cursor awaits, each with all that it asks for; or, where they are not wanted whole, the lines alone.
#[cycle(check_below_check_line_check_lines)]
fn check_lines(
    p: Place,
    w: Wanted,
    flag: u8,
    s: &[u8],
    words: &[WordRow; 56],
    table: &mut [Entry; 1024],
    hints: &mut [u16; 2048],
    spots: &mut [Spot],
    nodes: &mut [Node],
    whole: bool,
) -> Result<Place, Fault>
    requires { (w.sort ≤ 11) × Ready s.now p × Worded words.now }
    ensures runs { whole ≡ true → Runs s.now table.old hints.old p (replicate p.cursor.awaited (want (sort_at w.sort) w.level w.width)) [] table.new hints.new result }
    ensures ready { IfOk result (λ r. (p.cursor.at ≤ r.cursor.at) × Ready s.now r × (0 < p.cursor.awaited → Ahead s.now p w.sort w.level r)) }
    ensures walks { whole ≡ true → w.sort ≤ 6 → Notes s.now words.now table.old spots.old nodes.old p table.new spots.new nodes.new result (many (child spot_line (tree spot_line w.level) (eqb flag 1) (mark_at w.mark) (sort_at w.sort)) p.cursor.awaited) }
    ensures one { p.cursor.awaited ≡ 1 → whole ≡ true → w.sort ≤ 7 → Notes s.now words.now table.old spots.old nodes.old p table.new spots.new nodes.new result (entry_of w.level w.sort (mark_under w.sort (eqb flag 1) true (mark_at w.mark))) }
    ensures head { p.cursor.awaited ≡ 1 → whole ≡ false → w.sort ≡ 7 → Runs s.now table.old hints.old p (want (sort_at w.sort) w.level w.width ∷ []) (want (sort_at 2) (below w.sort w.level) 0 ∷ []) table.new hints.new result }
    ensures shown { p.cursor.awaited ≡ 1 → whole ≡ false → w.sort ≡ 7 → mark_at w.mark ≡ visible → HeadNotes s.now words.now table.old spots.old nodes.old p table.new spots.new nodes.new result }
{
    let mut q = p;
    while 0 < q.cursor.awaited {
        let c = q.cursor;
        let mark = mark_below(w.sort, flag, c.awaited == 1, w.mark);
        q = check_line(
            q,
            Wanted {
                sort: w.sort,
                level: w.level,
                width: w.width,
                mark,
            },
            s,
            words,
            table,
            hints,
            spots,
            nodes,
            whole,
        )?;
        let cursor = c.child_done(q.cursor);
        q.cursor = cursor;
    }
    Ok(q)
}

// A line of a sort, with all that it asks for; or, where it is not wanted whole, the line alone.
pub fn check_entry(
    p: Place,
    level: u8,
    sort: u8,
    s: &[u8],
    words: &[WordRow; 56],
    table: &mut [Entry; 1024],
    hints: &mut [u16; 2048],
    spots: &mut [Spot],
    nodes: &mut [Node],
    whole: bool,
) -> Result<Place, Fault>
    requires { (sort ≤ 11) × Ready s.now p × Worded words.now }
    ensures runs { whole ≡ true → Runs s.now table.old hints.old p (want (sort_at sort) level 0 ∷ []) [] table.new hints.new result }
    ensures ready { IfOk result (λ r. Ahead s.now p sort level r) }
    ensures walks { whole ≡ true → sort ≤ 7 → Notes s.now words.now table.old spots.old nodes.old p table.new spots.new nodes.new result (entry_of level sort (mark_alone sort)) }
    ensures head { whole ≡ false → sort ≡ 7 → Runs s.now table.old hints.old p (want (sort_at sort) level 0 ∷ []) (want (sort_at 2) (below sort level) 0 ∷ []) table.new hints.new result }
    ensures shown { whole ≡ false → sort ≡ 7 → HeadNotes s.now words.now table.old spots.old nodes.old p table.new spots.new nodes.new result }
{
    let mut q = p;
    let cursor = q.cursor.awaiting(1);
    q.cursor = cursor;
    check_lines(
        q,
        Wanted {
            sort,
            level,
            width: 0,
            mark: 0,
        },
        0,
        s,
        words,
        table,
        hints,
        spots,
        nodes,
        whole,
    )
}
