// What the lines of checked binding sets ask for: positions that are all inside, values that all become cells, and how many sets.
ghost use Rattle.std.specs.Prelude.{◌≡◌, ◌+◌, ◌≤◌, ◌<◌, length};
ghost use Rattle.text.specs.Text.{part, split, lines_from};
ghost use Rattle.cursor.specs.bridge.Cursor.{left};
ghost use Rattle.filtering.specs.bridge.SetLines.{all_usable};
ghost use Rattle.binding.specs.bridge.Judged.{all_below, JudgedLine, JudgedAll};

use cursor::Cursor;
use placing::field::{field_at, position_of};
use placing::steps::both;
use placing::term::form_of;
use words::{keys, word_at};

// Each position from here to the line's end is below the width.
fn are_inside(sets: &[u8], from: usize, end: usize, width: usize) -> bool
    requires { (end < length sets.now) × (from ≤ end + 1) }
    ensures { result ≡ all_below width (left sets.now from end) }
{
    let mut next = from;
    while next <= end {
        let field = field_at(sets, next, end);
        let to = field.to;
        if width <= position_of(&sets[next..to]) {
            return false;
        }
        next = field.next;
    }
    true
}

// Each value from here to the line's end becomes a cell.
fn are_usable(sets: &[u8], from: usize, end: usize) -> bool
    requires { (end < length sets.now) × (from ≤ end + 1) }
    ensures { result ≡ all_usable (left sets.now from end) }
{
    let mut next = from;
    while next <= end {
        let domain = field_at(sets, next, end);
        let to = domain.to;
        if form_of(&sets[next..to]) == 4 {
            return false;
        }
        let lexical = field_at(sets, domain.next, end);
        let extra = field_at(sets, lexical.next, end);
        next = extra.next;
    }
    true
}

// All positions are inside, all values become cells, and there are so many sets.
#[derive(Clone, Copy)]
pub struct Judged {
    pub inside: bool,
    pub usable: bool,
    pub sets: usize,
}

// What was found so far, and what the line from here to its end adds to it.
fn judge_line(sets: &[u8], from: usize, end: usize, width: usize, so_far: Judged) -> Judged
    requires { (from ≤ end) × (end < length sets.now) × (so_far.sets ≤ from) }
    ensures { JudgedLine width (split 9 (part from end sets.now)) so_far result }
{
    let w = word_at(sets, from, end);
    let key = w.key;
    match key {
        keys::SET => Judged {
            inside: so_far.inside,
            usable: so_far.usable,
            sets: so_far.sets + 1,
        },
        keys::AT => Judged {
            inside: both(so_far.inside, are_inside(sets, w.end + 1, end, width)),
            usable: so_far.usable,
            sets: so_far.sets,
        },
        keys::ROW => Judged {
            inside: so_far.inside,
            usable: both(so_far.usable, are_usable(sets, w.end + 1, end)),
            sets: so_far.sets,
        },
        _ => so_far,
    }
}

pub fn judge(sets: &[u8], width: usize) -> Judged
    ensures { JudgedAll width (lines_from sets.now 0) result }
{
    let mut judged = Judged {
        inside: true,
        usable: true,
        sets: 0,
    };
    let mut c = Cursor::new(0);
    while c.at < sets.len() {
        let line = c.next_line(sets);
        if line.end == sets.len() {
            return judged;
        }
        judged = judge_line(sets, c.at, line.end, width, judged);
        c = line.line_done();
    }
    judged
}
