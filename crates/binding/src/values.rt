// The lines of the Values, each from one line of the sets.
ghost use Rattle.std.specs.Prelude.{◌≡◌, ◌+◌, ◌≤◌, ◌<◌, [], ◌∷◌, map, length};
ghost use Rattle.text.specs.Text.{part, split, ended, text_of, lines_from};
ghost use Rattle.text.proofs.Texts.{Ended};
ghost use Rattle.algebra.specs.Tally.{bounds};
ghost use Rattle.cursor.specs.bridge.Cursor.{left};
ghost use Rattle.emit.specs.bridge.Writer.{Wrote, Left};
ghost use Rattle.walking.specs.bridge.Walk.{tabbed};
ghost use Rattle.names.specs.bridge.Names.{names_in};
ghost use Rattle.filtering.specs.bridge.SetLines.{cells_from, values_line};
ghost use Rattle.binding.specs.bridge.Bound.{bound_from};

use cursor::Cursor;
use emit::Writer;
use names::Columns;
use placing::columns::column_at;
use placing::field::{field_at, position_of};
use placing::term::{form_of, put_term};
use words::{keys, word_at};

const VALUES: [u8; 6] = *b"values";

const COLS: [u8; 4] = *b"cols";

const ROW: [u8; 3] = *b"row";

// The columns at the positions from here to the line's end, each after a tab.
fn put_bound(
    tree: &[u8],
    columns: &Columns,
    n: usize,
    sets: &[u8],
    from: usize,
    end: usize,
    w: &mut Writer,
)
    requires { (n ≤ bounds.columns) × (end < length sets.now) × (from ≤ end + 1) }
    ensures { Wrote w.old w.new (tabbed (bound_from (names_in tree.now columns.now n) (left sets.now from end))) }
{
    let mut next = from;
    while next <= end {
        let field = field_at(sets, next, end);
        let e = field.to;
        w.put(9);
        w.put_all(column_at(tree, columns, n, position_of(&sets[next..e])));
        next = field.next;
    }
}

// The cells of the values from here to the line's end, each after a tab.
fn put_cells(sets: &[u8], from: usize, end: usize, w: &mut Writer)
    requires { (end < length sets.now) × (from ≤ end + 1) }
    ensures { Wrote w.old w.new (tabbed (cells_from (left sets.now from end))) }
{
    let mut next = from;
    while next <= end {
        let domain = field_at(sets, next, end);
        let a = domain.to;
        let b = domain.next;
        let lexical = field_at(sets, b, end);
        let c = lexical.to;
        let d = lexical.next;
        let extra = field_at(sets, d, end);
        let e = extra.to;
        w.put(9);
        put_term(form_of(&sets[next..a]), &sets[b..c], &sets[d..e], w);
        next = extra.next;
    }
}

// The line that the line of the sets from here to its end becomes, without its end.
fn put_fields(
    tree: &[u8],
    columns: &Columns,
    n: usize,
    sets: &[u8],
    from: usize,
    end: usize,
    w: &mut Writer,
)
    requires { (n ≤ bounds.columns) × (from ≤ end) × (end < length sets.now) }
    ensures { Left w.old w.new (ended (values_line (names_in tree.now columns.now n) (split 9 (part from end sets.now))) []) (10 ∷ []) }
{
    let word = word_at(sets, from, end);
    let to = word.end;
    let key = word.key;
    match key {
        keys::SET => {
            w.put_all(&VALUES);
            w.put_all(&sets[to..end]);
        }
        keys::AT => {
            w.put_all(&COLS);
            put_bound(tree, columns, n, sets, to + 1, end, w);
        }
        _ => {
            w.put_all(&ROW);
            put_cells(sets, to + 1, end, w);
        }
    }
}

// The lines of the Values of all sets.
pub fn put_values(tree: &[u8], columns: &Columns, n: usize, sets: &[u8], w: &mut Writer)
    requires { (n ≤ bounds.columns) × Ended (lines_from sets.now 0) }
    ensures { Wrote w.old w.new (text_of (map (values_line (names_in tree.now columns.now n)) (lines_from sets.now 0))) }
{
    let mut c = Cursor::new(0);
    while c.at < sets.len() {
        let line = c.next_line(sets);
        if line.end == sets.len() {
            return;
        }
        put_fields(tree, columns, n, sets, c.at, line.end, w);
        w.put(10);
        c = line.line_done();
    }
}
