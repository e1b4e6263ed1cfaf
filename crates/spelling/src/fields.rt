// The fields of a line as tokens, a space behind each.
ghost use Rattle.std.specs.Prelude.{◌≡◌, ◌+◌, ◌≤◌, ◌<◌, [], ◌++◌, length, get_or};
ghost use Rattle.cursor.specs.bridge.Cursor.{left};
ghost use Rattle.emit.specs.bridge.Emit.{em, puts};
ghost use Rattle.editions.specs.Token.{text, written};
ghost use Rattle.editions.specs.Spelling.{cell_of, spell_vars, spell_cells};

use emit::{put, put_all};
use placing::field::field_at;
use terms::term::is_dash;

const UNDEF: [u8; 5] = *b"UNDEF";

// The field that starts here, between two marks.
pub fn put_between(
    mark: &[u8],
    query: &[u8],
    from: usize,
    end: usize,
    behind: &[u8],
    out: &mut [u8],
    at: usize,
) -> usize
    requires { (end < length query.now) × (from ≤ end + 1) }
    ensures { em result out.new ≡ puts (mark.now ++ (get_or (left query.now from end) 0 [] ++ behind.now)) (em at out.old) }
{
    let field = field_at(query, from, end);
    let to = field.to;
    let a = put_all(out, at, mark);
    let b = put_all(out, a, &query[from..to]);
    put_all(out, b, behind)
}

// The fields from here on, all of which are variables.
pub fn put_variables(query: &[u8], from: usize, end: usize, out: &mut [u8], at: usize) -> usize
    requires { (end < length query.now) × (from ≤ end + 1) }
    ensures { em result out.new ≡ puts (text (spell_vars (left query.now from end) [])) (em at out.old) }
{
    let mut to = at;
    let mut next = from;
    while next <= end {
        let field = field_at(query, next, end);
        let stop = field.to;
        let a = put_all(out, to, &query[next..stop]);
        to = put(out, a, 32);
        next = field.next;
    }
    to
}

// A cell of a values' row.
fn put_cell(cell: &[u8], out: &mut [u8], at: usize) -> usize
    ensures { em result out.new ≡ puts (written (cell_of cell.now)) (em at out.old) }
{
    if is_dash(cell) {
        return put_all(out, at, &UNDEF);
    }
    put_all(out, at, cell)
}

// The fields from here on, all of which are cells.
pub fn put_cells(query: &[u8], from: usize, end: usize, out: &mut [u8], at: usize) -> usize
    requires { (end < length query.now) × (from ≤ end + 1) }
    ensures { em result out.new ≡ puts (text (spell_cells (left query.now from end) [])) (em at out.old) }
{
    let mut to = at;
    let mut next = from;
    while next <= end {
        let field = field_at(query, next, end);
        let stop = field.to;
        let a = put_cell(&query[next..stop], out, to);
        to = put(out, a, 32);
        next = field.next;
    }
    to
}
