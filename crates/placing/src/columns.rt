// A projection's columns, as places in its text.
ghost use Rattle.std.specs.Prelude.{◌≡◌, ◌≤◌, [], length, get_or};
ghost use Rattle.algebra.specs.Tally.{bounds};
ghost use Rattle.names.specs.bridge.Names.{names_in};
ghost use Rattle.placing.specs.bridge.Fields.{columns_on};

use cursor::{Cursor, field_end};
use names::{Columns, wide};
use text::piece;

// Notes where each column of the projection's line stands, and says how many there are.
pub fn read_columns(tree: &[u8], line: usize, columns: &mut Columns) -> usize
    requires { (length tree.now ≤ 16384) × (length (columns_on tree.now line) ≤ bounds.columns) × (length columns.old ≡ bounds.columns) }
    ensures { (result ≤ bounds.columns) × (names_in tree.now columns.new result ≡ columns_on tree.now line) }
{
    let mut n = 0;
    if tree.len() <= line {
        return n;
    }
    let l = Cursor::new(0).moved_to(line).next_line(tree);
    if l.end == tree.len() {
        return n;
    }
    let mut c = l.behind(field_end(tree, line, l.end));
    while let Some(field) = c.next_field(tree) {
        let from = c.at;
        columns[n] = [from as u16, (field.end - from) as u16];
        n += 1;
        c = field.behind;
    }
    n
}

// The column at a position, a part of the tree's text; nothing where there is none.
pub fn column_at<'a>(tree: &'a [u8], columns: &Columns, n: usize, k: usize) -> &'a [u8]
    requires { n ≤ bounds.columns }
    ensures { result.now ≡ get_or (names_in tree.now columns.now n) k [] }
{
    if n <= k {
        return &tree[..0];
    }
    let e = columns[k];
    piece(tree, wide(e[0]), wide(e[1]))
}
