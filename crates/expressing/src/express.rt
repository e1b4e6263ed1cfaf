// From a filter to an expression: a filter calls itself on its parts, the lines left falling.
ghost use Rattle.std.specs.Prelude.{◌≡◌, ◌≤◌};
ghost use Rattle.text.specs.Text.{lines_from};
ghost use Rattle.algebra.specs.Tally.{bounds};
ghost use Rattle.reader.specs.bridge.Lines.{LineEnd};
ghost use Rattle.words.specs.bridge.Words.{Worded};
ghost use Rattle.emit.specs.bridge.Writer.{state};
ghost use Rattle.names.specs.bridge.Names.{names_in};
ghost use Rattle.filtering.specs.bridge.FilterLines.{tree_to_expression};
ghost use Rattle.expressing.specs.bridge.Walks.{Walks};

use cursor::Cursor;
use emit::Writer;
use names::Columns;
use operators::line::{parts_below, put_line};
use placing::steps::both;
use words::table::WordRow;
use words::word_at;

// Whether all of a filter is expressed, and where the text goes on.
#[derive(Clone, Copy)]
pub struct Walked {
    pub expressed: bool,
    pub from: usize,
}

// The line that starts here; where none does, one that ends with the text.
pub fn line_from(filters: &[u8], from: usize) -> Cursor
    ensures { LineEnd filters.now from result.end }
{
    let c = Cursor::new(0);
    if filters.len() <= from {
        return c.moved_to(filters.len()).next_line(filters);
    }
    c.moved_to(from).next_line(filters)
}

// try_expression_from_tree: the filter that starts here, of which at most so many lines are left.
pub fn tree_to_expression(
    tree: &[u8],
    columns: &Columns,
    n: usize,
    filters: &[u8],
    words: &[WordRow; 56],
    from: usize,
    left: usize,
    w: &mut Writer,
) -> Walked
    requires { (n ≤ bounds.columns) × Worded words.now }
    ensures same { w.new.out.ghost_name ≡ w.old.out.ghost_name }
    ensures walks { Walks filters.now (tree_to_expression (names_in tree.now columns.now n) left (lines_from filters.now from)) (state w.old) (state w.new) result }
{
    if left == 0 {
        return Walked {
            expressed: false,
            from,
        };
    }
    let line = line_from(filters, from);
    let end = line.end;
    if end == filters.len() {
        return Walked {
            expressed: false,
            from: end,
        };
    }
    let word = word_at(filters, from, end);
    let first = word.end + 1;
    let mut expressed = put_line(tree, columns, n, filters, word.key, first, end, w);
    let parts = parts_below(filters, words, word.key, first, end);
    let mut c = line.line_done().awaiting(parts);
    while 0 < c.awaited {
        let part = tree_to_expression(tree, columns, n, filters, words, c.at, left - 1, w);
        expressed = both(expressed, part.expressed);
        c = c.child_done(c.moved_to(part.from));
    }
    Walked {
        expressed,
        from: c.at,
    }
}
