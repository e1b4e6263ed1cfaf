// The call bindings: tree and binding sets to tree.
ghost use Rattle.std.specs.Prelude.{◌≡◌, ◌+◌, ◌*◌, ◌≤◌, List, length};
ghost use Rattle.text.specs.Text.{lines_from};
ghost use Rattle.text.proofs.Texts.{Ended};
ghost use Rattle.algebra.specs.Tree.{Pattern};
ghost use Rattle.algebra.specs.Query.{BindingSet};
ghost use Rattle.algebra.specs.Reader.{reads};
ghost use Rattle.algebra.specs.Texts.{read_tree, read_sets};
ghost use Rattle.algebra.specs.Tally.{bounds};
ghost use Rattle.words.specs.bridge.Words.{Worded};
ghost use Rattle.names.specs.bridge.Names.{names_in};
ghost use Rattle.emit.specs.bridge.Writer.{Wrote};
ghost use Rattle.answers.specs.Outcome.{Answered};
ghost use Rattle.filtering.specs.Bindings.{bindings_outcome};
ghost use Rattle.filtering.specs.bridge.AsIs.{bindings_as_is};
ghost use Rattle.binding.specs.bridge.Bound.{bound_at, Holds};

use crate::judge::judge;
use crate::values::put_values;
use algebra::{COLUMNS, EMPTY_TREE};
use answers::{Answer, Refusal};
use emit::Writer;
use heads::copy;
use names::{Columns, Entry, clear};
use negating::outermost_projection;
use placing::columns::read_columns;
use placing::ends::inner_end;
use placing::steps::put_repeated;
use reading::{check_sets, check_tree};
use words::table::{WordRow, all_words};

const JOIN: [u8; 4] = *b"join";

// pattern_with_bindings: the tree down to its projection, a join for each set, the inner pattern, the Values, the rest.
fn put_bindings(
    tree: &[u8],
    inner: usize,
    end: usize,
    columns: &Columns,
    n: usize,
    sets: &[u8],
    joins: usize,
    w: &mut Writer,
)
    requires { (inner ≤ end) × (end ≤ length tree.now) × (n ≤ bounds.columns) × Ended (lines_from sets.now 0) }
    ensures { Wrote w.old w.new (bound_at tree.now inner end joins (names_in tree.now columns.now n) (lines_from sets.now 0)) }
{
    w.put_all(&tree[..inner]);
    put_repeated(&JOIN, joins, w);
    w.put_all(&tree[inner..end]);
    put_values(tree, columns, n, sets, w);
    w.put_all(&tree[end..]);
}

// A buffer of so many bytes holds that. Where it is as long as the answer can be, nothing is measured.
fn has_room(
    tree: &[u8],
    inner: usize,
    end: usize,
    columns: &Columns,
    n: usize,
    sets: &[u8],
    joins: usize,
    room: usize,
) -> bool
    requires { (inner ≤ end) × (end ≤ length tree.now) × (n ≤ bounds.columns) × Ended (lines_from sets.now 0) × (length tree.now ≤ 16384) × (length sets.now ≤ 16384) }
    ensures { Holds (length tree.now + 65 * length sets.now) (length (bound_at tree.now inner end joins (names_in tree.now columns.now n) (lines_from sets.now 0))) room result }
{
    if tree.len() + 65 * sets.len() <= room {
        return true;
    }
    let mut none = [0u8; 0];
    let mut w = Writer::new(&mut none, 0);
    put_bindings(tree, inner, end, columns, n, sets, joins, &mut w);
    w.at <= room
}

// For texts that were checked.
fn bindings_of(tree: &[u8], sets: &[u8], words: &[WordRow; 56], out: &mut [u8]) -> Answer
    requires { ((p : Pattern) × (read_tree tree.now ≡ reads p)) × ((xs : List BindingSet) × (read_sets sets.now ≡ reads xs)) × Worded words.now }
    ensures { Answered (bindings_as_is tree.now sets.now) out.old out.new result }
{
    let Some(outermost) = outermost_projection(tree, 0) else {
        return copy(tree, out);
    };
    let inner = outermost.inner;
    let mut columns = [[0u16; 2]; COLUMNS];
    let n = read_columns(tree, outermost.line, &mut columns);
    let judged = judge(sets, n);
    if !judged.inside {
        return Err(Refusal::Outside);
    }
    if !judged.usable {
        return Err(Refusal::NotUsable);
    }
    let end = inner_end(tree, words, inner);
    if !has_room(tree, inner, end, &columns, n, sets, judged.sets, out.len()) {
        return Err(Refusal::TooShort);
    }
    let mut w = Writer::new(out, 0);
    put_bindings(tree, inner, end, &columns, n, sets, judged.sets, &mut w);
    Ok(w.at)
}

// For a tree that was checked; its table of names is cleared and used again.
fn bindings_by(
    tree: &[u8],
    sets: &[u8],
    words: &[WordRow; 56],
    table: &mut [Entry; 1024],
    hints: &mut [u16; 2048],
    out: &mut [u8],
) -> Answer
    requires { ((p : Pattern) × (read_tree tree.now ≡ reads p)) × Worded words.now }
    ensures { Answered (bindings_as_is tree.now sets.now) out.old out.new result }
{
    clear(table);
    check_sets(sets, words, table, hints)?;
    bindings_of(tree, sets, words, out)
}

// The same for any tree's text as it stands.
fn bindings_text(tree: &[u8], sets: &[u8], out: &mut [u8]) -> Answer
    ensures { Answered (bindings_as_is tree.now sets.now) out.old out.new result }
{
    let words = all_words();
    let mut table = [[0u16; 2]; 1024];
    let mut hints = [0u16; 2048];
    check_tree(tree, &words, &mut table, &mut hints)?;
    bindings_by(tree, sets, &words, &mut table, &mut hints, out)
}

// bindings: tree and binding sets to tree; an empty file is read as its two lines.
pub fn bindings(tree: &[u8], sets: &[u8], out: &mut [u8]) -> Answer
    ensures { Answered (bindings_outcome tree.now sets.now) out.old out.new result }
{
    if tree.len() == 0 {
        return bindings_text(&EMPTY_TREE, sets, out);
    }
    bindings_text(tree, sets, out)
}
