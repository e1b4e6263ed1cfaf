// The call filters: tree and filters to tree, and the numbers of the filters that were not placed.
ghost use Rattle.std.specs.Prelude.{◌≡◌, ◌+◌, ◌*◌, ◌-◌, ◌≤◌, ◌<◌, min, List, [], length};
ghost use Rattle.text.specs.Text.{text_of, part, split, lines_from};
ghost use Rattle.algebra.specs.Tree.{Pattern};
ghost use Rattle.algebra.specs.Query.{Filter};
ghost use Rattle.algebra.specs.Reader.{reads};
ghost use Rattle.algebra.specs.Texts.{read_tree, read_filters};
ghost use Rattle.algebra.specs.Tally.{bounds};
ghost use Rattle.words.specs.bridge.Words.{Worded};
ghost use Rattle.names.specs.bridge.Names.{names_in};
ghost use Rattle.emit.specs.bridge.Emit.{em, last, puts};
ghost use Rattle.emit.specs.bridge.Writer.{Wrote};
ghost use Rattle.answers.specs.Outcome.{written};
ghost use Rattle.answers.specs.Both.{ListedBoth};
ghost use Rattle.scoping.specs.Sets.{all};
ghost use Rattle.negating.specs.bridge.Lines.{from_project, Projects};
ghost use Rattle.std.proofs.Math.Option.{none};
ghost use Rattle.filtering.specs.Filters.{filters_outcome};
ghost use Rattle.filtering.specs.NotPlaced.{filters_not_placed};
ghost use Rattle.filtering.specs.bridge.AsIs.{filters_as_is, not_placed_as_is};
ghost use Rattle.expressing.specs.bridge.Filtered.{ref_below, filtered_at};
ghost use Rattle.expressing.specs.bridge.Walks.{lines_at};

use crate::place::{note_filters, put_expressions, put_numbers};
use algebra::{COLUMNS, EMPTY_TREE, ENTRIES};
use answers::{Listed, ListedAnswer, Refusal};
use cursor::Cursor;
use emit::Writer;
use heads::copy;
use names::{Columns, Entry, clear};
use negating::outermost_projection;
use placing::columns::read_columns;
use placing::ends::inner_end;
use placing::field::{field_at, position_of};
use placing::steps::put_repeated;
use reading::{check_filters, check_tree};
use words::table::{WordRow, all_words};
use words::{keys, word_at};

const FILTER: [u8; 7] = *b"filter\n";

const AND: [u8; 3] = *b"and";

// The line from here to its end is no reference past the width.
fn is_inside(filters: &[u8], from: usize, end: usize, width: usize) -> bool
    requires { (from ≤ end) × (end < length filters.now) }
    ensures { result ≡ ref_below width (split 9 (part from end filters.now)) }
{
    let w = word_at(filters, from, end);
    if w.key != keys::REF {
        return true;
    }
    let first = w.end + 1;
    let field = field_at(filters, first, end);
    let to = field.to;
    position_of(&filters[first..to]) < width
}

// Each reference is below the width.
fn are_inside(filters: &[u8], width: usize) -> bool
    ensures { result ≡ all (ref_below width) (lines_from filters.now 0) }
{
    let mut c = Cursor::new(0);
    while c.at < filters.len() {
        let line = c.next_line(filters);
        if line.end == filters.len() {
            return true;
        }
        if !is_inside(filters, c.at, line.end, width) {
            return false;
        }
        c = line.line_done();
    }
    true
}

// pattern_with_filters: the tree down to its projection, `filter`, the inner pattern, the lines `and`, the expressions, the rest.
fn put_filtered(
    tree: &[u8],
    inner: usize,
    end: usize,
    columns: &Columns,
    n: usize,
    filters: &[u8],
    words: &[WordRow; 56],
    starts: &[usize],
    ands: usize,
    w: &mut Writer,
)
    requires { (inner ≤ end) × (end ≤ length tree.now) × (n ≤ bounds.columns) × Worded words.now }
    ensures { Wrote w.old w.new (filtered_at tree.now inner end ands (lines_at (names_in tree.now columns.now n) filters.now starts.now)) }
{
    w.put_all(&tree[..inner]);
    w.put_all(&FILTER);
    w.put_all(&tree[inner..end]);
    put_repeated(&AND, ands, w);
    put_expressions(tree, columns, n, filters, words, starts, w);
    w.put_all(&tree[end..]);
}

// How long that is, by the length of the expressions.
fn filtered_size(tree: &[u8], ands: usize, size: usize) -> usize
    requires { (length tree.now ≤ 16384) × (ands ≤ 16384) }
    ensures { result ≡ min (length tree.now + 7 + ands * 4 + size) last }
{
    let rest = tree.len() + 7 + ands * 4;
    if usize::MAX - rest < size {
        return usize::MAX;
    }
    rest + size
}

// The filters that start at these places are placed, and the numbers of the others are listed.
fn put_listed(
    tree: &[u8],
    inner: usize,
    end: usize,
    columns: &Columns,
    n: usize,
    filters: &[u8],
    words: &[WordRow; 56],
    starts: &[usize],
    size: usize,
    numbers: &[u16],
    out: &mut [u8],
    list: &mut [u16],
) -> ListedAnswer
    requires { (inner ≤ end) × (end ≤ length tree.now) × (length tree.now ≤ 16384) × (n ≤ bounds.columns) × Worded words.now × (0 < length starts.now) × (length starts.now ≤ bounds.entries) × (em size [] ≡ puts (text_of (lines_at (names_in tree.now columns.now n) filters.now starts.now)) (em 0 [])) }
    ensures { ListedBoth (written (filtered_at tree.now inner end (length starts.now - 1) (lines_at (names_in tree.now columns.now n) filters.now starts.now))) numbers.now out.old out.new list.old list.new result }
{
    let ands = starts.len() - 1;
    if out.len() < filtered_size(tree, ands, size) {
        return Err(Refusal::TooShort);
    }
    if list.len() < numbers.len() {
        return Err(Refusal::ListTooShort);
    }
    let mut w = Writer::new(out, 0);
    put_filtered(
        tree, inner, end, columns, n, filters, words, starts, ands, &mut w,
    );
    put_numbers(numbers, list);
    Ok(Listed {
        size: w.at,
        many: numbers.len(),
    })
}

// No filter is placed, and their numbers are listed.
fn copy_listed(tree: &[u8], numbers: &[u16], out: &mut [u8], list: &mut [u16]) -> ListedAnswer
    ensures { ListedBoth (written tree.now) numbers.now out.old out.new list.old list.new result }
{
    if out.len() < tree.len() {
        return Err(Refusal::TooShort);
    }
    if list.len() < numbers.len() {
        return Err(Refusal::ListTooShort);
    }
    let size = copy(tree, out)?;
    put_numbers(numbers, list);
    Ok(Listed {
        size,
        many: numbers.len(),
    })
}

// For texts that were checked, where the projection is this line and its inner pattern starts there.
fn filters_found(
    tree: &[u8],
    line: usize,
    inner: usize,
    filters: &[u8],
    words: &[WordRow; 56],
    out: &mut [u8],
    list: &mut [u16],
) -> ListedAnswer
    requires { ((p : Pattern) × (read_tree tree.now ≡ reads p)) × ((fs : List Filter) × (read_filters filters.now ≡ reads fs)) × Projects tree.now 0 line inner × Worded words.now }
    ensures { ListedBoth (filters_as_is tree.now filters.now) (not_placed_as_is tree.now filters.now) out.old out.new list.old list.new result }
{
    let mut columns = [[0u16; 2]; COLUMNS];
    let n = read_columns(tree, line, &mut columns);
    if !are_inside(filters, n) {
        return Err(Refusal::Outside);
    }
    let mut starts = [0usize; ENTRIES];
    let mut numbers = [0u16; ENTRIES];
    let noted = note_filters(
        true,
        tree,
        &columns,
        n,
        filters,
        words,
        &mut starts,
        &mut numbers,
    );
    let many = noted.many;
    let others = noted.others;
    if many == 0 {
        return copy_listed(tree, &numbers[..others], out, list);
    }
    let end = inner_end(tree, words, inner);
    put_listed(
        tree,
        inner,
        end,
        &columns,
        n,
        filters,
        words,
        &starts[..many],
        noted.size,
        &numbers[..others],
        out,
        list,
    )
}

// For texts that were checked, where no projection was found.
fn filters_not_found(
    tree: &[u8],
    filters: &[u8],
    words: &[WordRow; 56],
    out: &mut [u8],
    list: &mut [u16],
) -> ListedAnswer
    requires { ((p : Pattern) × (read_tree tree.now ≡ reads p)) × ((fs : List Filter) × (read_filters filters.now ≡ reads fs)) × (from_project (lines_from tree.now 0) ≡ none) × Worded words.now }
    ensures { ListedBoth (filters_as_is tree.now filters.now) (not_placed_as_is tree.now filters.now) out.old out.new list.old list.new result }
{
    let columns = [[0u16; 2]; COLUMNS];
    let mut starts = [0usize; ENTRIES];
    let mut numbers = [0u16; ENTRIES];
    let noted = note_filters(
        false,
        tree,
        &columns,
        0,
        filters,
        words,
        &mut starts,
        &mut numbers,
    );
    let others = noted.others;
    copy_listed(tree, &numbers[..others], out, list)
}

// For texts that were checked.
fn filters_of(
    tree: &[u8],
    filters: &[u8],
    words: &[WordRow; 56],
    out: &mut [u8],
    list: &mut [u16],
) -> ListedAnswer
    requires { ((p : Pattern) × (read_tree tree.now ≡ reads p)) × ((fs : List Filter) × (read_filters filters.now ≡ reads fs)) × Worded words.now }
    ensures { ListedBoth (filters_as_is tree.now filters.now) (not_placed_as_is tree.now filters.now) out.old out.new list.old list.new result }
{
    let Some(outermost) = outermost_projection(tree, 0) else {
        return filters_not_found(tree, filters, words, out, list);
    };
    filters_found(
        tree,
        outermost.line,
        outermost.inner,
        filters,
        words,
        out,
        list,
    )
}

// For a tree that was checked; its table of names is cleared and used again.
fn filters_by(
    tree: &[u8],
    filters: &[u8],
    words: &[WordRow; 56],
    table: &mut [Entry; 1024],
    hints: &mut [u16; 2048],
    out: &mut [u8],
    list: &mut [u16],
) -> ListedAnswer
    requires { ((p : Pattern) × (read_tree tree.now ≡ reads p)) × Worded words.now }
    ensures { ListedBoth (filters_as_is tree.now filters.now) (not_placed_as_is tree.now filters.now) out.old out.new list.old list.new result }
{
    clear(table);
    check_filters(filters, words, table, hints)?;
    filters_of(tree, filters, words, out, list)
}

// The same for any tree's text as it stands.
fn filters_text(tree: &[u8], filters: &[u8], out: &mut [u8], list: &mut [u16]) -> ListedAnswer
    ensures { ListedBoth (filters_as_is tree.now filters.now) (not_placed_as_is tree.now filters.now) out.old out.new list.old list.new result }
{
    let words = all_words();
    let mut table = [[0u16; 2]; 1024];
    let mut hints = [0u16; 2048];
    check_tree(tree, &words, &mut table, &mut hints)?;
    filters_by(tree, filters, &words, &mut table, &mut hints, out, list)
}

// filters: tree and filters to tree, and the numbers of the filters that were not placed; an empty file is read as its two lines.
pub fn filters(tree: &[u8], filters: &[u8], out: &mut [u8], list: &mut [u16]) -> ListedAnswer
    ensures { ListedBoth (filters_outcome tree.now filters.now) (filters_not_placed tree.now filters.now) out.old out.new list.old list.new result }
{
    if tree.len() == 0 {
        return filters_text(&EMPTY_TREE, filters, out, list);
    }
    filters_text(tree, filters, out, list)
}
