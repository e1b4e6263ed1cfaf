// The call namespaces: a tree whose IRIs have the starts that a table gives. Each line is converted by itself: its word tells which of its fields
// are texts, and of the others the first byte tells the IRIs.
#![tactic(auto)]

ghost use Rattle.std.specs.Prelude.{◌≡◌, ◌+◌, ◌≤◌, ◌<◌, true, cond, [], ◌∷◌, map, length, get_or};
ghost use Rattle.text.specs.Text.{Bytes, part, text_of, lines_from};
ghost use Rattle.algebra.specs.Tree.{Pattern};
ghost use Rattle.algebra.specs.Reader.{reads};
ghost use Rattle.algebra.specs.Texts.{read_tree};
ghost use Rattle.words.specs.bridge.Key.{Keyed};
ghost use Rattle.cursor.specs.bridge.Cursor.{left};
ghost use Rattle.walking.specs.bridge.Walk.{tabbed};
ghost use Rattle.emit.specs.bridge.Writer.{Wrote};
ghost use Rattle.answers.specs.Outcome.{Answered};
ghost use Rattle.converting.specs.Namespaces.{converted_iri, namespaces_outcome};
ghost use Rattle.converting.specs.bridge.AsIs.{namespaces_as_is};
ghost use Rattle.converting.specs.bridge.Lines.{is_text, is_iri_at, in_fields, in_line, iris_of_fields, iris_in};
ghost use Rattle.starts.specs.bridge.Starts.{starts_in, StartsTold, Ordered};
ghost use Rattle.respelling.specs.bridge.Written.{are_covered, Converted};

use algebra::EMPTY_TREE;
use answers::{Answer, Refusal};
use cursor::field_end;
use emit::Writer;
use lists::field_at;
use reader::next_end;
use reading::check_tree;
use starts::{STARTS, Starts, check_starts, in_order, line_over};
use words::table::all_words;
use words::{keys, word_at};

// The first byte of the tree that is not copied yet, and whether a line covers each IRI so far.
#[derive(Clone, Copy)]
struct Put {
    done: usize,
    covered: bool,
}

// The field of this number, in a line whose word has this key, is a text: that of a path, or the name of an aggregate or a call.
fn is_text(key: u64, i: usize) -> bool
    ensures { (word : Bytes) → Keyed word key → result ≡ is_text word i }
{
    match key {
        keys::PATH => i == 1,
        keys::AGG => i == 1,
        keys::CALL => i == 0,
        _ => false,
    }
}

// The field between two places is an IRI.
fn is_iri_at(tree: &[u8], from: usize, to: usize, key: u64, i: usize) -> bool
    requires { (from ≤ to) × (to ≤ length tree.now) }
    ensures { ((word : Bytes) → Keyed word key → result ≡ is_iri_at word i (part from to tree.now)) × (result ≡ true → (from < to) × (get_or tree.now from 0 ≡ 60)) }
{
    if from == to {
        return false;
    }
    if tree[from] != 60 {
        return false;
    }
    !is_text(key, i)
}

// An IRI with its new start. What stands before and behind the old one is copied with its neighbours.
fn put_iri(
    tree: &[u8],
    from: usize,
    to: usize,
    put: Put,
    table: &[u8],
    keys: &Starts,
    n: usize,
    w: &mut Writer,
) -> Put
    requires { (put.done ≤ from) × (from < to) × (to ≤ length tree.now) × (get_or tree.now from 0 ≡ 60) × Ordered table.now keys.now n }
    ensures { (result.done ≤ to) × Converted (starts_in table.now keys.now n) tree.now from to (converted_iri (starts_in table.now keys.now n) (part from to tree.now)) (part from to tree.now ∷ []) put w.old result w.new }
{
    let Some(k) = line_over(table, keys, n, &tree[from..to]) else {
        return Put {
            done: put.done,
            covered: false,
        };
    };
    let e = keys[k];
    let done = put.done;
    let behind = from + 1;
    w.put_all(&tree[done..behind]);
    w.put_all(field_at(table, e[2], e[3]));
    Put {
        done: behind + field_at(table, e[0], e[1]).len(),
        covered: put.covered,
    }
}

// A field: only an IRI becomes another.
fn put_field(
    tree: &[u8],
    from: usize,
    to: usize,
    key: u64,
    i: usize,
    put: Put,
    table: &[u8],
    keys: &Starts,
    n: usize,
    w: &mut Writer,
) -> Put
    requires { (put.done ≤ from) × (from ≤ to) × (to ≤ length tree.now) × Ordered table.now keys.now n }
    ensures { (result.done ≤ to) × ((word : Bytes) → Keyed word key → Converted (starts_in table.now keys.now n) tree.now from to (cond (is_iri_at word i (part from to tree.now)) (converted_iri (starts_in table.now keys.now n) (part from to tree.now)) (part from to tree.now)) (cond (is_iri_at word i (part from to tree.now)) (part from to tree.now ∷ []) []) put w.old result w.new) }
{
    if !is_iri_at(tree, from, to, key, i) {
        return put;
    }
    put_iri(tree, from, to, put, table, keys, n, w)
}

// The fields of a line from its word's end on.
fn put_fields(
    tree: &[u8],
    from: usize,
    end: usize,
    key: u64,
    first: Put,
    table: &[u8],
    keys: &Starts,
    n: usize,
    w: &mut Writer,
) -> Put
    requires { (first.done ≤ from) × (from ≤ end) × (end < length tree.now) × (from < end → get_or tree.now from 0 ≡ 9) × Ordered table.now keys.now n }
    ensures { (result.done ≤ end) × ((word : Bytes) → Keyed word key → Converted (starts_in table.now keys.now n) tree.now from end (tabbed (in_fields (converted_iri (starts_in table.now keys.now n)) word 0 (left tree.now (from + 1) end))) (iris_of_fields word 0 (left tree.now (from + 1) end)) first w.old result w.new) }
{
    let mut put = first;
    let mut at = from;
    let mut i: usize = 0;
    while at < end {
        let start = at + 1;
        let to = field_end(tree, start, end);
        put = put_field(tree, start, to, key, i, put, table, keys, n, w);
        at = to;
        i += 1;
    }
    put
}

// The tree line by line, each IRI with its new start, and whether a line of the table covers each of its IRIs.
pub fn put_converted(tree: &[u8], table: &[u8], keys: &Starts, n: usize, w: &mut Writer) -> bool
    requires { ((p : Pattern) × (read_tree tree.now ≡ reads p)) × Ordered table.now keys.now n }
    ensures { Wrote w.old w.new (text_of (map (in_line (converted_iri (starts_in table.now keys.now n))) (lines_from tree.now 0))) × (result ≡ are_covered (starts_in table.now keys.now n) (iris_in (lines_from tree.now 0))) }
{
    let mut put = Put {
        done: 0,
        covered: true,
    };
    let mut at = 0;
    while at < tree.len() {
        let end = next_end(tree, at);
        let word = word_at(tree, at, end);
        put = put_fields(tree, word.end, end, word.key, put, table, keys, n, w);
        at = end + 1;
    }
    let done = put.done;
    w.put_all(&tree[done..]);
    put.covered
}

// The answer for a tree and a table that were checked: measured without room, then written if each IRI is covered and it fits.
fn convert(tree: &[u8], table: &[u8], keys: &Starts, n: usize, out: &mut [u8]) -> Answer
    requires { ((p : Pattern) × (read_tree tree.now ≡ reads p)) × StartsTold table.now keys.now n }
    ensures { Answered (namespaces_as_is tree.now table.now) out.old out.new result }
{
    if !in_order(table, keys, n) {
        return Err(Refusal::NotInOrder);
    }
    let mut none = [0u8; 0];
    let mut spare = Writer::new(&mut none, 0);
    if !put_converted(tree, table, keys, n, &mut spare) {
        return Err(Refusal::NotCovered);
    }
    let need = spare.at;
    if out.len() < need {
        return Err(Refusal::TooShort);
    }
    let mut w = Writer::new(out, 0);
    put_converted(tree, table, keys, n, &mut w);
    Ok(w.at)
}

// The answer for a tree that was checked.
fn convert_by(tree: &[u8], table: &[u8], out: &mut [u8]) -> Answer
    requires { (p : Pattern) × (read_tree tree.now ≡ reads p) }
    ensures { Answered (namespaces_as_is tree.now table.now) out.old out.new result }
{
    let mut keys = [[0u16; 4]; STARTS];
    let n = check_starts(table, &mut keys)?;
    convert(tree, table, &keys, n, out)
}

// The same for any tree's text as it stands.
fn namespaces_text(tree: &[u8], table: &[u8], out: &mut [u8]) -> Answer
    ensures { Answered (namespaces_as_is tree.now table.now) out.old out.new result }
{
    let words = all_words();
    let mut names = [[0u16; 2]; 1024];
    let mut hints = [0u16; 2048];
    check_tree(tree, &words, &mut names, &mut hints)?;
    convert_by(tree, table, out)
}

// namespaces: tree and table to tree; an empty file is read as its two lines.
pub fn namespaces(tree: &[u8], table: &[u8], out: &mut [u8]) -> Answer
    ensures { Answered (namespaces_outcome tree.now table.now) out.old out.new result }
{
    if tree.len() == 0 {
        return namespaces_text(&EMPTY_TREE, table, out);
    }
    namespaces_text(tree, table, out)
}
