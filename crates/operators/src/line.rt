// One line of a filter: the lines that it becomes, and how many parts stand below it. A writer says whether the line is
// expressed, and writes nothing of one that isn't.
ghost use Rattle.std.specs.Prelude.{◌≡◌, ◌+◌, ◌≤◌, ◌<◌, [], ◌∷◌, length, get_or};
ghost use Rattle.std.proofs.Math.Option.{some};
ghost use Rattle.text.specs.Text.{Bytes, part, split};
ghost use Rattle.text.specs.Word.{bytes};
ghost use Rattle.algebra.specs.Tally.{bounds};
ghost use Rattle.cursor.specs.bridge.Cursor.{left};
ghost use Rattle.words.specs.bridge.Key.{Keyed};
ghost use Rattle.words.specs.bridge.Words.{Worded};
ghost use Rattle.names.specs.bridge.Names.{names_in};
ghost use Rattle.merging.specs.Request.{position};
ghost use Rattle.filtering.specs.bridge.Terms.{is_expressed};
ghost use Rattle.filtering.specs.bridge.FilterLines.{is_true_line, parts_below, leaf_lines, unary_lines, binary_lines, expression_lines};
ghost use Rattle.operators.specs.bridge.Heads.{Heads};

use emit::Writer;
use names::Columns;
use placing::columns::column_at;
use placing::ends::lines_asked;
use placing::field::{field_at, position_of};
use placing::term::{form_of, put_term};
use text::equal;
use words::table::{WordRow, row_at, word_by};
use words::{keys, word_at};

const TERM: [u8; 5] = *b"term\t";

const DATATYPE: [u8; 8] = *b"Datatype";

const LANGUAGE_TAG: [u8; 11] = *b"LanguageTag";

const EQUALS: [u8; 6] = *b"Equals";

const UNEQUALS: [u8; 8] = *b"Unequals";

const CALL_DATATYPE: [u8; 16] = *b"call\tDATATYPE\t1\n";

const CALL_LANG: [u8; 12] = *b"call\tLANG\t1\n";

const EQ: [u8; 3] = *b"eq\n";

const NOT_EQ: [u8; 7] = *b"not\neq\n";

const BOOLEAN: [u8; 7] = *b"Boolean";

const TRUE: [u8; 4] = *b"true";

// try_expression_from_value expresses a value of this form.
fn is_expressed(form: u8) -> bool
    ensures { result ≡ is_expressed form }
{
    if form == 3 {
        return false;
    }
    if form == 4 {
        return false;
    }
    form != 5
}

// A constant, whose value's three fields start here.
fn put_leaf(filters: &[u8], from: usize, end: usize, w: &mut Writer) -> bool
    requires { (end < length filters.now) × (from ≤ end + 1) }
    ensures { Heads (leaf_lines (get_or (left filters.now from end) 0 []) (get_or (left filters.now from end) 1 []) (get_or (left filters.now from end) 2 [])) w.old w.new result }
{
    let domain = field_at(filters, from, end);
    let a = domain.to;
    let b = domain.next;
    let form = form_of(&filters[from..a]);
    if !is_expressed(form) {
        return false;
    }
    let lexical = field_at(filters, b, end);
    let c = lexical.to;
    let d = lexical.next;
    let extra = field_at(filters, d, end);
    let e = extra.to;
    w.put_all(&TERM);
    put_term(form, &filters[b..c], &filters[d..e], w);
    w.put(10);
    true
}

// A reference: the column at its position.
fn put_ref(
    tree: &[u8],
    columns: &Columns,
    n: usize,
    filters: &[u8],
    from: usize,
    end: usize,
    w: &mut Writer,
) -> bool
    requires { (n ≤ bounds.columns) × (end < length filters.now) × (from ≤ end + 1) }
    ensures { Heads (some ((bytes "term" ∷ get_or (names_in tree.now columns.now n) (position (get_or (left filters.now from end) 0 [])) [] ∷ []) ∷ [])) w.old w.new result }
{
    let field = field_at(filters, from, end);
    let to = field.to;
    w.put_all(&TERM);
    w.put_all(column_at(tree, columns, n, position_of(&filters[from..to])));
    w.put(10);
    true
}

// try_expression_from_unary, of a function's name.
fn put_unary(name: &[u8], w: &mut Writer) -> bool
    ensures { Heads (unary_lines name.now) w.old w.new result }
{
    if equal(name, &DATATYPE) {
        w.put_all(&CALL_DATATYPE);
        return true;
    }
    if equal(name, &LANGUAGE_TAG) {
        w.put_all(&CALL_LANG);
        return true;
    }
    false
}

// try_expression_from_binary, of a function's name.
fn put_binary(name: &[u8], w: &mut Writer) -> bool
    ensures { Heads (binary_lines name.now) w.old w.new result }
{
    if equal(name, &EQUALS) {
        w.put_all(&EQ);
        return true;
    }
    if equal(name, &UNEQUALS) {
        w.put_all(&NOT_EQ);
        return true;
    }
    false
}

// The lines that a line becomes whose word has this key and whose other fields stand from `first` to its end; its parts' follow.
pub fn put_line(
    tree: &[u8],
    columns: &Columns,
    n: usize,
    filters: &[u8],
    key: u64,
    first: usize,
    end: usize,
    w: &mut Writer,
) -> bool
    requires { (n ≤ bounds.columns) × (end < length filters.now) × (first ≤ end + 1) }
    ensures { (f : Bytes) → Keyed f key → Heads (expression_lines (names_in tree.now columns.now n) (f ∷ left filters.now first end)) w.old w.new result }
{
    match key {
        keys::LEAF => put_leaf(filters, first, end, w),
        keys::REF => put_ref(tree, columns, n, filters, first, end, w),
        keys::UN => {
            let name = field_at(filters, first, end);
            let to = name.to;
            put_unary(&filters[first..to], w)
        }
        keys::BIN => {
            let name = field_at(filters, first, end);
            let to = name.to;
            put_binary(&filters[first..to], w)
        }
        _ => false,
    }
}

// How many parts stand below such a line, by the row of its word.
pub fn parts_below(filters: &[u8], words: &[WordRow; 56], key: u64, first: usize, end: usize) -> u64
    requires { (end < length filters.now) × Worded words.now }
    ensures { (f : Bytes) → Keyed f key → result ≡ parts_below (f ∷ left filters.now first end) }
{
    let Some(row) = row_at(words, word_by(words, 11, key)) else {
        return 0;
    };
    lines_asked(filters, row.below, first, end)
}

// is_constant_true, of the filter whose first line goes from here to its end.
pub fn is_constant_true(filters: &[u8], from: usize, end: usize) -> bool
    requires { (from ≤ end) × (end < length filters.now) }
    ensures { result ≡ is_true_line (split 9 (part from end filters.now)) }
{
    let w = word_at(filters, from, end);
    if w.key != keys::LEAF {
        return false;
    }
    let first = w.end + 1;
    let domain = field_at(filters, first, end);
    let a = domain.to;
    let b = domain.next;
    if !equal(&filters[first..a], &BOOLEAN) {
        return false;
    }
    let lexical = field_at(filters, b, end);
    let c = lexical.to;
    equal(&filters[b..c], &TRUE)
}
