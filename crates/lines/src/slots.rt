// The fields behind a line's word: those that the slots of its row take, and what stands behind these.
ghost use Rattle.std.specs.Prelude.{◌≡◌, ℕ, ◌+◌, ◌/◌, ◌%◌, ◌≤◌, ◌<◌, List, [], ◌∷◌, cond, true, eqb};
ghost use Rattle.text.specs.bridge.Code.{kind_at};
ghost use Rattle.algebra.specs.Tally.{notes};
ghost use Rattle.algebra.specs.bridge.Table.{Slot};
ghost use Rattle.names.specs.bridge.Names.{HoldsIn};
ghost use Rattle.words.specs.bridge.Code.{tail_of, row_of, one_slot, slots_in, fits_in};
ghost use Rattle.lines.specs.bridge.Line.{take_field, take_slots, take_tail, columns_of};
ghost use Rattle.lines.specs.bridge.Steps.{InLine, left_at, Follows, rest_of, rest_in, terms_of, terms_in, number_taken, TookSlots};
ghost use Rattle.lines.specs.bridge.Spotted.{mark_at};
ghost use Rattle.lines.specs.bridge.Stored.{Adds, found, store_of};

use crate::fields::{Spot, count_field, fields_left, text_field, text_fields, value_fields};
use crate::variables::{term_field, variable_fields};
use crate::wanted::Wanted;
use cursor::Cursor;
use names::Entry;
use words::Row;

// A cursor, the number of names in the table, and the number in a field or of a project's columns.
#[derive(Clone, Copy)]
pub struct Step {
    pub cursor: Cursor,
    pub names: usize,
    pub spots: usize,
    pub number: usize,
}

// One field by the lowest digits of a number of slots, its role and its kind, where there is one.
fn slot(
    s: &[u8],
    c: Cursor,
    code: u64,
    mark: u8,
    table: &mut [Entry; 1024],
    hints: &mut [u16; 2048],
    n: usize,
    spots: &mut [Spot],
    k: usize,
) -> Step
    requires { InLine s.now c }
    ensures follows { Follows s.now c (rest_of (take_field (one_slot (code % 16) (kind_at (code / 16 % 16))) (left_at s.now c))) result.cursor × (number_taken (take_field (one_slot (code % 16) (kind_at (code / 16 % 16))) (left_at s.now c)) ≡ result.number) × (result.number < 4294967296) }
    ensures keeps { (want : List (List ℕ)) → HoldsIn s.now table.old hints.old n want → HoldsIn s.now table.new hints.new result.names (notes (terms_of (take_field (one_slot (code % 16) (kind_at (code / 16 % 16))) (left_at s.now c))) want) }
    ensures adds { result.cursor.at ≤ c.end + 1 → (ss : List Slot) → Adds s.now (store_of table.old n spots.old k) c.at (store_of table.new result.names spots.new result.spots) result.cursor.at (found (mark_at mark) (one_slot (code % 16) (kind_at (code / 16 % 16)) ∷ ss) s.now c) (found (mark_at mark) ss s.now result.cursor) }
{
    let role = (code % 16) as u8;
    let kind = (code / 16 % 16) as u8;
    if role == 1 {
        let t = term_field(s, c, kind, mark, table, hints, n, spots, k);
        let d = t.cursor;
        return Step {
            cursor: d,
            names: t.names,
            spots: t.spots,
            number: 0,
        };
    }
    if role == 2 {
        let d = text_field(s, c, kind);
        return Step {
            cursor: d,
            names: n,
            spots: k,
            number: 0,
        };
    }
    let t = count_field(s, c);
    let d = t.cursor;
    if role == 3 {
        return Step {
            cursor: d,
            names: n,
            spots: k,
            number: t.number,
        };
    }
    if 1 < t.number {
        return Step {
            cursor: c.failed(),
            names: n,
            spots: k,
            number: 0,
        };
    }
    Step {
        cursor: d,
        names: n,
        spots: k,
        number: t.number,
    }
}

// The fields of a line behind its word: the cursor, the number of names, and the first two numbers.
#[derive(Clone, Copy)]
pub struct Filled {
    pub cursor: Cursor,
    pub names: usize,
    pub spots: usize,
    pub first: usize,
    pub second: usize,
}

// The slots of a row: where columns stand behind them there are none.
fn slots_of(row: Row) -> u64
    requires { fits_in 3 row.fields ≡ true }
    ensures { (slots_in 3 result ≡ (row_of row).slots) × (fits_in 3 result ≡ true) }
{
    if row.behind == 1 {
        return 0;
    }
    row.fields
}

// The number of a field that is the one at this place, or what there was.
fn number_at(i: usize, place: usize, number: usize, old: usize) -> usize
    ensures { result ≡ cond (eqb i place) number old }
{
    if i == place {
        return number;
    }
    old
}

// The fields that the slots of a row take.
pub fn slots(
    s: &[u8],
    c: Cursor,
    row: Row,
    mark: u8,
    table: &mut [Entry; 1024],
    hints: &mut [u16; 2048],
    n: usize,
    spots: &mut [Spot],
    k: usize,
) -> Filled
    requires { InLine s.now c × (c.at ≤ c.end + 1) × (fits_in 3 row.fields ≡ true) }
    ensures took_slots { TookSlots s.now c (take_slots (row_of row).slots (left_at s.now c)) result.cursor result.first result.second }
    ensures keeps { result.cursor.at ≤ c.end + 1 → (want : List (List ℕ)) → HoldsIn s.now table.old hints.old n want → HoldsIn s.now table.new hints.new result.names (notes (terms_in (take_slots (row_of row).slots (left_at s.now c))) want) }
    ensures adds { result.cursor.at ≤ c.end + 1 → Adds s.now (store_of table.old n spots.old k) c.at (store_of table.new result.names spots.new result.spots) result.cursor.at (found (mark_at mark) (row_of row).slots s.now c) (found (mark_at mark) [] s.now result.cursor) }
{
    let mut d = c;
    let mut m = n;
    let mut j = k;
    let mut first = 0;
    let mut second = 0;
    let mut i = 0;
    let mut code = slots_of(row);
    while code != 0 {
        let t = slot(s, d, code, mark, table, hints, m, spots, j);
        d = t.cursor;
        m = t.names;
        j = t.spots;
        first = number_at(i, 0, t.number, first);
        second = number_at(i, 1, t.number, second);
        i += 1;
        code = code / 256;
    }
    Filled {
        cursor: d,
        names: m,
        spots: j,
        first,
        second,
    }
}

// What stands behind the slots.
pub fn tail(
    s: &[u8],
    c: Cursor,
    kind: u8,
    w: Wanted,
    table: &mut [Entry; 1024],
    hints: &mut [u16; 2048],
    n: usize,
    spots: &mut [Spot],
    k: usize,
) -> Step
    requires { InLine s.now c × (c.at ≤ c.end + 1) }
    ensures follows { Follows s.now c (rest_in (take_tail (tail_of kind) w.width (left_at s.now c))) result.cursor × (result.cursor.at ≤ c.end + 1 → columns_of (tail_of kind) (terms_in (take_tail (tail_of kind) w.width (left_at s.now c))) ≡ result.number) }
    ensures keeps { result.cursor.at ≤ c.end + 1 → (want : List (List ℕ)) → HoldsIn s.now table.old hints.old n want → HoldsIn s.now table.new hints.new result.names (notes (terms_in (take_tail (tail_of kind) w.width (left_at s.now c))) want) }
    ensures adds { result.cursor.at ≤ c.end + 1 → kind ≤ 3 → Adds s.now (store_of table.old n spots.old k) c.at (store_of table.new result.names spots.new result.spots) result.cursor.at (found (mark_at w.mark) [] s.now c) (found (mark_at w.mark) [] s.now result.cursor) }
{
    if kind == 1 {
        let columns = fields_left(s, c);
        let t = variable_fields(s, c, columns, w.mark, table, hints, n, spots, k);
        let d = t.cursor;
        return Step {
            cursor: d,
            names: t.names,
            spots: t.spots,
            number: columns,
        };
    }
    if kind == 2 {
        let t = variable_fields(s, c, w.width, w.mark, table, hints, n, spots, k);
        let d = t.cursor;
        return Step {
            cursor: d,
            names: t.names,
            spots: t.spots,
            number: 0,
        };
    }
    let d = plain_tail(s, c, kind, w.width);
    Step {
        cursor: d,
        names: n,
        spots: k,
        number: 0,
    }
}

// What stands behind the slots where it holds no variables.
fn plain_tail(s: &[u8], c: Cursor, kind: u8, width: usize) -> Cursor
    requires { InLine s.now c × (c.at ≤ c.end + 1) × (kind ≡ 1 → ⊥) × (kind ≡ 2 → ⊥) }
    ensures { Follows s.now c (rest_in (take_tail (tail_of kind) width (left_at s.now c))) result }
{
    if kind == 3 {
        return text_fields(s, c, 5, width);
    }
    if kind == 4 {
        return text_fields(s, c, 6, width);
    }
    if kind == 5 {
        return value_fields(s, c, width);
    }
    if kind == 6 {
        return value_fields(s, c, 1);
    }
    c
}
