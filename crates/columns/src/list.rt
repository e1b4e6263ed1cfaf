// A list of pairs that was checked: its positions, and the terms of a constant list by rising position.
ghost use Rattle.std.specs.Prelude.{◌≡◌, ℕ, ◌+◌, ◌≤◌, ◌<◌, List, [], ◌∷◌, Bool, true, false, cond, length, get_or, take, drop, ltb};
ghost use Rattle.text.specs.Text.{Bytes, Line, lines_from};
ghost use Rattle.cursor.specs.bridge.Cursor.{left};
ghost use Rattle.emit.specs.bridge.Writer.{Wrote};
ghost use Rattle.scoping.specs.bridge.Walk.{number_in};
ghost use Rattle.walking.specs.bridge.Walk.{tabbed};
ghost use Rattle.scoping.specs.Sets.{all};
ghost use Rattle.algebra.specs.Query.{Pair};
ghost use Rattle.algebra.specs.Tally.{bounds};
ghost use Rattle.columns.specs.bridge.Listed.{Listed, Kept, Found, Ordered, second_of, terms_from};

use algebra::{ENTRIES, PerEntry};
use cursor::field_end;
use emit::Writer;
use names::wide;
use reader::line_end;
use walking::line::count_at;

// The number in a line's first field or in its second.
fn position_at(list: &[u8], from: usize, end: usize, second: bool) -> usize
    requires { end < length list.now }
    ensures { result ≡ number_in (get_or (left list.now from end) (cond second 1 0) []) }
{
    let a = count_at(list, from, end);
    if !second {
        return a.number;
    }
    let b = count_at(list, a.next, end);
    b.number
}

// The positions in one of the two fields of each line, below c, and where each line starts: how many there are. None where one is
// outside the projection.
pub fn read_positions(
    list: &[u8],
    second: bool,
    c: usize,
    at: &mut PerEntry,
    lines: &mut PerEntry,
) -> Option<usize>
    requires { (c ≤ bounds.columns) × (length at.old ≡ bounds.entries) × (length lines.old ≡ bounds.entries) × ((xs : List Pair) × Listed list.now xs) }
    ensures { (length at.new ≡ bounds.entries) × (length lines.new ≡ bounds.entries) × ((xs : List Pair) → Listed list.now xs → Found list.now xs second c at.new lines.new result) }
{
    let mut m = 0;
    let mut from = 0;
    while from < list.len() {
        let end = line_end(list, from);
        if end == list.len() {
            return None;
        }
        let p = position_at(list, from, end, second);
        if c <= p {
            return None;
        }
        at[m] = p as u16;
        lines[m] = from as u16;
        m += 1;
        from = end + 1;
    }
    Some(m)
}

// The second field of the line that starts here, a part of the list.
fn second_field(list: &[u8], from: usize) -> &[u8]
    ensures { (f g : Bytes) (ls : List Line) → lines_from list.now from ≡ (f ∷ g ∷ []) ∷ ls → result.now ≡ g }
{
    let end = line_end(list, from);
    if end == list.len() {
        return &list[..0];
    }
    let tab = field_end(list, from, end);
    if tab == end {
        return &list[..0];
    }
    let next = tab + 1;
    &list[next..end]
}

// The term of the constant at a place of the list, after a tab, if it is below m.
fn put_term(list: &[u8], lines: &PerEntry, k: usize, m: usize, w: &mut Writer)
    requires { m ≤ bounds.entries }
    ensures { (xs : List Pair) (second : Bool) (at₀ : List ℕ) → Kept list.now xs second at₀ lines.now m → Wrote w.old w.new (tabbed (second_of (drop k xs))) }
{
    if m <= k {
        return;
    }
    w.put(9);
    w.put_all(second_field(list, wide(lines[k])));
}

// Where each position stands among the first m; a number from m on for a position that isn't there.
fn note_order(at: &PerEntry, m: usize, order: &mut PerEntry)
    requires { (m ≤ bounds.entries) × (length at.now ≡ bounds.entries) × (length order.old ≡ bounds.entries) × (all (λ i. ltb i bounds.entries) (take m at.now) ≡ true) × ((p : ℕ) → p < bounds.entries → m ≤ get_or order.old p 0) }
    ensures { (length order.new ≡ bounds.entries) × Ordered (take m at.now) order.new }
{
    let mut k = m;
    while 0 < k {
        k -= 1;
        order[wide(at[k])] = k as u16;
    }
}

// The terms by rising position, each after a tab: no position is as great as the number of columns.
pub fn put_terms(
    list: &[u8],
    at: &PerEntry,
    lines: &PerEntry,
    m: usize,
    columns: usize,
    w: &mut Writer,
)
    requires { (m ≤ bounds.entries) × (length at.now ≡ bounds.entries) × (columns ≤ bounds.columns) × (all (λ i. ltb i columns) (take m at.now) ≡ true) }
    ensures { (xs : List Pair) → Kept list.now xs false at.now lines.now m → Wrote w.old w.new (tabbed (terms_from xs 0 bounds.columns)) }
{
    let mut order = [256u16; ENTRIES];
    note_order(at, m, &mut order);
    for p in 0..columns {
        put_term(list, lines, wide(order[p]), m, w);
    }
}
