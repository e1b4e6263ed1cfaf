// The pushes of standardize_variables: which bases get a prefix and a number.
ghost use Rattle.std.specs.Prelude.{◌≡◌, [], ◌∷◌, cond, false, ℕ, ◌+◌, ◌≤◌, ◌<◌, length, get_or, eqb};
ghost use Rattle.text.specs.Text.{piece as piece_of};
ghost use Rattle.algebra.specs.Tally.{bounds};
ghost use Rattle.names.specs.bridge.Names.{Hinted, starts_of, sizes_of, names_in, name_in};
ghost use Rattle.scoping.specs.Label.{base as base_of};
ghost use Rattle.scoping.specs.bridge.Pushes.{contains, pushed, pushes};
ghost use Rattle.scoping.specs.bridge.Flagged.{chosen};
ghost use Rattle.naming.specs.bridge.Code.{book_of, StoredIn, LabelAt, Room, numbered_by, names_at};

use crate::label::{base_size, ends_in_label};
use crate::numbers::wide;
use algebra::PerEntry;
use names::{Entry, add_name, find_name};
use text::piece;

// The entry of the base of which a name is the Label, or m.
pub fn find_label(
    f: &[u8],
    text: &[u8],
    listed: &[Entry; 1024],
    hints: &[u16; 2048],
    m: usize,
) -> usize
    requires { (m ≤ 1024) × Hinted hints.now (names_in text.now listed.now m) }
    ensures { LabelAt f.now text.now (starts_of listed.now) (sizes_of listed.now) m result }
{
    if ends_in_label(f) {
        let e = f.len() - 5;
        return find_name(&f[..e], text, listed, hints, m);
    }
    m
}

// The size of the base of the name at entry k.
fn base_at(text: &[u8], table: &[Entry; 1024], k: usize) -> usize
    requires { k < 1024 }
    ensures { (piece_of (get_or (starts_of table.now) k 0) result text.now ≡ base_of (name_in text.now table.now k)) × (result < 65536) }
{
    let e = table[k];
    let from = wide(e[0]);
    let size = wide(e[1]);
    base_size(piece(text, from, size))
}

// What the next push gets: its prefix, its place, its number.
#[derive(Clone, Copy)]
struct Pass {
    prefix: u8,
    m: usize,
    count: usize,
}

// One push more, for the base of the name at entry k, unless there is a push for that base.
fn push(
    text: &[u8],
    table: &[Entry; 1024],
    k: usize,
    next: Pass,
    listed: &mut [Entry; 1024],
    hints: &mut [u16; 2048],
    marks: &mut [Entry; 1024],
) -> usize
    requires { (k < 1024) × (next.count < 65536) × StoredIn text.now listed.old hints.old marks.old next.m × (contains (base_of (name_in text.now table.now k)) (book_of text.now listed.old marks.old next.m) ≡ false → next.m < 1024) }
    ensures { (book_of text.now listed.new marks.new result ≡ pushed next.prefix next.count (name_in text.now table.now k) (book_of text.now listed.old marks.old next.m)) × StoredIn text.now listed.new hints.new marks.new result }
{
    let m = next.m;
    let from = wide(table[k][0]);
    let size = base_at(text, table, k);
    if find_label(piece(text, from, size), text, listed, hints, m) < m {
        return m;
    }
    let r = add_name(text, from, size, listed, hints, m);
    if r == m {
        return m;
    }
    marks[m] = [next.prefix as u16, next.count as u16];
    r
}

// Pushes for the names at the first m entries of a list, under the prefix j, numbered by their places in the list.
pub fn push_joins(
    text: &[u8],
    table: &[Entry; 1024],
    joins: &PerEntry,
    m: usize,
    listed: &mut [Entry; 1024],
    hints: &mut [u16; 2048],
    marks: &mut [Entry; 1024],
) -> usize
    requires { StoredIn text.now listed.old hints.old marks.old 0 × (m ≤ bounds.entries) × ((i : ℕ) → i < m → get_or joins.now i 0 < 1024) }
    ensures { (book_of text.now listed.new marks.new result ≡ pushes 106 0 (names_at text.now (starts_of table.now) (sizes_of table.now) joins.now m 0) []) × StoredIn text.now listed.new hints.new marks.new result }
{
    let mut d = 0;
    for i in 0..m {
        let k = wide(joins[i]);
        let next = Pass {
            prefix: b'j',
            m: d,
            count: i,
        };
        d = push(text, table, k, next, listed, hints, marks);
    }
    d
}

// A push for the name at entry k if its flag is set: the number grows then, also where the base is there.
fn push_one(
    text: &[u8],
    table: &[Entry; 1024],
    k: usize,
    flag: u8,
    next: Pass,
    listed: &mut [Entry; 1024],
    hints: &mut [u16; 2048],
    marks: &mut [Entry; 1024],
) -> Pass
    requires { (k < 1024) × (next.count < 65536) × StoredIn text.now listed.old hints.old marks.old next.m × (contains (base_of (name_in text.now table.now k)) (book_of text.now listed.old marks.old next.m) ≡ false → next.m < 1024) }
    ensures { (book_of text.now listed.new marks.new result.m ≡ pushes next.prefix next.count (cond (eqb flag 0) [] (name_in text.now table.now k ∷ [])) (book_of text.now listed.old marks.old next.m)) × (result.prefix ≡ next.prefix) × (result.count ≡ next.count + length (cond (eqb flag 0) [] (name_in text.now table.now k ∷ []))) × StoredIn text.now listed.new hints.new marks.new result.m }
{
    if flag == 0 {
        return next;
    }
    let prefix = next.prefix;
    let count = next.count;
    let m = push(text, table, k, next, listed, hints, marks);
    Pass {
        prefix,
        m,
        count: count + 1,
    }
}

// Pushes for the names of the table whose flags from `base` on are set, in the table's order.
fn push_flagged(
    text: &[u8],
    table: &[Entry; 1024],
    n: usize,
    flags: &[u8; 2048],
    base: usize,
    first: Pass,
    listed: &mut [Entry; 1024],
    hints: &mut [u16; 2048],
    marks: &mut [Entry; 1024],
) -> Pass
    requires { (n ≤ 1024) × (base ≤ 1024) × (first.count ≤ 1024) × StoredIn text.now listed.old hints.old marks.old first.m × Room (book_of text.now listed.old marks.old first.m) (names_in text.now table.now n) }
    ensures { (book_of text.now listed.new marks.new result.m ≡ pushes first.prefix first.count (chosen base flags.now (names_in text.now table.now n)) (book_of text.now listed.old marks.old first.m)) × (result.prefix ≡ first.prefix) × (result.count ≡ first.count + length (chosen base flags.now (names_in text.now table.now n))) × (result.count ≤ first.count + n) × Room (book_of text.now listed.new marks.new result.m) (names_in text.now table.now n) × StoredIn text.now listed.new hints.new marks.new result.m }
{
    let mut p = first;
    for k in 0..n {
        p = push_one(text, table, k, flags[base + k], p, listed, hints, marks);
    }
    p
}

// Pushes for all names of the table, under a prefix: those in scope, then the hidden ones.
pub fn push_all(
    text: &[u8],
    table: &[Entry; 1024],
    n: usize,
    flags: &[u8; 2048],
    prefix: u8,
    listed: &mut [Entry; 1024],
    hints: &mut [u16; 2048],
    marks: &mut [Entry; 1024],
    m: usize,
) -> usize
    requires { (n ≤ 1024) × StoredIn text.now listed.old hints.old marks.old m × Room (book_of text.now listed.old marks.old m) (names_in text.now table.now n) }
    ensures { (book_of text.now listed.new marks.new result ≡ pushes prefix 0 (numbered_by flags.now (names_in text.now table.now n)) (book_of text.now listed.old marks.old m)) × StoredIn text.now listed.new hints.new marks.new result }
{
    let first = Pass {
        prefix,
        m,
        count: 0,
    };
    let a = push_flagged(text, table, n, flags, 0, first, listed, hints, marks);
    let b = push_flagged(text, table, n, flags, 1024, a, listed, hints, marks);
    b.m
}
