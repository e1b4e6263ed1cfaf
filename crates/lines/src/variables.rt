// Fields that may be variables: each goes into the table, and where it stands is noted.
ghost use Rattle.std.specs.Prelude.{◌≡◌, ℕ, ◌+◌, ◌≤◌, ◌<◌, true, List, [], ◌∷◌, length};
ghost use Rattle.text.specs.Text.{piece as piece_of};
ghost use Rattle.text.specs.Field.{variable, is_kind};
ghost use Rattle.text.specs.bridge.Code.{kind_at};
ghost use Rattle.algebra.specs.Tally.{notes};
ghost use Rattle.algebra.specs.bridge.Table.{Slot, term};
ghost use Rattle.names.specs.bridge.Names.{HoldsIn};
ghost use Rattle.lines.specs.bridge.Line.{take_field, take_times};
ghost use Rattle.lines.specs.bridge.Steps.{InLine, left_at, Follows, rest_of, rest_in, terms_of, terms_in};
ghost use Rattle.lines.specs.bridge.Spotted.{mark_at};
ghost use Rattle.lines.specs.bridge.Stored.{Placed, Adds, found, one_spot, store_of};

use crate::fields::Spot;
use cursor::Cursor;
use names::{Entry, keep_name};
use text::{is_kind, is_var, piece};

// The number of the kind of variables.
const VARIABLE: u8 = 0;

// How many names are in the table, and how many spots were noted.
#[derive(Clone, Copy)]
pub struct Counts {
    pub names: usize,
    pub spots: usize,
}

// A cursor, and how many names and spots there are.
#[derive(Clone, Copy)]
pub struct Noted {
    pub cursor: Cursor,
    pub names: usize,
    pub spots: usize,
}

// Notes a spot where there is room.
fn put_spot(spots: &mut [Spot], k: usize, at: usize, entry: usize, mark: u8) -> usize
    requires { (at ≤ 16384) × (entry < 1025) }
    ensures { Placed spots.old k (at ∷ entry ∷ mark ∷ []) spots.new result }
{
    if k < spots.len() {
        spots[k] = [at as u16, entry as u16, mark as u16];
        return k + 1;
    }
    k
}

// Keeps a field in the table and notes where it stands, if it is a variable.
fn note_field(
    s: &[u8],
    from: usize,
    size: usize,
    mark: u8,
    table: &mut [Entry; 1024],
    hints: &mut [u16; 2048],
    n: usize,
    spots: &mut [Spot],
    k: usize,
) -> Counts
    requires { (from ≤ 16384) × (size ≤ 16384) × (from + size < length s.now) }
    ensures keeps { (want : List (List ℕ)) → HoldsIn s.now table.old hints.old n want → HoldsIn s.now table.new hints.new result.names (notes (piece_of from size s.now ∷ []) want) }
    ensures adds { Adds s.now (store_of table.old n spots.old k) from (store_of table.new result.names spots.new result.spots) (from + size + 1) (one_spot (mark_at mark) from (piece_of from size s.now)) [] }
{
    if is_var(piece(s, from, size)) {
        let l = keep_name(s, from, size, table, hints, n);
        let j = put_spot(spots, k, from, l.entry, mark);
        return Counts {
            names: l.names,
            spots: j,
        };
    }
    Counts { names: n, spots: k }
}

// A field is a variable, and may be one by its kind: so are most terms, which then need no further look.
fn is_var_of(kind: u8, f: &[u8]) -> bool
    ensures { result ≡ true → is_kind (kind_at kind) f.now ≡ true }
{
    if 3 < kind {
        return false;
    }
    is_var(f)
}

// A term of a kind, whose variable goes into the table and is noted. It is compiled into both its callers: as a call it takes up
// to 15 % more instructions of a whole check.
#[inline(always)]
pub fn term_field(
    s: &[u8],
    c: Cursor,
    kind: u8,
    mark: u8,
    table: &mut [Entry; 1024],
    hints: &mut [u16; 2048],
    n: usize,
    spots: &mut [Spot],
    k: usize,
) -> Noted
    requires { InLine s.now c }
    ensures follows { Follows s.now c (rest_of (take_field (term (kind_at kind)) (left_at s.now c))) result.cursor }
    ensures keeps { (want : List (List ℕ)) → HoldsIn s.now table.old hints.old n want → HoldsIn s.now table.new hints.new result.names (notes (terms_of (take_field (term (kind_at kind)) (left_at s.now c))) want) }
    ensures adds { result.cursor.at ≤ c.end + 1 → (ss : List Slot) → Adds s.now (store_of table.old n spots.old k) c.at (store_of table.new result.names spots.new result.spots) result.cursor.at (found (mark_at mark) (term (kind_at kind) ∷ ss) s.now c) (found (mark_at mark) ss s.now result.cursor) }
{
    let at = c.at;
    let Some(field) = c.next_field(s) else {
        return Noted {
            cursor: c.failed(),
            names: n,
            spots: k,
        };
    };
    let to = field.end;
    if is_var_of(kind, &s[at..to]) {
        let m = note_field(s, at, to - at, mark, table, hints, n, spots, k);
        return Noted {
            cursor: field.behind,
            names: m.names,
            spots: m.spots,
        };
    }
    if is_kind(kind, &s[at..to]) {
        let m = note_field(s, at, to - at, mark, table, hints, n, spots, k);
        return Noted {
            cursor: field.behind,
            names: m.names,
            spots: m.spots,
        };
    }
    Noted {
        cursor: c.failed(),
        names: n,
        spots: k,
    }
}

// So many variables, which go into the table and are noted.
pub fn variable_fields(
    s: &[u8],
    c: Cursor,
    times: usize,
    mark: u8,
    table: &mut [Entry; 1024],
    hints: &mut [u16; 2048],
    n: usize,
    spots: &mut [Spot],
    k: usize,
) -> Noted
    requires { InLine s.now c × (c.at ≤ c.end + 1) }
    ensures follows { Follows s.now c (rest_in (take_times times (term variable) (left_at s.now c))) result.cursor }
    ensures keeps { result.cursor.at ≤ c.end + 1 → (want : List (List ℕ)) → HoldsIn s.now table.old hints.old n want → HoldsIn s.now table.new hints.new result.names (notes (terms_in (take_times times (term variable) (left_at s.now c))) want) }
    ensures adds { result.cursor.at ≤ c.end + 1 → Adds s.now (store_of table.old n spots.old k) c.at (store_of table.new result.names spots.new result.spots) result.cursor.at (found (mark_at mark) [] s.now c) (found (mark_at mark) [] s.now result.cursor) }
{
    let mut d = c;
    let mut m = n;
    let mut j = k;
    for done in 0..times {
        let t = term_field(s, d, VARIABLE, mark, table, hints, m, spots, j);
        d = t.cursor;
        if d.end + 1 < d.at {
            return t;
        }
        m = t.names;
        j = t.spots;
    }
    Noted {
        cursor: d,
        names: m,
        spots: j,
    }
}
