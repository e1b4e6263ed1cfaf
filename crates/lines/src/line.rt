// One line: its word, the fields that the word's row of the table asks for, and the bounds.
ghost use Rattle.std.specs.Prelude.{◌≡◌, ℕ, ◌+◌, ◌≤◌, List, [], cond, true, eqb};
ghost use Rattle.algebra.specs.Tally.{notes, Tally, bounds};
ghost use Rattle.names.specs.bridge.Names.{starts_of, sizes_of, HoldsIn};
ghost use Rattle.words.specs.bridge.Code.{row_of, fits_in};
ghost use Rattle.words.specs.bridge.Words.{Worded};
ghost use Rattle.lines.specs.bridge.Line.{take_line};
ghost use Rattle.lines.specs.bridge.Says.{Says, LineIs, Small};
ghost use Rattle.lines.specs.bridge.Steps.{InLine, left_at, terms_in};
ghost use Rattle.lines.specs.bridge.Spotted.{mark_at};
ghost use Rattle.lines.specs.bridge.Stored.{Adds, found, LineNotes, store_of};

use crate::fields::Spot;
use crate::slots::{slots, tail};
use crate::sorts::opens_level;
use crate::wanted::Wanted;
use algebra::{COLUMNS, Fault};
use cursor::Cursor;
use names::Entry;
use words::table::{WordRow, row_at, word_by};
use words::{Row, word_at};

// The fields of a whole line behind its word. They are all taken exactly if the cursor stands one past the line's end.
#[derive(Clone, Copy)]
pub struct Said {
    pub cursor: Cursor,
    pub names: usize,
    pub spots: usize,
    pub first: usize,
    pub second: usize,
    pub columns: usize,
}

fn fields(
    s: &[u8],
    c: Cursor,
    row: Row,
    w: Wanted,
    table: &mut [Entry; 1024],
    hints: &mut [u16; 2048],
    n: usize,
    spots: &mut [Spot],
    k: usize,
) -> Said
    requires { InLine s.now c × (c.at ≤ c.end + 1) × (fits_in 3 row.fields ≡ true) }
    ensures says { Says c (take_line (row_of row) w.width (left_at s.now c)) (row_of row).tail result.cursor result.first result.second result.columns }
    ensures keeps { result.cursor.at ≡ c.end + 1 → (want : List (List ℕ)) → HoldsIn s.now table.old hints.old n want → HoldsIn s.now table.new hints.new result.names (notes (terms_in (take_line (row_of row) w.width (left_at s.now c))) want) }
    ensures adds { result.cursor.at ≡ c.end + 1 → row.behind ≤ 3 → Adds s.now (store_of table.old n spots.old k) c.at (store_of table.new result.names spots.new result.spots) result.cursor.at (found (mark_at w.mark) (row_of row).slots s.now c) (found (mark_at w.mark) [] s.now result.cursor) }
{
    let a = slots(s, c, row, w.mark, table, hints, n, spots, k);
    let ca = a.cursor;
    if ca.end + 1 < ca.at {
        return Said {
            cursor: ca,
            names: a.names,
            spots: a.spots,
            first: a.first,
            second: a.second,
            columns: 0,
        };
    }
    let t = tail(s, ca, row.behind, w, table, hints, a.names, spots, a.spots);
    let ct = t.cursor;
    Said {
        cursor: ct,
        names: t.names,
        spots: t.spots,
        first: a.first,
        second: a.second,
        columns: t.number,
    }
}

// How many spots there are behind a line: where the names of a line stay as they are, none is noted.
fn spots_behind(flag: u8, before: usize, after: usize) -> usize
    ensures { result ≡ cond (eqb flag 2) before after }
{
    if flag == 2 {
        return before;
    }
    after
}

// What a good line asks for: its word's number in the table, its row, its first two numbers, and the numbers of names and spots kept so far.
#[derive(Clone, Copy)]
pub struct Asked {
    pub number: usize,
    pub row: Row,
    pub first: usize,
    pub second: usize,
    pub names: usize,
    pub spots: usize,
}

// A line that is wanted, after so many others: its word, its fields, and then the bounds.
pub fn read_line(
    s: &[u8],
    c: Cursor,
    w: Wanted,
    lines: usize,
    words: &[WordRow; 56],
    table: &mut [Entry; 1024],
    hints: &mut [u16; 2048],
    n: usize,
    spots: &mut [Spot],
    k: usize,
) -> Result<Asked, Fault>
    requires { InLine s.now c × (c.at ≤ c.end) × (w.sort ≤ 11) × Worded words.now }
    ensures line_is { (m : Tally) → m.lines ≡ lines → m.wide ≤ bounds.columns → HoldsIn s.now table.old hints.old n m.names → LineIs s.now (starts_of table.new) (sizes_of table.new) hints.new c w.sort w.level w.width m result }
    ensures small { Small words.now c w.sort w.level lines result }
    ensures notes { w.sort ≤ 7 → LineNotes s.now (starts_of table.old) (sizes_of table.old) n spots.old k (starts_of table.new) (sizes_of table.new) spots.new c w.sort w.mark result }
{
    let word = word_at(s, c.at, c.end);
    let number = word_by(words, w.sort, word.key);
    let Some(row) = row_at(words, number) else {
        return Err(Fault::Malformed);
    };
    let f = fields(s, c.behind(word.end), row, w, table, hints, n, spots, k);
    let d = f.cursor;
    let j = spots_behind(row.flag, k, f.spots);
    if d.at != d.end + 1 {
        return Err(Fault::Malformed);
    }
    if 2048 <= lines {
        return Err(Fault::OverBound);
    }
    if COLUMNS < f.columns {
        return Err(Fault::OverBound);
    }
    if 1024 < f.names {
        return Err(Fault::OverBound);
    }
    if w.level == 0 {
        if opens_level(w.sort) {
            return Err(Fault::OverBound);
        }
    }
    Ok(Asked {
        number,
        row,
        first: f.first,
        second: f.second,
        names: f.names,
        spots: j,
    })
}
