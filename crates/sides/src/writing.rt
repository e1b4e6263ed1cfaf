// The lines of a side, written: its inner pattern under new names, with its constants bound.
ghost use Rattle.std.specs.Prelude.{◌≡◌, ℕ, ◌≤◌, List, Bool, true, false, length, take, ltb};
ghost use Rattle.std.specs.Int.Count.{ones};
ghost use Rattle.text.specs.Text.{Line, text_of};
ghost use Rattle.algebra.specs.Query.{Pair};
ghost use Rattle.emit.specs.bridge.Writer.{Left};
ghost use Rattle.algebra.specs.Tally.{bounds};
ghost use Rattle.scoping.specs.Sets.{all};
ghost use Rattle.merging.specs.Request.{Projection};
ghost use Rattle.walking.specs.bridge.Code.{Inside};
ghost use Rattle.mask.specs.bridge.Words.{mask_value};
ghost use Rattle.columns.specs.bridge.Columns.{columns_of, picked};
ghost use Rattle.columns.specs.bridge.Listed.{Kept, terms_from};
ghost use Rattle.sides.specs.bridge.Side.{IsNamed, SideWritten, join_line, values_lines};

use crate::side::FoundSide;
use columns::columns::put_columns;
use columns::list::put_terms;
use emit::Writer;
use lines::fields::Spot;
use mask::count_ones;
use names::Entry;
use naming::numbers::put_decimal;
use walking::places::put_renamed;

const JOIN: [u8; 5] = *b"join\n";

const VALUES: [u8; 7] = *b"values\t";

const COLS: [u8; 7] = *b"\t1\ncols";

const ROW: [u8; 4] = *b"\nrow";

// With constants, the side stands under a join.
fn put_join(m: usize, w: &mut Writer)
    ensures { (t : List Line) → Left w.old w.new (text_of (join_line m t)) (text_of t) }
{
    if m != 0 {
        w.put_all(&JOIN);
    }
}

// With constants, a Values of one row: their columns and their terms.
fn put_values(
    text: &[u8],
    table: &[Entry; 1024],
    news: &[Entry; 1024],
    spots: &[Spot],
    found: FoundSide,
    constants: &[u8],
    w: &mut Writer,
)
    requires { (found.outline.constants ≤ bounds.entries) × (length found.places.at ≡ bounds.entries) × (found.outline.columns ≤ bounds.columns) × (all (λ i. ltb i found.outline.columns) (take found.outline.constants found.places.at) ≡ true) × Inside 1024 spots.now found.outline.columns × (ones (mask_value found.outline.constant) ≡ length (picked 1 (mask_value found.outline.constant) (columns_of text.now table.now news.now spots.now found.outline.columns))) }
    ensures { (ks : List Pair) → Kept constants.now ks false found.places.at found.places.starts found.outline.constants → (t : List Line) → Left w.old w.new (text_of (values_lines found.outline.constants (ones (mask_value found.outline.constant)) (picked 1 (mask_value found.outline.constant) (columns_of text.now table.now news.now spots.now found.outline.columns)) (terms_from ks 0 bounds.columns) t)) (text_of t) }
{
    let outline = found.outline;
    if outline.constants == 0 {
        return;
    }
    let places = found.places;
    let positions = places.at;
    let starts = places.starts;
    let mask = outline.constant;
    let count = count_ones(mask);
    let columns = outline.columns;
    w.put_all(&VALUES);
    put_decimal(w, count);
    w.put_all(&COLS);
    put_columns(text, table, news, spots, columns, mask, 1, count, w);
    w.put_all(&ROW);
    put_terms(
        constants,
        &positions,
        &starts,
        outline.constants,
        columns,
        w,
    );
    w.put(10);
}

// The lines of a side whose tree was renamed: its inner pattern under new names, and its constants bound.
pub fn put_side(
    text: &[u8],
    table: &[Entry; 1024],
    spots: &[Spot],
    news: &[Entry; 1024],
    constants: &[u8],
    found: FoundSide,
    w: &mut Writer,
)
    requires { (prefix : ℕ) × (second : Bool) × (x : Projection) × (js : List Pair) × (ks : List Pair) × IsNamed text.now table.now spots.now prefix second constants.now news.now found x js ks }
    ensures { SideWritten text.now table.now spots.now constants.now news.now found w.old w.new }
{
    let none = [0u8; 0];
    let outline = found.outline;
    put_join(outline.constants, w);
    put_renamed(
        text,
        outline.inner,
        text.len(),
        spots,
        outline.columns,
        spots.len(),
        table,
        found.standing.n,
        &none,
        news,
        w,
    );
    put_values(text, table, news, spots, found, constants, w);
}
