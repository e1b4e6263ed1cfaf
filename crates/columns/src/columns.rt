// A project's columns under their new names, and which of them go: a mask has one bit a column, the lowest for the first. The columns
// are the first variables of a project's tree.
ghost use Rattle.std.specs.Prelude.{◌≡◌, ◌-◌, ◌≤◌, ◌<◌, [], ◌∷◌, map, true, false, cond, ◌||◌, length, take, get_or, ltb};
ghost use Rattle.std.specs.Int.Count.{ones};
ghost use Rattle.text.specs.Text.{same};
ghost use Rattle.emit.specs.bridge.Writer.{Wrote};
ghost use Rattle.walking.specs.bridge.Walk.{tabbed};
ghost use Rattle.walking.specs.bridge.Code.{Inside};
ghost use Rattle.naming.specs.bridge.New.{named};
ghost use Rattle.scoping.specs.Sets.{all};
ghost use Rattle.algebra.specs.Valid.{mem};
ghost use Rattle.algebra.specs.Tally.{bounds};
ghost use Rattle.merging.specs.Names.{from as countFrom, is_at};
ghost use Rattle.mask.specs.bridge.Mask.{mask_of};
ghost use Rattle.mask.specs.bridge.Words.{mask_value};
ghost use Rattle.columns.specs.bridge.Columns.{new_in, columns_of, picked, gone_bits};

use algebra::PerEntry;
use emit::Writer;
use lines::fields::Spot;
use mask::{Mask, bit_at, count_ones, empty, with_bit, with_one};
use names::{Entry, wide};
use naming::numbers::put_name;
use text::{equal, piece};

// What the name at an entry becomes: a generated name, or itself.
fn put_new(text: &[u8], table: &[Entry; 1024], news: &[Entry; 1024], entry: usize, w: &mut Writer)
    requires { entry < 1024 }
    ensures { Wrote w.old w.new (new_in text.now table.now news.now entry) }
{
    let e = news[entry];
    if e[1] == 0 {
        let f = table[entry];
        w.put_all(piece(text, wide(f[0]), wide(f[1])));
        return;
    }
    put_name(w, e);
}

// A column that was chosen, after a tab.
fn put_column(
    text: &[u8],
    table: &[Entry; 1024],
    news: &[Entry; 1024],
    entry: usize,
    chosen: bool,
    w: &mut Writer,
)
    requires { entry < 1024 }
    ensures { Wrote w.old w.new (tabbed (cond chosen (new_in text.now table.now news.now entry ∷ []) [])) }
{
    if !chosen {
        return;
    }
    w.put(9);
    put_new(text, table, news, entry, w);
}

// One less where a column was chosen.
fn less(left: usize, chosen: bool) -> usize
    requires { chosen ≡ true → 0 < left }
    ensures { result ≡ cond chosen (left - 1) left }
{
    if chosen {
        return left - 1;
    }
    left
}

// The columns whose bits are `bit`, of which there are so many, each after a tab. All columns are the first so many variables.
pub fn put_columns(
    text: &[u8],
    table: &[Entry; 1024],
    news: &[Entry; 1024],
    spots: &[Spot],
    columns: usize,
    mask: Mask,
    bit: u64,
    count: usize,
    w: &mut Writer,
)
    requires { Inside 1024 spots.now columns × (count ≡ length (picked bit (mask_value mask) (columns_of text.now table.now news.now spots.now columns))) }
    ensures { Wrote w.old w.new (tabbed (picked bit (mask_value mask) (columns_of text.now table.now news.now spots.now columns))) }
{
    let mut left = count;
    let mut i = 0;
    while 0 < left {
        let s = spots[i];
        let chosen = bit_at(mask, i) == bit;
        put_column(text, table, news, wide(s[1]), chosen, w);
        left = less(left, chosen);
        i += 1;
    }
}

// The header's width: as many columns as there are, less the mask's ones.
pub fn width(c: usize, mask: Mask) -> usize
    requires { ones (mask_value mask) ≤ c }
    ensures { result ≡ c - ones (mask_value mask) }
{
    c - count_ones(mask)
}

// The mask of the positions, all below c: each sets its bit.
pub fn position_mask(at: &PerEntry, m: usize, c: usize) -> Mask
    requires { (m ≤ bounds.entries) × (length at.now ≡ bounds.entries) × (c ≤ bounds.columns) × (all (λ i. ltb i c) (take m at.now) ≡ true) }
    ensures { mask_value result ≡ mask_of (map (λ i. is_at i (take m at.now)) (countFrom 0 c)) }
{
    let mut mask = empty();
    let mut k = m;
    while 0 < k {
        k -= 1;
        mask = with_one(mask, wide(at[k]));
    }
    mask
}

// A generated name in front of the room: its size.
fn write_name(e: Entry, room: &mut [u8; 12]) -> usize
    ensures fits { result ≤ 12 }
    ensures stands { take result room.new ≡ named (get_or e 0 0) (get_or e 1 0) }
{
    let mut w = Writer::new(room, 0);
    put_name(&mut w, e);
    w.at
}

// A generated name is this one.
fn is_generated(e: Entry, name: &[u8]) -> bool
    ensures { result ≡ same name.now (named (get_or e 0 0) (get_or e 1 0)) }
{
    let mut room = [0u8; 12];
    let size = write_name(e, &mut room);
    equal(name, &room[..size])
}

// The name is what the name at an entry becomes, and its column is marked.
fn is_column(
    text: &[u8],
    table: &[Entry; 1024],
    news: &[Entry; 1024],
    entry: usize,
    marked: bool,
    name: &[u8],
) -> bool
    requires { entry < 1024 }
    ensures { result ≡ cond marked (same name.now (new_in text.now table.now news.now entry)) false }
{
    if !marked {
        return false;
    }
    let e = news[entry];
    if e[1] == 0 {
        let f = table[entry];
        return equal(name, piece(text, wide(f[0]), wide(f[1])));
    }
    is_generated(e, name)
}

// The name is that of a column whose bit is 1.
fn is_marked(
    text: &[u8],
    table: &[Entry; 1024],
    news: &[Entry; 1024],
    spots: &[Spot],
    columns: usize,
    mask: Mask,
    name: &[u8],
) -> bool
    requires { Inside 1024 spots.now columns }
    ensures { result ≡ mem name.now (picked 1 (mask_value mask) (columns_of text.now table.now news.now spots.now columns)) }
{
    for i in 0..columns {
        let s = spots[i];
        let marked = bit_at(mask, i) == 1;
        if is_column(text, table, news, wide(s[1]), marked, name) {
            return true;
        }
    }
    false
}

// A column goes that carries a constant, or whose new name is that of a column of the other side whose bit is 1.
fn goes(
    text: &[u8],
    table: &[Entry; 1024],
    news: &[Entry; 1024],
    entry: usize,
    constant: bool,
    other: &[u8],
    other_table: &[Entry; 1024],
    other_news: &[Entry; 1024],
    other_spots: &[Spot],
    other_columns: usize,
    marks: Mask,
) -> bool
    requires { (entry < 1024) × Inside 1024 other_spots.now other_columns }
    ensures { result ≡ (constant || mem (new_in text.now table.now news.now entry) (picked 1 (mask_value marks) (columns_of other.now other_table.now other_news.now other_spots.now other_columns))) }
{
    if constant {
        return true;
    }
    let e = news[entry];
    if e[1] == 0 {
        let f = table[entry];
        return is_marked(
            other,
            other_table,
            other_news,
            other_spots,
            other_columns,
            marks,
            piece(text, wide(f[0]), wide(f[1])),
        );
    }
    let mut room = [0u8; 12];
    let size = write_name(e, &mut room);
    is_marked(
        other,
        other_table,
        other_news,
        other_spots,
        other_columns,
        marks,
        &room[..size],
    )
}

// The mask with a bit more for each column whose name is that of a column of the other side that its mask has.
pub fn joined_mask(
    text: &[u8],
    table: &[Entry; 1024],
    news: &[Entry; 1024],
    spots: &[Spot],
    columns: usize,
    mask: Mask,
    other: &[u8],
    other_table: &[Entry; 1024],
    other_news: &[Entry; 1024],
    other_spots: &[Spot],
    other_columns: usize,
    marks: Mask,
) -> Mask
    requires { Inside 1024 spots.now columns × (columns ≤ bounds.columns) × Inside 1024 other_spots.now other_columns }
    ensures { mask_value result ≡ mask_of (gone_bits (mask_value mask) (picked 1 (mask_value marks) (columns_of other.now other_table.now other_news.now other_spots.now other_columns)) (columns_of text.now table.now news.now spots.now columns)) }
{
    let mut gone = empty();
    for i in 0..columns {
        let s = spots[i];
        let constant = bit_at(mask, i) == 1;
        let go = goes(
            text,
            table,
            news,
            wide(s[1]),
            constant,
            other,
            other_table,
            other_news,
            other_spots,
            other_columns,
            marks,
        );
        gone = with_bit(gone, i, go);
    }
    gone
}
