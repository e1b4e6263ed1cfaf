// The places of a tree's variables, as its check noted them: the text written under new names, and which names stand visible or covered.
ghost use Rattle.std.specs.Prelude.{◌≡◌, ◌≤◌, ◌<◌, List, length, get_or, drop};
ghost use Rattle.text.specs.Text.{Bytes};
ghost use Rattle.names.specs.bridge.Names.{starts_of, sizes_of, names_in, name_in};
ghost use Rattle.emit.specs.bridge.Writer.{Wrote, WroteBy};
ghost use Rattle.naming.specs.bridge.New.{spelled};
ghost use Rattle.scoping.specs.bridge.Sets.{Once};
ghost use Rattle.lines.specs.bridge.Spotted.{mark_at, spots_of};
ghost use Rattle.walking.specs.bridge.Walk.{flagged};
ghost use Rattle.walking.specs.bridge.Code.{renames, Inside, Marked, NextMarked};
ghost use Rattle.walking.specs.bridge.Rewritten.{rewritten, flag_spots, Stands};

use emit::Writer;
use lines::fields::Spot;
use names::{Entry, wide};
use naming::numbers::put_name;
use text::piece;

// The first variable from number i on that is marked as becoming another; or k.
fn next_renamed(spots: &[Spot], i: usize, k: usize) -> usize
    requires { (k ≤ length spots.now) × (i ≤ k) }
    ensures { NextMarked spots.now i k result }
{
    for j in i..k {
        let s = spots[j];
        if s[2] == 4 {
            return j;
        }
    }
    k
}

// What the name at an entry becomes: a piece of the pool, or a generated name where there is no pool.
fn put_new(pool: &[u8], news: &[Entry; 1024], entry: usize, w: &mut Writer)
    requires { entry < 1024 }
    ensures { Wrote w.old w.new (spelled pool.now (get_or (starts_of news.now) entry 0) (get_or (sizes_of news.now) entry 0)) }
{
    let e = news[entry];
    if pool.len() == 0 {
        put_name(w, e);
        return;
    }
    w.put_all(piece(pool, wide(e[0]), wide(e[1])));
}

// How many bytes the name at an entry has.
fn name_size(text: &[u8], table: &[Entry; 1024], entry: usize) -> usize
    requires { entry < 1024 }
    ensures { result ≡ length (name_in text.now table.now entry) }
{
    let e = table[entry];
    piece(text, wide(e[0]), wide(e[1])).len()
}

// The text between two places, the variables from number i up to k under their new names, as they are marked. All that stays is copied in as few pieces as can be.
pub fn put_renamed(
    text: &[u8],
    from: usize,
    to: usize,
    spots: &[Spot],
    i: usize,
    k: usize,
    table: &[Entry; 1024],
    n: usize,
    pool: &[u8],
    news: &[Entry; 1024],
    w: &mut Writer,
)
    requires { (n ≤ 1024) × Once (names_in text.now table.now n) × Inside n spots.now k × Marked (sizes_of news.now) spots.now k × (i ≤ k) × Stands text.now from to (drop i (spots_of (names_in text.now table.now n) spots.now k)) }
    ensures { WroteBy w.old w.new (rewritten (renames text.now (starts_of table.now) (sizes_of table.now) n pool.now (starts_of news.now) (sizes_of news.now)) text.now (drop i (spots_of (names_in text.now table.now n) spots.now k)) from to) }
{
    let mut done = from;
    let mut j = next_renamed(spots, i, k);
    while j < k {
        let s = spots[j];
        let start = wide(s[0]);
        let entry = wide(s[1]);
        w.put_all(&text[done..start]);
        put_new(pool, news, entry, w);
        done = start + name_size(text, table, entry);
        j = next_renamed(spots, j + 1, k);
    }
    w.put_all(&text[done..to]);
}

// Notes the name at an entry of the table as standing visible or covered.
fn note(flags: &mut [u8; 2048], mark: u16, k: usize)
    requires { k < 1024 }
    ensures { flags.new ≡ flagged (mark_at mark) k flags.old }
{
    if mark == 0 {
        flags[k] = 1;
        return;
    }
    if mark == 1 {
        flags[1024 + k] = 1;
    }
}

// Notes the names of the first k variables.
pub fn note_places(spots: &[Spot], k: usize, flags: &mut [u8; 2048])
    requires { Inside 1024 spots.now k }
    ensures { (ns : List Bytes) → Once ns → Inside (length ns) spots.now k → flags.new ≡ flag_spots ns (spots_of ns spots.now k) flags.old }
{
    for j in 0..k {
        let s = spots[j];
        note(flags, s[2], wide(s[1]));
    }
}
