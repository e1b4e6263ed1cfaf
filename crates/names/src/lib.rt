// The variable table of a text: its distinct names by first place, each an entry, and a hint to each name at the first place
// that was empty from a cheap hash of it on.
#![tactic(auto)]

ghost use Rattle.std.specs.Prelude.{◌≡◌, ℕ, ◌+◌, ◌≤◌, ◌<◌, List, false, true, length, set, replicate, drop};
ghost use Rattle.text.specs.Text.{same, piece as piece_of};
ghost use Rattle.algebra.specs.Valid.{mem};
ghost use Rattle.names.specs.bridge.Names.{hash_of, place_of, starts_of, sizes_of, after as after_of, Leads, Hinted, Free, Grows, Lists, kept, names_in, HoldsIn, name_in};
ghost use Rattle.names.specs.Narrow.{narrow_entry};

use algebra::COLUMNS;
use text::{equal, piece};

// An entry of the table: a name's start and size.
pub type Entry = [u16; 2];

// The columns of one project, each where it stands. No Vec: a call takes nothing from the heap.
pub type Columns = [Entry; COLUMNS];

// A number of the table as a place.
pub fn wide(x: u16) -> usize
    ensures { result ≡ x }
{
    x as usize
}

fn byte(x: u8) -> usize
    ensures { (result ≡ x) × (result < 256) }
{
    x as usize
}

// A table without names. No map: a call takes nothing from the heap, and a text has 1,024 names at most.
pub fn new_table() -> [Entry; 1024]
    ensures { result ≡ replicate 1024 (replicate 2 0) }
{
    [[0; 2]; 1024]
}

// The table is cleared. Hints that are left from earlier names change no answer: a hint is compared with the name itself.
pub fn clear(table: &mut [Entry; 1024])
    ensures { table.new ≡ replicate 1024 (replicate 2 0) }
{
    *table = [[0; 2]; 1024];
}

// An array has as many entries as its type says; nothing is done.
fn all_entries(table: [Entry; 1024])
    ensures { length table ≡ 1024 }
{}

fn all_places(hints: [u16; 2048])
    ensures { length hints ≡ 2048 }
{}

// A table without names: whoever lends it has made it of zeros or cleared it. Nothing is done.
pub fn no_names(table: &mut [Entry; 1024], hints: &mut [u16; 2048])
    ensures { (length (starts_of table.new) ≡ 1024) × (length (sizes_of table.new) ≡ 1024) × (length hints.new ≡ 2048) }
{
    all_entries(*table);
    all_places(*hints);
}

// The hash behind four more bytes, in one step: no product of a byte waits for the one before.
fn hash_four(f: &[u8], i: usize, h: usize) -> usize
    requires { (i + 4 ≤ length f.now) × (h < 4294967296) }
    ensures { (hash_of result (drop (i + 4) f.now) ≡ hash_of h (drop i f.now)) × (result < 4294967296) }
{
    let a = (h + byte(f[i])) * 1345077009;
    let b = byte(f[i + 1]) * 1055306571;
    let c = byte(f[i + 2]) * 637696617;
    let d = byte(f[i + 3]) * 16777619;
    (a + b + c + d) % 4294967296
}

// The hash behind the bytes from a place on, one by one. A byte is added before the product, so that it reaches the top bits.
fn hash_rest(f: &[u8], from: usize, hash: usize) -> usize
    requires { (from ≤ length f.now) × (hash < 4294967296) }
    ensures { (result ≡ hash_of hash (drop from f.now)) × (result < 4294967296) }
{
    let mut h = hash;
    for i in from..f.len() {
        h = ((h + byte(f[i])) * 16777619) % 4294967296;
    }
    h
}

// A name's hash, of 32 bits.
fn hash(f: &[u8]) -> usize
    ensures { (result ≡ hash_of 0 f.now) × (result < 4294967296) }
{
    let mut h: usize = 0;
    let mut i = 0;
    while 4 <= f.len() - i {
        h = hash_four(f, i, h);
        i += 4;
    }
    hash_rest(f, i, h)
}

// Where the search for a name's hint starts: the top eleven bits of its hash.
fn place(f: &[u8]) -> usize
    ensures { (result ≡ place_of f.now) × (result < 2048) }
{
    hash(f) / 2097152
}

// The place after a place, around the end.
fn after(p: usize) -> usize
    requires { p < 2048 }
    ensures { (result ≡ after_of p) × (result < 2048) }
{
    (p + 1) % 2048
}

// The name at an entry is this one.
fn is_name(f: &[u8], s: &[u8], table: &[Entry; 1024], i: usize) -> bool
    requires { i < 1024 }
    ensures { result ≡ same f.now (name_in s.now table.now i) }
{
    let e = table[i];
    equal(f, piece(s, wide(e[0]), wide(e[1])))
}

// The entry of a name among the first n, looked for one by one, or n.
fn scan(f: &[u8], s: &[u8], table: &[Entry; 1024], n: usize) -> usize
    requires { n ≤ 1024 }
    ensures { (result ≤ n) × (result < n → same f.now (name_in s.now table.now result) ≡ true) × (result ≡ n → mem f.now (names_in s.now table.now n) ≡ false) }
{
    for i in 0..n {
        if is_name(f, s, table, i) {
            return i;
        }
    }
    n
}

// A hint leads to this name among the first n.
fn is_hinted(f: &[u8], s: &[u8], table: &[Entry; 1024], n: usize, hint: usize) -> bool
    requires { (n ≤ 1024) × (hint ≡ 0 → ⊥) }
    ensures { (result ≡ true → hint ≤ n) × ((i : ℕ) → i < n → hint ≡ i + 1 → result ≡ same f.now (name_in s.now table.now i)) }
{
    if n < hint {
        return false;
    }
    is_name(f, s, table, hint - 1)
}

// The entry of a name among the first n, or n; and where the hint of one that is new goes, 2,048 for nowhere.
#[derive(Clone, Copy)]
struct Seen {
    entry: usize,
    at: usize,
}

fn probe(f: &[u8], s: &[u8], table: &[Entry; 1024], hints: &[u16; 2048], n: usize) -> Seen
    requires { n ≤ 1024 }
    ensures result_le_n { (result.entry ≤ n) × (result.entry < n → same f.now (name_in s.now table.now result.entry) ≡ true) × (result.entry ≡ n → Hinted hints.now (names_in s.now table.now n) → mem f.now (names_in s.now table.now n) ≡ false) }
    ensures free { result.entry ≡ n → Free hints.now (place_of f.now) result.at }
{
    let mut p = place(f);
    for tried in 0..2048usize {
        let hint = wide(hints[p]);
        if hint == 0 {
            return Seen { entry: n, at: p };
        }
        if is_hinted(f, s, table, n, hint) {
            return Seen {
                entry: hint - 1,
                at: 2048,
            };
        }
        p = after(p);
    }
    let e = scan(f, s, table, n);
    Seen { entry: e, at: 2048 }
}

// The entry of a name among the first n, or n.
pub fn find_name(f: &[u8], s: &[u8], table: &[Entry; 1024], hints: &[u16; 2048], n: usize) -> usize
    requires { n ≤ 1024 }
    ensures { (result ≤ n) × (result < n → same f.now (name_in s.now table.now result) ≡ true) × (result ≡ n → Hinted hints.now (names_in s.now table.now n) → mem f.now (names_in s.now table.now n) ≡ false) }
{
    let r = probe(f, s, table, hints, n);
    r.entry
}

// Puts a hint at a place, or nowhere if there is none.
fn put_hint(hints: &mut [u16; 2048], at: usize, hint: u16)
    ensures { (from : ℕ) → Free hints.old from at → length hints.old ≡ 2048 → Grows hints.old hints.new × Leads hints.new hint from 2048 }
{
    if at < 2048 {
        hints[at] = hint;
    }
}

// Stores a name's start and size at an entry. These two casts are all that the table keeps of a name (`narrow-loses-nothing`).
fn put_entry(table: &mut [Entry; 1024], n: usize, from: usize, size: usize)
    requires { (n < 1024) × (from < 65536) × (size < 65536) }
    ensures { table.new ≡ set table.old n (narrow_entry from size) }
{
    table[n] = [from as u16, size as u16];
}

// A name's entry in the table, and how many names there are.
#[derive(Clone, Copy)]
pub struct Listed {
    pub entry: usize,
    pub names: usize,
}

// Keeps a name in the table if it is new, and tells its entry. A count of 1,025 says that it has no room.
pub fn keep_name(
    s: &[u8],
    from: usize,
    size: usize,
    table: &mut [Entry; 1024],
    hints: &mut [u16; 2048],
    n: usize,
) -> Listed
    requires { (from < 65536) × (size < 65536) }
    ensures by_index { (want : List (List ℕ)) → HoldsIn s.now table.old hints.old n want → HoldsIn s.now table.new hints.new result.names (kept (piece_of from size s.now) want) }
    ensures lists { Lists s.now (starts_of table.old) (sizes_of table.old) n (starts_of table.new) (sizes_of table.new) result.names result.entry (piece_of from size s.now) }
{
    if 1024 < n {
        return Listed { entry: 0, names: n };
    }
    let found = probe(piece(s, from, size), s, table, hints, n);
    if found.entry < n {
        return Listed {
            entry: found.entry,
            names: n,
        };
    }
    if n == 1024 {
        return Listed {
            entry: 0,
            names: 1025,
        };
    }
    put_entry(table, n, from, size);
    put_hint(hints, found.at, (n + 1) as u16);
    Listed {
        entry: n,
        names: n + 1,
    }
}

// Keeps a name in the table if it is new. A count of 1,025 says that it has no room.
pub fn add_name(
    s: &[u8],
    from: usize,
    size: usize,
    table: &mut [Entry; 1024],
    hints: &mut [u16; 2048],
    n: usize,
) -> usize
    requires { (from < 65536) × (size < 65536) }
    ensures { (want : List (List ℕ)) → HoldsIn s.now table.old hints.old n want → HoldsIn s.now table.new hints.new result (kept (piece_of from size s.now) want) }
{
    let l = keep_name(s, from, size, table, hints, n);
    l.names
}
