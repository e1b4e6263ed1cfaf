// The check of the three lists of pairs: join list, constant list and mapping. Each is read line by line into an array of its pairs.
#![tactic(auto)]

ghost use Rattle.std.specs.Prelude.{◌≡◌, ℕ, ◌≤◌, ◌<◌, List, true, length, set};
ghost use Rattle.text.specs.Text.{part, piece as piece_of, same};
ghost use Rattle.text.specs.bridge.Code.{kind_at};
ghost use Rattle.algebra.specs.Query.{PairList, joins, constants, mapping};
ghost use Rattle.lists.specs.bridge.Pairs.{Stands, Finds, firsts, fresh, entry_of, pairs_in, Enough, PairsChecked};

use algebra::{ENTRIES, Fault};
use cursor::{Cursor, Field};
use text::{equal, is_kind, piece};

// A pair of a list: where its first field starts and how long it is, and the same of its second.
pub type Entry = [u16; 4];

// A line of two fields of these kinds: the end of the first, and the cursor behind the line.
fn pair_at(text: &[u8], c: Cursor, first: u8, second: u8) -> Option<Field>
    requires { (c.at ≤ c.end) × (c.end < length text.now) }
    ensures { Finds text.now (kind_at first) (kind_at second) c result }
{
    let from = c.at;
    let one = c.next_field(text)?;
    let to = one.end;
    if !is_kind(first, &text[from..to]) {
        return None;
    }
    let d = one.behind;
    let at = d.at;
    let two = d.next_field(text)?;
    let end = two.end;
    if !is_kind(second, &text[at..end]) {
        return None;
    }
    if end != c.end {
        return None;
    }
    Some(Field {
        end: to,
        behind: two.behind,
    })
}

// The field that two numbers of an entry tell.
pub fn field_at(text: &[u8], start: u16, size: u16) -> &[u8]
    ensures { result.now ≡ piece_of start size text.now }
{
    piece(text, start as usize, size as usize)
}

// Two fields are the same. Those of a list that differ mostly do so at their ends, which are compared first.
fn is_same(f: &[u8], g: &[u8]) -> bool
    ensures { result ≡ same f.now g.now }
{
    if f.len() != g.len() {
        return false;
    }
    if f.len() == 0 {
        return true;
    }
    let last = f.len() - 1;
    if f[last] != g[last] {
        return false;
    }
    equal(f, g)
}

// A first field may stand here: it is none of the first n entries', or it may be repeated.
fn is_fresh(text: &[u8], from: usize, to: usize, unique: bool, keys: &[Entry], n: usize) -> bool
    requires { (from ≤ to) × (to ≤ length text.now) × (n ≤ length keys.now) }
    ensures { result ≡ fresh unique (part from to text.now) (firsts (pairs_in text.now keys.now n)) }
{
    if !unique {
        return true;
    }
    let field = &text[from..to];
    for e in &keys[..n] {
        if is_same(field, field_at(text, e[0], e[1])) {
            return false;
        }
    }
    true
}

// Keeps a pair whose fields stand from `from` to `to`, and behind that up to `end`.
pub fn keep(keys: &mut [Entry], n: usize, from: usize, to: usize, end: usize)
    requires { (n < length keys.old) × (from ≤ to) × (to < end) × (end ≤ 16384) }
    ensures { keys.new ≡ set keys.old n (entry_of from to end) }
{
    let second = to + 1;
    keys[n] = [
        from as u16,
        (to - from) as u16,
        second as u16,
        (end - second) as u16,
    ];
}

// A list of lines of two fields of these kinds, the first of which may not be repeated if `unique`: each has at least two bytes,
// so that no list has more entries than half its bytes.
fn check_pairs(
    text: &[u8],
    first: u8,
    second: u8,
    unique: bool,
    keys: &mut [Entry],
) -> Result<usize, Fault>
    requires { Enough text.now keys.old }
    ensures { (κ : PairList) → Stands κ first second unique → PairsChecked κ text.now keys.new result }
{
    if 16384 < text.len() {
        return Err(Fault::OverBound);
    }
    let mut c = Cursor::new(0);
    let mut n: usize = 0;
    while c.at < text.len() {
        let l = c.next_line(text);
        if l.end == text.len() {
            return Err(Fault::Malformed);
        }
        let Some(pair) = pair_at(text, l, first, second) else {
            return Err(Fault::Malformed);
        };
        if !is_fresh(text, l.at, pair.end, unique, keys, n) {
            return Err(Fault::Malformed);
        }
        if n == ENTRIES {
            return Err(Fault::OverBound);
        }
        keep(keys, n, l.at, pair.end, l.end);
        n += 1;
        c = pair.behind;
    }
    Ok(n)
}

// The same where nobody needs the entries: as many as pays, since they are cleared first.
fn check_alone(text: &[u8], first: u8, second: u8, unique: bool) -> Result<usize, Fault>
    ensures { (keys : List (List ℕ)) × ((κ : PairList) → Stands κ first second unique → PairsChecked κ text.now keys result) }
{
    if text.len() <= 128 {
        let mut few = [[0u16; 4]; 64];
        return check_pairs(text, first, second, unique, &mut few);
    }
    let mut keys = [[0u16; 4]; ENTRIES];
    check_pairs(text, first, second, unique, &mut keys)
}

// A join list: lines of a left and a right position.
pub fn check_joins(text: &[u8]) -> Result<usize, Fault>
    ensures { (keys : List (List ℕ)) × PairsChecked joins text.now keys result }
{
    check_alone(text, 6, 6, false)
}

// A constant list: lines of a position, which is not repeated, and a term.
pub fn check_constants(text: &[u8]) -> Result<usize, Fault>
    ensures { (keys : List (List ℕ)) × PairsChecked constants text.now keys result }
{
    check_alone(text, 6, 4, true)
}

// A mapping: lines of a name, which is not repeated, and the name that it becomes.
pub fn check_mapping(text: &[u8], keys: &mut [Entry]) -> Result<usize, Fault>
    requires { Enough text.now keys.old }
    ensures { PairsChecked mapping text.now keys.new result }
{
    check_pairs(text, 0, 0, true, keys)
}
