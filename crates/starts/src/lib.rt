// The namespace table: its check, whether its lines are in order, and the line that covers an IRI.
#![tactic(auto)]

ghost use Rattle.std.specs.Prelude.{◌≡◌, ℕ, ◌+◌, ◌≤◌, ◌<◌, true, length, get_or};
ghost use Rattle.text.specs.Text.{part};
ghost use Rattle.converting.specs.Starts.{start_bounds, old_starts, less, in_order};
ghost use Rattle.converting.specs.bridge.Order.{before};
ghost use Rattle.starts.specs.bridge.Starts.{is_start_field, Finds, starts_in, StartsTold, StartsChecked, table_number, Shares, Ordered, Found};

use algebra::Fault;
use cursor::{Cursor, Field};
use lists::{field_at, keep};
use text::find;

// What `start_bounds` says of the lines of one table.
pub const STARTS: usize = 64;

// A line of the table: where its old start stands in the text and how long it is, and the same of its new one.
pub type Entry = [u16; 4];

// The lines of one table.
pub type Starts = [Entry; STARTS];

// A field of a line is a start: 1 to 128 bytes, none of them >.
fn is_start(text: &[u8], from: usize, to: usize) -> bool
    requires { (from ≤ to) × (to ≤ length text.now) }
    ensures { result ≡ is_start_field (part from to text.now) }
{
    if from == to {
        return false;
    }
    if 128 < to - from {
        return false;
    }
    find(text, from, to, 62) == to
}

// A line of two starts: the end of the first, and the cursor behind the line.
fn starts_at(text: &[u8], c: Cursor) -> Option<Field>
    requires { (c.at ≤ c.end) × (c.end < length text.now) }
    ensures { Finds text.now c result }
{
    let from = c.at;
    let one = c.next_field(text)?;
    let to = one.end;
    if !is_start(text, from, to) {
        return None;
    }
    let d = one.behind;
    let at = d.at;
    let two = d.next_field(text)?;
    let end = two.end;
    if !is_start(text, at, end) {
        return None;
    }
    if end != c.end {
        return None;
    }
    Some(Field {
        end: to,
        behind: two.behind,
    })
}

// A namespace table: up to 64 lines of two starts.
pub fn check_starts(text: &[u8], keys: &mut Starts) -> Result<usize, Fault>
    ensures { StartsChecked text.now keys.new result }
{
    if 16384 < text.len() {
        return Err(Fault::OverBound);
    }
    let mut c = Cursor::new(0);
    let mut n: usize = 0;
    while c.at < text.len() {
        let l = c.next_line(text);
        if l.end == text.len() {
            return Err(Fault::Malformed);
        }
        let Some(pair) = starts_at(text, l) else {
            return Err(Fault::Malformed);
        };
        if n == STARTS {
            return Err(Fault::OverBound);
        }
        keep(keys, n, l.at, pair.end, l.end);
        n += 1;
        c = pair.behind;
    }
    Ok(n)
}

// Eight bytes from a place on are the same in both.
fn same_eight(a: &[u8], b: &[u8], i: usize) -> bool
    requires { (i + 8 ≤ length a.now) × (i + 8 ≤ length b.now) }
    ensures { result ≡ true → (k : ℕ) → k < i + 8 → i ≤ k → get_or a.now k 0 ≡ get_or b.now k 0 }
{
    (a[i] == b[i])
        & (a[i + 1] == b[i + 1])
        & (a[i + 2] == b[i + 2])
        & (a[i + 3] == b[i + 3])
        & (a[i + 4] == b[i + 4])
        & (a[i + 5] == b[i + 5])
        & (a[i + 6] == b[i + 6])
        & (a[i + 7] == b[i + 7])
}

// How many of the first n bytes are the same in both, as far as eight at a time tell.
fn shared_eights(a: &[u8], b: &[u8], n: usize) -> usize
    requires { (n ≤ length a.now) × (n ≤ length b.now) }
    ensures { (result ≤ n) × ((k : ℕ) → k < result → get_or a.now k 0 ≡ get_or b.now k 0) }
{
    for k in 0..n / 8 {
        let i = 8 * k;
        if !same_eight(a, b, i) {
            return i;
        }
    }
    n / 8 * 8
}

// With how many bytes both begin.
fn shared(a: &[u8], b: &[u8]) -> usize
    ensures { Shares a.now b.now result }
{
    let n = a.len().min(b.len());
    for i in shared_eights(a, b, n)..n {
        if a[i] != b[i] {
            return i;
        }
    }
    n
}

// By its bytes a stands before b, where they part at r.
fn is_less(a: &[u8], b: &[u8], r: usize) -> bool
    requires { Shares a.now b.now r × (r ≡ length b.now → ⊥) }
    ensures { result ≡ less a.now b.now }
{
    if r == a.len() {
        return true;
    }
    a[r] < b[r]
}

// A start stands before another, at a byte that both have.
fn is_before(a: &[u8], b: &[u8]) -> bool
    ensures { result ≡ before a.now b.now }
{
    let r = shared(a, b);
    if r == a.len() {
        return false;
    }
    if r == b.len() {
        return false;
    }
    a[r] < b[r]
}

// Each line's old start stands so before the next one's.
pub fn in_order(text: &[u8], keys: &Starts, n: usize) -> bool
    requires { (length keys.now ≡ start_bounds.entries) × (n ≤ start_bounds.entries) }
    ensures { result ≡ in_order (old_starts (starts_in text.now keys.now n)) }
{
    for i in 1..n {
        let a = keys[i - 1];
        let b = keys[i];
        if !is_before(field_at(text, a[0], a[1]), field_at(text, b[0], b[1])) {
            return false;
        }
    }
    true
}

// The number of a table whose lines were read: 14 if they are not in order.
fn order_number(text: &[u8], keys: &Starts, n: usize) -> u64
    requires { StartsTold text.now keys.now n }
    ensures { result ≡ table_number text.now }
{
    if in_order(text, keys, n) {
        return 0;
    }
    14
}

// A table's number by itself: 1, 2, then 14.
pub fn table_number(text: &[u8]) -> u64
    ensures { result ≡ table_number text.now }
{
    let mut keys = [[0u16; 4]; STARTS];
    match check_starts(text, &mut keys) {
        Ok(n) => order_number(text, &keys, n),
        Err(Fault::Malformed) => 1,
        Err(Fault::OverBound) => 2,
    }
}

// The entry of the line that covers an IRI, if one does, found by halves. In a table in order no other line covers it.
pub fn line_over(text: &[u8], keys: &Starts, n: usize, iri: &[u8]) -> Option<usize>
    requires { Ordered text.now keys.now n × (1 ≤ length iri.now) }
    ensures { Found text.now keys.now n iri.now result }
{
    let x = &iri[1..];
    let mut low = 0;
    let mut high = n;
    while low < high {
        let mid = low + (high - low) / 2;
        let e = keys[mid];
        let old = field_at(text, e[0], e[1]);
        let r = shared(x, old);
        if r == old.len() {
            return Some(mid);
        }
        if is_less(x, old, r) {
            high = mid;
        } else {
            low = mid + 1;
        }
    }
    None
}
