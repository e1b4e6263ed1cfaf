// The check of a list of triples: where the three fields of each line stand.
#![tactic(auto)]

ghost use Rattle.std.specs.Prelude.{◌≡◌, ℕ, ◌+◌, ◌≤◌, ◌<◌, length, set};
ghost use Rattle.text.specs.Text.{part, piece as piece_of};
ghost use Rattle.evaluating.specs.Triples.{most_triples};
ghost use Rattle.triples.specs.bridge.Triples.{entry_of, wholes_in, TriplesChecked, fresh, Takes, Finds};

use algebra::Fault;
use cursor::{Cursor, Field};
use text::{equal, is_kind, piece};

// What `most_triples` says of the lines of one text.
pub const TRIPLES: usize = 256;

// A line: where it starts, and the sizes of its three fields.
pub type Entry = [u16; 4];

// The lines of one text.
pub type Triples = [Entry; TRIPLES];

// The ends of a line's first two fields.
#[derive(Clone, Copy)]
pub struct Ends {
    pub first: usize,
    pub second: usize,
}

// The number of the kind of IRIs and literals.
const CONSTANT: u8 = 4;

// The next field of a line, if it is an IRI or a literal.
fn constant_at(text: &[u8], c: Cursor) -> Option<Field>
    requires { c.end < length text.now }
    ensures { Takes text.now c result }
{
    let from = c.at;
    let field = c.next_field(text)?;
    let to = field.end;
    if !is_kind(CONSTANT, &text[from..to]) {
        return None;
    }
    Some(field)
}

// A line of three fields, each an IRI or a literal.
fn triple_at(text: &[u8], c: Cursor) -> Option<Ends>
    requires { (c.at ≤ c.end) × (c.end < length text.now) }
    ensures { Finds text.now c result }
{
    let subject = constant_at(text, c)?;
    let predicate = constant_at(text, subject.behind)?;
    let object = constant_at(text, predicate.behind)?;
    if object.end != c.end {
        return None;
    }
    Some(Ends {
        first: subject.end,
        second: predicate.end,
    })
}

// The line that starts at a place and has fields of these sizes, without its end.
fn whole_at(text: &[u8], start: u16, first: u16, second: u16, third: u16) -> &[u8]
    ensures { result.now ≡ piece_of start (first + second + third + 2) text.now }
{
    let size = first as usize + second as usize + third as usize + 2;
    piece(text, start as usize, size)
}

// A line is none of those of the first n entries.
fn is_fresh(text: &[u8], from: usize, to: usize, keys: &Triples, n: usize) -> bool
    requires { (from ≤ to) × (to ≤ length text.now) × (length keys.now ≡ most_triples) × (n ≤ most_triples) }
    ensures { result ≡ fresh (part from to text.now) (wholes_in text.now keys.now n) }
{
    let line = &text[from..to];
    for e in &keys[..n] {
        if equal(line, whole_at(text, e[0], e[1], e[2], e[3])) {
            return false;
        }
    }
    true
}

// Keeps a line whose fields stand from `from` to `to`, behind that to `mid`, and behind that to `end`.
fn keep(keys: &mut Triples, n: usize, from: usize, to: usize, mid: usize, end: usize)
    requires { (n < most_triples) × (from ≤ to) × (to < mid) × (mid < end) × (end ≤ 16384) }
    ensures { keys.new ≡ set keys.old n (entry_of from to mid end) }
{
    keys[n] = [
        from as u16,
        (to - from) as u16,
        (mid - (to + 1)) as u16,
        (end - (mid + 1)) as u16,
    ];
}

// A list of triples: up to 256 lines of three fields, each an IRI or a literal, no line twice.
pub fn check_triples(text: &[u8], keys: &mut Triples) -> Result<usize, Fault>
    ensures { TriplesChecked text.now keys.new result }
{
    if 16384 < text.len() {
        return Err(Fault::OverBound);
    }
    let mut c = Cursor::new(0);
    let mut n: usize = 0;
    while c.at < text.len() {
        let l = c.next_line(text);
        if l.end == text.len() {
            return Err(Fault::Malformed);
        }
        let Some(ends) = triple_at(text, l) else {
            return Err(Fault::Malformed);
        };
        if !is_fresh(text, l.at, l.end, keys, n) {
            return Err(Fault::Malformed);
        }
        if n == TRIPLES {
            return Err(Fault::OverBound);
        }
        keep(keys, n, l.at, ends.first, ends.second, l.end);
        n += 1;
        c = l.line_done();
    }
    Ok(n)
}
