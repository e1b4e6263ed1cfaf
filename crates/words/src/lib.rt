// The one table of words: the fields of a line that begins with each word, and the lines that come below it.
#![tactic(auto)]

mod codes;
pub mod keys;
pub mod table;

ghost use Rattle.std.specs.Prelude.{◌≡◌, ◌≤◌, ◌<◌, length, get_or};
ghost use Rattle.text.specs.Text.{same, part, First};
ghost use Rattle.words.specs.bridge.Code.{domain_at, extra_found, extra_of, extras};
ghost use Rattle.words.specs.bridge.Key.{Spells, Keyed};

use text::equal;

// What a word says of its line: its fields, a byte each, from the lowest on; what stands behind them; what it means for the names of its line
// and of its last pattern; and the groups of lines below, nine bits each, from the lowest on. `specs/bridge/Code.antt` says what each number means.
#[derive(Clone, Copy)]
pub struct Row {
    pub fields: u64,
    pub behind: u8,
    pub flag: u8,
    pub below: u64,
}

// The domains of values.
const PLAIN_STRING: [u8; 11] = *b"PlainString";

const LANGUAGE_TAGGED_STRING: [u8; 20] = *b"LanguageTaggedString";

const IRI: [u8; 3] = *b"Iri";

const FLOAT: [u8; 5] = *b"Float";

const DOUBLE: [u8; 6] = *b"Double";

const UNSIGNED_LONG: [u8; 12] = *b"UnsignedLong";

const NON_NEGATIVE_LONG: [u8; 15] = *b"NonNegativeLong";

const UNSIGNED_INT: [u8; 11] = *b"UnsignedInt";

const NON_NEGATIVE_INT: [u8; 14] = *b"NonNegativeInt";

const LONG: [u8; 4] = *b"Long";

const INT: [u8; 3] = *b"Int";

const BOOLEAN: [u8; 7] = *b"Boolean";

const NULL: [u8; 4] = *b"Null";

const TUPLE: [u8; 5] = *b"Tuple";

const MAP: [u8; 3] = *b"Map";

const OTHER: [u8; 5] = *b"Other";

fn wide(x: u8) -> u64
    ensures { (result ≡ x) × (result < 256) }
{
    x as u64
}

// A word at the head of a line: where it ends, and its key.
#[derive(Clone, Copy)]
pub struct Word {
    pub end: usize,
    pub key: u64,
}

// The word that starts at a place, up to a tab or where its line ends, with its bytes as one number, of more than eight the last eight.
fn spelled_at(s: &[u8], from: usize, to: usize) -> Word
    requires { (from ≤ to) × (to ≤ length s.now) }
    ensures { First 9 s.now from to result.end × Spells s.now from result }
{
    let mut k: u64 = 0;
    let mut i = from;
    while i < to {
        if s[i] == 9 {
            return Word { end: i, key: k };
        }
        k = k % 0x100_0000_0000_0000 * 256 + wide(s[i]);
        i += 1;
    }
    Word { end: i, key: k }
}

// The key of a word that was spelled: no word of the table is longer than eight bytes or begins with byte 0, and 0 is the key of none.
fn key_of(s: &[u8], from: usize, w: Word) -> u64
    requires { (from ≤ w.end) × (w.end ≤ length s.now) × Spells s.now from w }
    ensures { Keyed (part from w.end s.now) result }
{
    let size = w.end - from;
    if 8 < size {
        return 0;
    }
    if size == 0 {
        return 0;
    }
    if s[from] == 0 {
        return 0;
    }
    w.key
}

// The word that starts at a place, up to a tab or where its line ends.
pub fn word_at(s: &[u8], from: usize, to: usize) -> Word
    requires { (from ≤ to) × (to ≤ length s.now) }
    ensures { First 9 s.now from to result.end × Keyed (part from result.end s.now) result.key }
{
    let w = spelled_at(s, from, to);
    Word {
        end: w.end,
        key: key_of(s, from, w),
    }
}

// A field is the domain of a number. Each domain is a constant of its own: it is laid out only where it is compared.
fn is_domain(f: &[u8], i: usize) -> bool
    requires { i < 16 }
    ensures { result ≡ same f.now (domain_at i) }
{
    match i {
        0 => equal(f, &PLAIN_STRING),
        1 => equal(f, &LANGUAGE_TAGGED_STRING),
        2 => equal(f, &IRI),
        3 => equal(f, &FLOAT),
        4 => equal(f, &DOUBLE),
        5 => equal(f, &UNSIGNED_LONG),
        6 => equal(f, &NON_NEGATIVE_LONG),
        7 => equal(f, &UNSIGNED_INT),
        8 => equal(f, &NON_NEGATIVE_INT),
        9 => equal(f, &LONG),
        10 => equal(f, &INT),
        11 => equal(f, &BOOLEAN),
        12 => equal(f, &NULL),
        13 => equal(f, &TUPLE),
        14 => equal(f, &MAP),
        _ => equal(f, &OTHER),
    }
}

// The kind of each domain's extra.
fn extra_at(i: usize) -> u8
    requires { i < 16 }
    ensures { result ≡ get_or extras i 0 }
{
    match i {
        0 => 11,
        1 => 12,
        2 => 11,
        3 => 13,
        4 => 13,
        5 => 13,
        6 => 13,
        7 => 13,
        8 => 13,
        9 => 13,
        10 => 13,
        11 => 13,
        12 => 11,
        13 => 11,
        14 => 11,
        _ => 13,
    }
}

// The kind of the extra that stands with a domain of values, or 0 where it is none.
pub fn extra_kind(f: &[u8]) -> u8
    ensures { extra_found result ≡ extra_of f.now }
{
    for i in 0..16 {
        if is_domain(f, i) {
            return extra_at(i);
        }
    }
    0
}
