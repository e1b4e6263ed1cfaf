// The tokens of a line that its word alone says: before its children, and behind each of them.
ghost use Rattle.std.specs.Prelude.{◌≡◌};
ghost use Rattle.text.specs.Text.{Bytes};
ghost use Rattle.text.specs.Word.{bytes};
ghost use Rattle.words.specs.bridge.Key.{Keyed};
ghost use Rattle.emit.specs.bridge.Emit.{em, puts};
ghost use Rattle.editions.specs.Token.{text};
ghost use Rattle.spelling.specs.bridge.Saying.{first_or, opening, closing};

use emit::put_all;
use words::keys;

const OPEN: [u8; 2] = *b"{ ";

const LEFT: [u8; 2] = *b"( ";

const SAME_TERM: [u8; 11] = *b"sameTerm ( ";

const NOT: [u8; 4] = *b"( ! ";

const EXISTS: [u8; 9] = *b"EXISTS { ";

const ASC: [u8; 6] = *b"ASC ( ";

const DESC: [u8; 7] = *b"DESC ( ";

const VALUES: [u8; 7] = *b"VALUES ";

const CLOSE: [u8; 2] = *b"} ";

const RIGHT: [u8; 2] = *b") ";

const JOIN: [u8; 4] = *b"} { ";

const UNION: [u8; 10] = *b"} UNION { ";

const MINUS: [u8; 10] = *b"} MINUS { ";

const FILTER: [u8; 11] = *b"} FILTER ( ";

const OPTIONAL: [u8; 15] = *b"} OPTIONAL { { ";

const OPTIONAL_END: [u8; 4] = *b"} } ";

const FILTER_END: [u8; 4] = *b") } ";

const OR: [u8; 3] = *b"|| ";

const AND: [u8; 3] = *b"&& ";

const EQ: [u8; 2] = *b"= ";

const COMMA: [u8; 2] = *b", ";

const ORDER_BY: [u8; 11] = *b"} ORDER BY ";

const NOTHING: [u8; 0] = *b"";

// Before its children, by the key of its word.
pub fn put_opening(key: u64, out: &mut [u8], at: usize) -> usize
    ensures { (f : Bytes) → Keyed f key → em result out.new ≡ puts (text (opening f)) (em at out.old) }
{
    match key {
        keys::JOIN => put_all(out, at, &OPEN),
        keys::UNION => put_all(out, at, &OPEN),
        keys::MINUS => put_all(out, at, &OPEN),
        keys::LEFTJOIN => put_all(out, at, &OPEN),
        keys::FILTER => put_all(out, at, &OPEN),
        keys::EXTEND => put_all(out, at, &OPEN),
        keys::OR => put_all(out, at, &LEFT),
        keys::AND => put_all(out, at, &LEFT),
        keys::EQ => put_all(out, at, &LEFT),
        keys::SAME => put_all(out, at, &SAME_TERM),
        keys::NOT => put_all(out, at, &NOT),
        keys::EXISTS => put_all(out, at, &EXISTS),
        keys::ASC => put_all(out, at, &ASC),
        keys::DESC => put_all(out, at, &DESC),
        keys::VALUES => put_all(out, at, &VALUES),
        _ => at,
    }
}

// One thing where the number is 0, another where it isn't.
pub fn put_first(i: usize, a: &[u8], b: &[u8], out: &mut [u8], at: usize) -> usize
    ensures { em result out.new ≡ puts (first_or i a.now b.now) (em at out.old) }
{
    if i == 0 {
        return put_all(out, at, a);
    }
    put_all(out, at, b)
}

// Behind a leftjoin's child number i, where n are to come.
fn put_optional(i: usize, n: usize, out: &mut [u8], at: usize) -> usize
    ensures { em result out.new ≡ puts (text (closing (bytes "leftjoin") i n)) (em at out.old) }
{
    if i == 0 {
        return put_all(out, at, &OPTIONAL);
    }
    if i == 1 {
        return put_first(n, &OPTIONAL_END, &FILTER, out, at);
    }
    put_all(out, at, &FILTER_END)
}

// Behind its child number i, where n are to come, by the key of its word.
pub fn put_closing(key: u64, i: usize, n: usize, out: &mut [u8], at: usize) -> usize
    ensures { (f : Bytes) → Keyed f key → em result out.new ≡ puts (text (closing f i n)) (em at out.old) }
{
    match key {
        keys::JOIN => put_first(i, &JOIN, &CLOSE, out, at),
        keys::UNION => put_first(i, &UNION, &CLOSE, out, at),
        keys::MINUS => put_first(i, &MINUS, &CLOSE, out, at),
        keys::LEFTJOIN => put_optional(i, n, out, at),
        keys::FILTER => put_first(i, &FILTER, &RIGHT, out, at),
        keys::GRAPH => put_all(out, at, &CLOSE),
        keys::EXISTS => put_all(out, at, &CLOSE),
        keys::OR => put_first(i, &OR, &RIGHT, out, at),
        keys::AND => put_first(i, &AND, &RIGHT, out, at),
        keys::EQ => put_first(i, &EQ, &RIGHT, out, at),
        keys::SAME => put_first(i, &COMMA, &RIGHT, out, at),
        keys::NOT => put_all(out, at, &RIGHT),
        keys::ASC => put_all(out, at, &RIGHT),
        keys::DESC => put_all(out, at, &RIGHT),
        keys::VALUES => put_first(n, &CLOSE, &NOTHING, out, at),
        keys::ORDERBY => put_first(i, &ORDER_BY, &NOTHING, out, at),
        _ => at,
    }
}
