// The fields of a line that are no variables, taken one after the other by what the table says of them.
ghost use Rattle.std.specs.Prelude.{◌≡◌, ◌+◌, ◌≤◌, ◌<◌, length};
ghost use Rattle.text.specs.bridge.Code.{kind_at};
ghost use Rattle.algebra.specs.bridge.Table.{text, count};
ghost use Rattle.lines.specs.bridge.Line.{take_field, take_times, take_value, take_values};
ghost use Rattle.lines.specs.bridge.Steps.{InLine, left_at, Follows, rest_of, rest_in, number_taken};

use cursor::Cursor;
use text::{is_kind, number_of};
use words::extra_kind;

// A cursor and the number in a field.
#[derive(Clone, Copy)]
pub struct Taken {
    pub cursor: Cursor,
    pub number: usize,
}

// Where a field of a variable starts, its name's entry in the table, and its mark. Arrays of spots and nodes are lent, with their numbers
// beside them, and no Vec: a call takes nothing from the heap.
pub type Spot = [u16; 3];

// A line that was noted: 65,536 times its word's number in the table of words and how many spots were noted before it; and its first two numbers.
pub type Node = [u32; 3];

// A field that counts nothing, of a kind.
pub fn text_field(s: &[u8], c: Cursor, kind: u8) -> Cursor
    requires { InLine s.now c }
    ensures { Follows s.now c (rest_of (take_field (text (kind_at kind)) (left_at s.now c))) result }
{
    let at = c.at;
    let Some(field) = c.next_field(s) else {
        return c.failed();
    };
    let to = field.end;
    if is_kind(kind, &s[at..to]) {
        return field.behind;
    }
    c.failed()
}

// A field that is a number of lines to come.
pub fn count_field(s: &[u8], c: Cursor) -> Taken
    requires { InLine s.now c }
    ensures { Follows s.now c (rest_of (take_field count (left_at s.now c))) result.cursor × (number_taken (take_field count (left_at s.now c)) ≡ result.number) × (result.number < 4294967296) }
{
    let at = c.at;
    let Some(field) = c.next_field(s) else {
        return Taken {
            cursor: c.failed(),
            number: 0,
        };
    };
    let to = field.end;
    match number_of(&s[at..to]) {
        Some(v) => Taken {
            cursor: field.behind,
            number: v as usize,
        },
        None => Taken {
            cursor: c.failed(),
            number: 0,
        },
    }
}

// A value's three fields: its domain, any lexical form, and the extra that the domain asks for.
pub fn value_field(s: &[u8], c: Cursor) -> Cursor
    requires { InLine s.now c }
    ensures { Follows s.now c (take_value (left_at s.now c)) result }
{
    let at = c.at;
    let Some(field) = c.next_field(s) else {
        return c.failed();
    };
    let to = field.end;
    let kind = extra_kind(&s[at..to]);
    if kind == 0 {
        return c.failed();
    }
    let behind = text_field(s, field.behind, 10);
    text_field(s, behind, kind)
}

// So many fields that count nothing.
pub fn text_fields(s: &[u8], c: Cursor, kind: u8, times: usize) -> Cursor
    requires { InLine s.now c × (c.at ≤ c.end + 1) }
    ensures { Follows s.now c (rest_in (take_times times (text (kind_at kind)) (left_at s.now c))) result }
{
    let mut d = c;
    for done in 0..times {
        d = text_field(s, d, kind);
        if d.end + 1 < d.at {
            return d;
        }
    }
    d
}

// So many values.
pub fn value_fields(s: &[u8], c: Cursor, times: usize) -> Cursor
    requires { InLine s.now c × (c.at ≤ c.end + 1) }
    ensures { Follows s.now c (rest_in (take_values times (left_at s.now c))) result }
{
    let mut d = c;
    for done in 0..times {
        d = value_field(s, d);
        if d.end + 1 < d.at {
            return d;
        }
    }
    d
}

// How many fields are left in the line.
pub fn fields_left(s: &[u8], c: Cursor) -> usize
    requires { InLine s.now c }
    ensures { (result ≡ length (left_at s.now c)) × (result ≤ 16384) }
{
    let mut d = c;
    let mut k = 0;
    while let Some(field) = d.next_field(s) {
        d = field.behind;
        k += 1;
    }
    k
}
