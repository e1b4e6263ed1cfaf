// The fields of a line one after the other, as places in the text.
ghost use Rattle.std.specs.Prelude.{◌≡◌, ◌+◌, ◌≤◌, ◌<◌, length};
ghost use Rattle.merging.specs.Request.{position};
ghost use Rattle.placing.specs.bridge.Fields.{FieldIs};

use cursor::field_end;
use text::number_of;

// Where a field ends, and where the next one starts.
#[derive(Clone, Copy)]
pub struct Field {
    pub to: usize,
    pub next: usize,
}

// The field that starts here, of the line up to `end`; an empty one where none is left.
pub fn field_at(text: &[u8], at: usize, end: usize) -> Field
    requires { (end < length text.now) × (at ≤ end + 1) }
    ensures { FieldIs text.now at end result }
{
    if end < at {
        return Field { to: at, next: at };
    }
    let to = field_end(text, at, end);
    Field { to, next: to + 1 }
}

// The position that a field is, or 0.
pub fn position_of(field: &[u8]) -> usize
    ensures { (result ≡ position field.now) × (result < 4294967296) }
{
    match number_of(field) {
        Some(v) => v as usize,
        None => 0,
    }
}
