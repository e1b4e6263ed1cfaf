// The number that a field is.
ghost use Rattle.std.specs.Prelude.{◌≡◌, ℕ, ◌+◌, ◌≤◌, ◌<◌, [], ◌∷◌, length, get_or, drop};
ghost use Rattle.cursor.specs.bridge.Cursor.{left};
ghost use Rattle.scoping.specs.bridge.Walk.{number_in};

use cursor::field_end;
use text::number_of;

// The number that the field from here on is, or 0; and where the next field starts.
#[derive(Clone, Copy)]
pub struct Count {
    pub number: usize,
    pub next: usize,
}

pub fn count_at(text: &[u8], at: usize, end: usize) -> Count
    requires { end < length text.now }
    ensures { (result.number ≡ number_in (get_or (left text.now at end) 0 [])) × (left text.now result.next end ≡ drop 1 (left text.now at end)) × (result.number < 4294967296) }
{
    if end < at {
        return Count {
            number: 0,
            next: at,
        };
    }
    let e = field_end(text, at, end);
    let next = e + 1;
    match number_of(&text[at..e]) {
        Some(v) => Count {
            number: v as usize,
            next,
        },
        None => Count { number: 0, next },
    }
}
