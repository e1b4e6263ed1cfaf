// The fields of a line that starts here or later: what a grammar allows in them.
ghost use Rattle.std.specs.Prelude.{◌≡◌, ◌+◌, ◌≤◌, ◌<◌, [], length, get_or};
ghost use Rattle.text.specs.Field.{is_blank};
ghost use Rattle.algebra.specs.Valid.{different};
ghost use Rattle.cursor.specs.bridge.Cursor.{left};
ghost use Rattle.editions.specs.Lexical.{is_var1};
ghost use Rattle.editions.specs.Refusals.{allowed, all_allowed, all_cells};

use placing::field::field_at;
use spelling::seek::is_among;
use terms::term::{is_allowed, is_allowed_cell, is_blank};
use terms::variable::is_var1;

pub fn allowed_at(query: &[u8], from: usize, end: usize) -> bool
    requires { (end < length query.now) × (from ≤ end + 1) }
    ensures { result ≡ allowed (get_or (left query.now from end) 0 []) }
{
    let field = field_at(query, from, end);
    let to = field.to;
    is_allowed(&query[from..to])
}

pub fn named_at(query: &[u8], from: usize, end: usize) -> bool
    requires { (end < length query.now) × (from ≤ end + 1) }
    ensures { result ≡ is_var1 (get_or (left query.now from end) 0 []) }
{
    let field = field_at(query, from, end);
    let to = field.to;
    is_var1(&query[from..to])
}

pub fn blank_at(query: &[u8], from: usize, end: usize) -> bool
    requires { (end < length query.now) × (from ≤ end + 1) }
    ensures { result ≡ is_blank (get_or (left query.now from end) 0 []) }
{
    let field = field_at(query, from, end);
    let to = field.to;
    is_blank(&query[from..to])
}

// Each is a variable that may stand in a text.
pub fn all_named(query: &[u8], from: usize, end: usize) -> bool
    requires { (end < length query.now) × (from ≤ end + 1) }
    ensures { result ≡ all_allowed (left query.now from end) }
{
    let mut next = from;
    while next <= end {
        let field = field_at(query, next, end);
        let stop = field.to;
        if !is_var1(&query[next..stop]) {
            return false;
        }
        next = field.next;
    }
    true
}

// Each is a cell that may stand in a text.
pub fn all_cells(query: &[u8], from: usize, end: usize) -> bool
    requires { (end < length query.now) × (from ≤ end + 1) }
    ensures { result ≡ all_cells (left query.now from end) }
{
    let mut next = from;
    while next <= end {
        let field = field_at(query, next, end);
        let stop = field.to;
        if !is_allowed_cell(&query[next..stop]) {
            return false;
        }
        next = field.next;
    }
    true
}

// None comes twice.
pub fn are_different(query: &[u8], from: usize, end: usize) -> bool
    requires { (end < length query.now) × (from ≤ end + 1) }
    ensures { result ≡ different (left query.now from end) }
{
    let mut next = from;
    while next <= end {
        let field = field_at(query, next, end);
        let stop = field.to;
        if is_among(&query[next..stop], query, field.next, end) {
            return false;
        }
        next = field.next;
    }
    true
}
