// A cursor by value: it steps from line to line and from field to field of a text, and counts down the lines that are awaited.
#![tactic(auto)]

ghost use Rattle.std.specs.Prelude.{◌≡◌, ◌+◌, ◌≤◌, ◌<◌, length};
ghost use Rattle.text.specs.Text.{First};
ghost use Rattle.cursor.specs.bridge.Cursor.{Reads, moved_to, line_at, line_done, awaiting_many, child_done};

use reader::next_end;
use text::find;

// `at` is the next byte to read and `end` the end of the line. Behind the last field of a line `at` is one past `end`, where the
// next line starts; two past `end` says that a field was missing or not what it should be.
#[derive(Clone, Copy)]
pub struct Cursor {
    pub at: usize,
    pub end: usize,
    pub awaited: u64,
}

// The end of a field, and the cursor behind it.
#[derive(Clone, Copy)]
pub struct Field {
    pub end: usize,
    pub behind: Cursor,
}

// The end of the field that starts at a place of the line up to `end`.
pub fn field_end(s: &[u8], at: usize, end: usize) -> usize
    requires { (at ≤ end) × (end ≤ length s.now) }
    ensures { First 9 s.now at end result }
{
    find(s, at, end, 9)
}

impl Cursor {
    pub fn new(awaited: u64) -> Self
        ensures { (result.at ≡ 0) × (result.end ≡ 0) × (result.awaited ≡ awaited) }
    {
        Cursor {
            at: 0,
            end: 0,
            awaited,
        }
    }

    // At another place.
    pub fn moved_to(self, at: usize) -> Self
        ensures { result ≡ moved_to self at }
    {
        Cursor {
            at,
            end: self.end,
            awaited: self.awaited,
        }
    }

    // The line that starts here, up to its end or that of the text.
    pub fn next_line(self, s: &[u8]) -> Self
        requires { self.at ≤ length s.now }
        ensures { (result ≡ line_at self result.end) × First 10 s.now self.at (length s.now) result.end }
    {
        let at = self.at;
        let end = next_end(s, at);
        Cursor {
            at,
            end,
            awaited: self.awaited,
        }
    }

    // The next field of the line, if one is left.
    pub fn next_field(self, s: &[u8]) -> Option<Field>
        requires { self.end < length s.now }
        ensures { Reads s.now self result }
    {
        let at = self.at;
        let end = self.end;
        if end < at {
            return None;
        }
        let to = field_end(s, at, end);
        Some(Field {
            end: to,
            behind: Cursor {
                at: to + 1,
                end,
                awaited: self.awaited,
            },
        })
    }

    // Behind a field that ends at a place of the line.
    pub fn behind(self, e: usize) -> Self
        requires { (e ≤ self.end) × (self.end ≤ 16384) }
        ensures { (result.at ≡ e + 1) × (result.end ≡ self.end) × (result.awaited ≡ self.awaited) }
    {
        Cursor {
            at: e + 1,
            end: self.end,
            awaited: self.awaited,
        }
    }

    // A field was missing or not what it should be.
    pub fn failed(self) -> Self
        requires { self.end ≤ 16384 }
        ensures { (result.at ≡ self.end + 2) × (result.end ≡ self.end) × (result.awaited ≡ self.awaited) }
    {
        Cursor {
            at: self.end + 2,
            end: self.end,
            awaited: self.awaited,
        }
    }

    // Behind its line, where the next one starts.
    pub fn line_done(self) -> Self
        requires { self.end < 18446744073709551615 }
        ensures { result ≡ line_done self }
    {
        Cursor {
            at: self.end + 1,
            end: self.end,
            awaited: self.awaited,
        }
    }

    // So many lines are awaited from here on.
    pub fn awaiting(self, awaited: u64) -> Self
        ensures { result ≡ awaiting_many self awaited }
    {
        Cursor {
            at: self.at,
            end: self.end,
            awaited,
        }
    }

    // A line that was awaited is done, with all below it, where the cursor of that child stands: one fewer is awaited.
    pub fn child_done(self, child: Cursor) -> Self
        requires { 0 < self.awaited }
        ensures { result ≡ child_done self child }
    {
        Cursor {
            at: child.at,
            end: child.end,
            awaited: self.awaited - 1,
        }
    }
}
