// A project's line: its word, its columns, and where its inner pattern starts.
ghost use Rattle.std.specs.Prelude.{◌≡◌, ◌≤◌, [], length, get_or};
ghost use Rattle.text.specs.Text.{same, lines_from};
ghost use Rattle.text.specs.Word.{bytes};
ghost use Rattle.cursor.specs.bridge.Cursor.{left};
ghost use Rattle.algebra.specs.Layout.{put};
ghost use Rattle.merging.specs.Request.{Projection, tree};

use cursor::field_end;
use reader::line_end;
use words::{keys, word_at};

// The line that starts here is a project's.
pub fn is_project(text: &[u8], from: usize) -> bool
    ensures { result ≡ same (get_or (get_or (lines_from text.now from) 0 []) 0 []) (bytes "project") }
{
    let end = line_end(text, from);
    if end == text.len() {
        return false;
    }
    let w = word_at(text, from, end);
    w.key == keys::PROJECT
}

// How many fields there are from here to the line's end.
fn count_fields(text: &[u8], from: usize, end: usize) -> usize
    requires { end ≤ length text.now }
    ensures { result ≡ length (left text.now from end) }
{
    let mut c = 0;
    let mut next = from;
    while next <= end {
        next = field_end(text, next, end) + 1;
        c += 1;
    }
    c
}

// Where a project's inner pattern starts, and how many columns it has.
#[derive(Clone, Copy)]
pub struct Found {
    pub inner: usize,
    pub columns: usize,
}

// The columns of the project that starts here.
pub fn find_columns(text: &[u8], from: usize) -> Found
    requires { (x : Projection) × (lines_from text.now from ≡ put (tree x) []) }
    ensures { (result.inner ≤ length text.now) × ((x : Projection) → lines_from text.now from ≡ put (tree x) [] → (result.columns ≡ length x.columns) × (lines_from text.now result.inner ≡ put x.inner [])) }
{
    let end = line_end(text, from);
    let w = word_at(text, from, end);
    Found {
        inner: end + 1,
        columns: count_fields(text, w.end + 1, end),
    }
}
