// The line reader: a text and the start of its next line. It is thin: what is done over it takes it apart and calls a function on slice and number.
#![tactic(auto)]

ghost use Rattle.std.specs.Prelude.{◌≤◌, length};
ghost use Rattle.text.specs.Text.{First};
ghost use Rattle.reader.specs.bridge.Lines.{EndsAt, LineEnd};

use text::find;

#[derive(Clone, Copy)]
pub struct LineReader<'a> {
    pub text: &'a [u8],
    pub next: usize,
}

// The end of the line that starts at a place, or of the text.
fn end_from(text: &[u8], next: usize) -> usize
    ensures { EndsAt text.now next result }
{
    if text.len() < next {
        return text.len();
    }
    find(text, next, text.len(), 10)
}

// The end of the line that starts at a place of the text, for those who know that the place is one.
pub fn next_end(text: &[u8], next: usize) -> usize
    requires { next ≤ length text.now }
    ensures { First 10 text.now next (length text.now) result }
{
    end_from(text, next)
}

// The end of the line that starts here; the end of the text if no line does, or none that is ended.
pub fn line_end(text: &[u8], from: usize) -> usize
    ensures { LineEnd text.now from result }
{
    if text.len() <= from {
        return text.len();
    }
    next_end(text, from)
}
