// The shape of a tree from the lines of its text: how many there are, and how deep they go.
#![tactic(auto)]

ghost use Rattle.std.specs.Prelude.{◌≡◌, ◌+◌, ◌≤◌, ◌<◌, max, [], length, get_or};
ghost use Rattle.text.specs.Text.{part, split};
ghost use Rattle.words.specs.bridge.Key.{key_in};
ghost use Rattle.words.specs.bridge.Words.{Worded};
ghost use Rattle.shapes.specs.bridge.Shape.{flat, level_of, Passes};

use cursor::Cursor;
use placing::ends::lines_below;
use words::table::WordRow;
use words::{keys, word_at};

// How far a walk over lines is: where the next one starts, how many were passed, and the deepest level among them.
#[derive(Clone, Copy)]
pub struct Reached {
    pub at: usize,
    pub lines: usize,
    pub depth: usize,
}

// A line whose word has this key opens no level.
fn is_flat(key: u64) -> bool
    ensures { result ≡ key_in key flat }
{
    match key {
        keys::T => true,
        keys::COLS => true,
        keys::ROW => true,
        keys::ASC => true,
        keys::DESC => true,
        keys::AGG => true,
        keys::AGGALL => true,
        _ => false,
    }
}

// The level that a line opens below another level.
fn level_of(text: &[u8], from: usize, end: usize, level: usize) -> usize
    requires { (from ≤ end) × (end < length text.now) × (level ≤ from) }
    ensures { (result ≡ level_of level (get_or (split 9 (part from end text.now)) 0 [])) × (result ≤ level + 1) }
{
    let w = word_at(text, from, end);
    if is_flat(w.key) {
        return level;
    }
    level + 1
}

// The line that starts here, below so many levels, with all that it asks for: it goes on by itself for each line below.
pub fn pass_line(text: &[u8], words: &[WordRow; 56], level: usize, from: Reached) -> Reached
    requires { (from.at ≤ length text.now) × (level ≤ from.at) × (from.lines ≤ from.at) × Worded words.now }
    ensures { Passes text.now level from.at from.lines from.depth result }
{
    let line = Cursor::new(0).moved_to(from.at).next_line(text);
    let end = line.end;
    if end == text.len() {
        return Reached { at: end, ..from };
    }
    let d = level_of(text, from.at, end, level);
    let mut r = Reached {
        at: end + 1,
        lines: from.lines + 1,
        depth: from.depth.max(d),
    };
    let below = lines_below(text, words, from.at, end);
    for _child in 0..below {
        r = pass_line(text, words, d, r);
    }
    r
}
