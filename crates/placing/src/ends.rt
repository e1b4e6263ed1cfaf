// Where a pattern ends: line by line while something is to come, by the one table of words.
ghost use Rattle.std.specs.Prelude.{◌≡◌, ℕ, ◌+◌, ◌≤◌, ◌<◌, [], ◌∷◌, length, get_or};
ghost use Rattle.text.specs.Text.{Bytes, part, split, lines_from};
ghost use Rattle.algebra.specs.Tree.{Pattern};
ghost use Rattle.algebra.specs.Reader.{reads};
ghost use Rattle.algebra.specs.Texts.{read_tree};
ghost use Rattle.algebra.specs.bridge.Table.{table, row_in};
ghost use Rattle.cursor.specs.bridge.Cursor.{left};
ghost use Rattle.scoping.specs.bridge.Walk.{row_or, number_in};
ghost use Rattle.words.specs.bridge.Code.{row_of, groups_in};
ghost use Rattle.words.specs.bridge.Key.{Keyed, key_in};
ghost use Rattle.words.specs.bridge.Words.{Worded};
ghost use Rattle.negating.specs.bridge.Lines.{Projects};
ghost use Rattle.filtering.specs.bridge.Copying.{amounts, to_come};
ghost use Rattle.placing.specs.bridge.Ends.{EndsAt, bare, bare_down};

use cursor::Cursor;
use lines::below::amount;
use walking::line::count_at;
use words::table::{WordRow, any_word, row_at};
use words::{Row, keys, word_at};

// The row of a word by its key, whatever its sort; one without lines below where it is none.
fn row_of(words: &[WordRow; 56], key: u64) -> Row
    requires { Worded words.now }
    ensures { (f : Bytes) → Keyed f key → row_of result ≡ row_or (row_in table f) }
{
    let Some(row) = row_at(words, any_word(words, key)) else {
        return Row {
            fields: 0,
            behind: 0,
            flag: 0,
            below: 0,
        };
    };
    row
}

// How many lines a row asks for below its line, whose fields behind the word stand from `first` to its end.
pub fn lines_asked(text: &[u8], below: u64, first: usize, end: usize) -> u64
    requires { end < length text.now }
    ensures { (result ≡ amounts (groups_in 3 below) (number_in (get_or (left text.now first end) 0 []) ∷ number_in (get_or (left text.now first end) 1 []) ∷ [])) × (result ≤ 17179869183) }
{
    if below == 0 {
        return 0;
    }
    let a = count_at(text, first, end);
    let b = count_at(text, a.next, end);
    let next = below / 512;
    amount(below, a.number, b.number)
        + amount(next, a.number, b.number)
        + amount(next / 512, a.number, b.number)
}

// How many lines stand directly below a line whose word has this key, and whose other fields stand from `first` to its end.
pub fn lines_under(text: &[u8], words: &[WordRow; 56], key: u64, first: usize, end: usize) -> u64
    requires { (end < length text.now) × Worded words.now }
    ensures { ((f : Bytes) → Keyed f key → result ≡ to_come (f ∷ left text.now first end)) × (result ≤ 17179869183) }
{
    let row = row_of(words, key);
    lines_asked(text, row.below, first, end)
}

// How many lines stand directly below a line.
pub fn lines_below(text: &[u8], words: &[WordRow; 56], from: usize, end: usize) -> u64
    requires { (from ≤ end) × (end < length text.now) × Worded words.now }
    ensures { (result ≡ to_come (split 9 (part from end text.now))) × (result ≤ 17179869183) }
{
    let w = word_at(text, from, end);
    lines_under(text, words, w.key, w.end + 1, end)
}

// Where the pattern that starts here ends.
pub fn pattern_end(text: &[u8], words: &[WordRow; 56], from: usize) -> usize
    requires { (from ≤ length text.now) × (length text.now ≤ 16384) × Worded words.now }
    ensures { EndsAt text.now from result }
{
    let mut c = Cursor {
        at: from,
        end: from,
        awaited: 1,
    };
    while 0 < c.awaited {
        let line = c.next_line(text);
        if line.end == text.len() {
            return line.end;
        }
        let below = lines_below(text, words, c.at, line.end);
        c = line.line_done().awaiting(c.awaited - 1 + below);
    }
    c.at
}

// A line whose word has this key has a pattern below it and nothing else.
fn is_bare(key: u64) -> bool
    ensures { result ≡ key_in key bare }
{
    match key {
        keys::DISTINCT => true,
        keys::REDUCED => true,
        keys::SLICE => true,
        _ => false,
    }
}

// Only such lines stand above the outermost projection's.
fn is_bare_down(text: &[u8]) -> bool
    ensures { result ≡ bare_down (lines_from text.now 0) }
{
    let mut c = Cursor::new(0);
    while c.at < text.len() {
        let line = c.next_line(text);
        if line.end == text.len() {
            return false;
        }
        let w = word_at(text, c.at, line.end);
        if w.key == keys::PROJECT {
            return true;
        }
        if !is_bare(w.key) {
            return false;
        }
        c = line.line_done();
    }
    false
}

// Where the outermost projection's inner pattern ends: with the text, where nothing can stand behind it.
pub fn inner_end(text: &[u8], words: &[WordRow; 56], inner: usize) -> usize
    requires { ((p : Pattern) × (read_tree text.now ≡ reads p)) × ((line : ℕ) × Projects text.now 0 line inner) × Worded words.now }
    ensures { EndsAt text.now inner result }
{
    if is_bare_down(text) {
        return text.len();
    }
    pattern_end(text, words, inner)
}
