// A query's head line: where it ends, its kind, and whether two heads are one; and texts copied as they are.
#![tactic(auto)]

ghost use Rattle.std.specs.Prelude.{◌≡◌, ◌++◌};
ghost use Rattle.algebra.specs.Query.{Query};
ghost use Rattle.emit.specs.bridge.Writer.{Wrote};
ghost use Rattle.answers.specs.Outcome.{written, Answered};
ghost use Rattle.merging.specs.Merge.{is_select_or_ask, mergeable};
ghost use Rattle.heads.specs.bridge.TreeAt.{HeadOf, Starts};

use answers::{Answer, write_answer};
use cursor::field_end;
use emit::Writer;
use reader::line_end;
use text::equal;

// Where the tree starts: behind the first line.
pub fn tree_start(query: &[u8]) -> usize
    ensures { Starts query.now result }
{
    let end = line_end(query, 0);
    if end == query.len() {
        return end;
    }
    end + 1
}

const SELECT: [u8; 6] = *b"select";

const ASK: [u8; 3] = *b"ask";

// The kind that a head line has is select or ask.
pub fn is_select_or_ask(head: &[u8]) -> bool
    ensures { (q : Query) → HeadOf head.now q → result ≡ is_select_or_ask q.kind }
{
    let end = line_end(head, 0);
    let word = field_end(head, 0, end);
    if word == end {
        return false;
    }
    let from = word + 1;
    let to = field_end(head, from, end);
    if equal(&head[from..to], &SELECT) {
        return true;
    }
    equal(&head[from..to], &ASK)
}

// Both heads are the same, and of a kind that is merged.
pub fn is_mergeable(left: &[u8], right: &[u8]) -> bool
    ensures { (a b : Query) → HeadOf left.now a → HeadOf right.now b → result ≡ mergeable a b }
{
    if !is_select_or_ask(left) {
        return false;
    }
    equal(left, right)
}

// The text as it is.
pub fn copy(text: &[u8], out: &mut [u8]) -> Answer
    ensures { Answered (written text.now) out.old out.new result }
{
    write_answer(out, |w| w.put_all(text))
}

// A head and what stands behind it.
fn put_behind(head: &[u8], tree: &[u8], w: &mut Writer)
    ensures { Wrote w.old w.new (head.now ++ tree.now) }
{
    w.put_all(head);
    w.put_all(tree);
}

// A head and a tree's text, as they are.
pub fn copy_behind(head: &[u8], tree: &[u8], out: &mut [u8]) -> Answer
    ensures { Answered (written (head.now ++ tree.now)) out.old out.new result }
{
    write_answer(out, |w| put_behind(head, tree, w))
}
