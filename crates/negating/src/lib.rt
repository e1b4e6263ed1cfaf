// The call negate: a query that asks for what its pattern doesn't match.
#![tactic(auto)]

ghost use Rattle.std.specs.Prelude.{◌≡◌, ◌++◌, ◌≤◌, length};
ghost use Rattle.algebra.specs.Query.{Query};
ghost use Rattle.algebra.specs.Reader.{reads};
ghost use Rattle.algebra.specs.Bounded.{layout_query};
ghost use Rattle.algebra.specs.Given.{read_given_query};
ghost use Rattle.emit.specs.bridge.Writer.{Wrote};
ghost use Rattle.answers.specs.Outcome.{written, Answered};
ghost use Rattle.heads.specs.bridge.TreeAt.{Parts};
ghost use Rattle.merging.specs.Negate.{negate_query, negate_outcome};
ghost use Rattle.words.specs.bridge.Key.{key_in};
ghost use Rattle.negating.specs.bridge.Lines.{passed, Finds};
ghost use Rattle.negating.specs.bridge.Negated.{negated_at};

use algebra::EMPTY_TREE;
use answers::{Answer, write_answer};
use cursor::Cursor;
use emit::Writer;
use heads::{copy_behind, is_select_or_ask, tree_start};
use reading::check_query;
use words::table::all_words;
use words::{keys, word_at};

// modify_outermost_projection goes down through a line whose word has this key; a group's second line is `cols`.
fn is_passed(key: u64) -> bool
    ensures { result ≡ key_in key passed }
{
    match key {
        keys::DISTINCT => true,
        keys::REDUCED => true,
        keys::SLICE => true,
        keys::ORDERBY => true,
        keys::GROUP => true,
        keys::COLS => true,
        _ => false,
    }
}

// Where the outermost projection's line and its inner pattern start.
#[derive(Clone, Copy)]
pub struct Outermost {
    pub line: usize,
    pub inner: usize,
}

// The outermost projection of the tree that starts here, if there is one.
pub fn outermost_projection(text: &[u8], from: usize) -> Option<Outermost>
    ensures { Finds text.now from result }
{
    let mut c = Cursor::new(0).moved_to(from);
    while c.at < text.len() {
        let line = c.next_line(text);
        if line.end == text.len() {
            return None;
        }
        let w = word_at(text, c.at, line.end);
        let next = line.line_done();
        if w.key == keys::PROJECT {
            return Some(Outermost {
                line: c.at,
                inner: next.at,
            });
        }
        if !is_passed(w.key) {
            return None;
        }
        c = next;
    }
    None
}

const NOT_EXISTS: [u8; 24] = *b"filter\nbgp\t0\nnot\nexists\n";

// A head, and behind it a tree with its projection's inner pattern asked not to exist.
fn put_negated(head: &[u8], tree: &[u8], inner: usize, w: &mut Writer)
    requires { inner ≤ length tree.now }
    ensures { Wrote w.old w.new (head.now ++ negated_at inner tree.now) }
{
    w.put_all(head);
    w.put_all(&tree[..inner]);
    w.put_all(&NOT_EXISTS);
    w.put_all(&tree[inner..]);
}

// negate_query, for the two parts of a query that was checked.
fn negate_of(head: &[u8], tree: &[u8], out: &mut [u8]) -> Answer
    requires { (q : Query) × Parts head.now tree.now q }
    ensures { (q : Query) → Parts head.now tree.now q → Answered (written (layout_query (negate_query q))) out.old out.new result }
{
    if !is_select_or_ask(head) {
        return copy_behind(head, tree, out);
    }
    let Some(outermost) = outermost_projection(tree, 0) else {
        return copy_behind(head, tree, out);
    };
    let inner = outermost.inner;
    write_answer(out, |w| put_negated(head, tree, inner, w))
}

// The same for a query that was checked: its tree stands behind its head, or is that of an empty file.
fn negate_given(query: &[u8], out: &mut [u8]) -> Answer
    requires { (q : Query) × (read_given_query query.now ≡ reads q) }
    ensures { Answered (negate_outcome query.now) out.old out.new result }
{
    let from = tree_start(query);
    if from < query.len() {
        return negate_of(&query[..from], &query[from..], out);
    }
    negate_of(query, &EMPTY_TREE, out)
}

// negate: query to query.
pub fn negate(query: &[u8], out: &mut [u8]) -> Answer
    ensures { Answered (negate_outcome query.now) out.old out.new result }
{
    let words = all_words();
    let mut table = [[0u16; 2]; 1024];
    let mut hints = [0u16; 2048];
    check_query(query, &words, &mut table, &mut hints)?;
    negate_given(query, out)
}
