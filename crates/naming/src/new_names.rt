// What each name of the table becomes: the two numbers of a generated name, from its push.
ghost use Rattle.std.specs.Prelude.{◌≡◌, ℕ, ◌≤◌, ◌<◌, length, get_or};
ghost use Rattle.algebra.specs.Tally.{bounds};
ghost use Rattle.names.specs.bridge.Names.{starts_of, sizes_of, names_in};
ghost use Rattle.scoping.specs.bridge.Pushes.{all_pushes, new_name};
ghost use Rattle.naming.specs.bridge.Code.{book_of, StoredIn, Apart, numbered_by, names_at, becomes, Standard};

use crate::numbers::{LABELLED, PLAIN, wide};
use crate::pushes::{find_label, push_all, push_joins};
use algebra::PerEntry;
use names::{Entry, find_name};
use text::piece;

// What a name becomes, by the last push for it: its number, and its letter with 256, or with 512 where Label stands behind it;
// twice 0 where the name stays. If both the name and the name without its Label are bases, the shorter one was pushed later.
fn find_push(
    f: &[u8],
    text: &[u8],
    listed: &[Entry; 1024],
    hints: &[u16; 2048],
    marks: &[Entry; 1024],
    m: usize,
) -> Entry
    requires { StoredIn text.now listed.now hints.now marks.now m × Apart (book_of text.now listed.now marks.now m) }
    ensures { becomes (get_or result 0 0) (get_or result 1 0) f.now ≡ new_name (book_of text.now listed.now marks.now m) f.now }
{
    let i = find_label(f, text, listed, hints, m);
    if i < m {
        let e = marks[i];
        return [e[1], e[0] + LABELLED];
    }
    let k = find_name(f, text, listed, hints, m);
    if k < m {
        let e = marks[k];
        return [e[1], e[0] + PLAIN];
    }
    [0, 0]
}

// The new names of all names of the table, each found once.
fn set_new_names(
    text: &[u8],
    table: &[Entry; 1024],
    n: usize,
    listed: &[Entry; 1024],
    hints: &[u16; 2048],
    marks: &[Entry; 1024],
    m: usize,
    news: &mut [Entry],
)
    requires { (n ≤ 1024) × StoredIn text.now listed.now hints.now marks.now m × Apart (book_of text.now listed.now marks.now m) × (length news.old ≡ 1024) }
    ensures { Standard (book_of text.now listed.now marks.now m) (names_in text.now table.now n) n (starts_of news.new) (sizes_of news.new) (sizes_of news.old) }
{
    for k in 0..n {
        let e = table[k];
        let f = piece(text, wide(e[0]), wide(e[1]));
        news[k] = find_push(f, text, listed, hints, marks, m);
    }
}

// standardize_variables: what each name of the table becomes, by the flags of the names (in scope, and 1,024 on hidden) and the
// entries of the join variables.
pub fn standardize_variables(
    text: &[u8],
    table: &[Entry; 1024],
    n: usize,
    flags: &[u8; 2048],
    prefix: u8,
    joins: &PerEntry,
    m: usize,
    news: &mut [Entry],
)
    requires { (n ≤ 1024) × (m ≤ bounds.entries) × ((i : ℕ) → i < m → get_or joins.now i 0 < n) × (length news.old ≡ 1024) }
    ensures { Standard (all_pushes prefix (numbered_by flags.now (names_in text.now table.now n)) (names_at text.now (starts_of table.now) (sizes_of table.now) joins.now m 0)) (names_in text.now table.now n) n (starts_of news.new) (sizes_of news.new) (sizes_of news.old) }
{
    let mut listed = [[0u16; 2]; 1024];
    let mut hints = [0u16; 2048];
    let mut marks = [[0u16; 2]; 1024];
    let j = push_joins(text, table, joins, m, &mut listed, &mut hints, &mut marks);
    let k = push_all(
        text,
        table,
        n,
        flags,
        prefix,
        &mut listed,
        &mut hints,
        &mut marks,
        j,
    );
    set_new_names(text, table, n, &listed, &hints, &marks, k, news);
}
