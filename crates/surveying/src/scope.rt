// The call scope: the variables of a tree that are in scope, and those that are hidden.
ghost use Rattle.std.specs.Prelude.{◌≡◌, ◌*◌, ◌≤◌, ◌<◌, [], ◌∷◌, cond, eqb, length};
ghost use Rattle.names.specs.bridge.Names.{starts_of, sizes_of, names_in, name_in};
ghost use Rattle.emit.specs.bridge.Writer.{Wrote};
ghost use Rattle.answers.specs.Outcome.{Answered};
ghost use Rattle.surveying.specs.Scope.{scope_outcome};
ghost use Rattle.surveying.specs.bridge.AsIs.{scope_as_is};
ghost use Rattle.scoping.specs.bridge.Flagged.{chosen};
ghost use Rattle.surveying.specs.bridge.Code.{Surveyed, chosen_text};
ghost use Rattle.walking.specs.bridge.Walk.{tabbed};

use algebra::EMPTY_TREE;
use answers::{Answer, write_answer};
use emit::Writer;
use lines::fields::{Node, Spot};
use names::{Entry, new_table, wide};
use reading::note_tree;
use text::piece;
use walking::places::note_places;
use words::table::all_words;

// The names whose flags from `base` on are set, each after a tab.
fn put_names(
    tree: &[u8],
    table: &[Entry; 1024],
    n: usize,
    flags: &[u8; 2048],
    base: usize,
    w: &mut Writer,
)
    requires { (n ≤ 1024) × (base ≤ 1024) }
    ensures { Wrote w.old w.new (tabbed (chosen base flags.now (names_in tree.now table.now n))) }
{
    for k in 0..n {
        put_name(tree, table, k, flags[base + k], w);
    }
}

// The name at an entry, after a tab, if its flag is set.
fn put_name(tree: &[u8], table: &[Entry; 1024], k: usize, flag: u8, w: &mut Writer)
    requires { k < 1024 }
    ensures { Wrote w.old w.new (tabbed (cond (eqb flag 0) [] (name_in tree.now table.now k ∷ []))) }
{
    if flag == 0 {
        return;
    }
    w.put(9);
    let e = table[k];
    w.put_all(piece(tree, wide(e[0]), wide(e[1])));
}

const IN: [u8; 2] = *b"in";

const HID: [u8; 3] = *b"hid";

// The two lines.
fn put_scope(tree: &[u8], table: &[Entry; 1024], n: usize, flags: &[u8; 2048], w: &mut Writer)
    requires { n ≤ 1024 }
    ensures { Wrote w.old w.new (chosen_text flags.now (names_in tree.now table.now n)) }
{
    w.put_all(&IN);
    put_names(tree, table, n, flags, 0, w);
    w.put(10);
    w.put_all(&HID);
    put_names(tree, table, n, flags, 1024, w);
    w.put(10);
}

// The answer for a tree whose variables were noted.
fn scope_of(
    tree: &[u8],
    table: &[Entry; 1024],
    n: usize,
    spots: &[Spot],
    k: usize,
    out: &mut [u8],
) -> Answer
    requires { Surveyed tree.now (starts_of table.now) (sizes_of table.now) n spots.now k }
    ensures { Answered (scope_as_is tree.now) out.old out.new result }
{
    let mut flags = [0u8; 2048];
    note_places(spots, k, &mut flags);
    write_answer(out, |w| put_scope(tree, table, n, &flags, w))
}

// The same for any text, where the spots have room for all that a text within the bounds can have. Lines aren't noted.
fn scope_over(tree: &[u8], spots: &mut [Spot], out: &mut [u8]) -> Answer
    requires { length tree.now ≤ 16384 → length tree.now ≤ 3 * length spots.old }
    ensures { Answered (scope_as_is tree.now) out.old out.new result }
{
    let words = all_words();
    let mut table = new_table();
    let mut hints = [0u16; 2048];
    let mut nodes: [Node; 0] = [[0, 0, 0]; 0];
    let noted = note_tree(tree, &words, &mut table, &mut hints, spots, &mut nodes)?;
    scope_of(tree, &table, noted.names, spots, noted.spots, out)
}

// The same with so many spots, which are cleared first. Each size has a frame of its own.
#[inline(never)]
fn scope_in<const SPOTS: usize>(tree: &[u8], out: &mut [u8]) -> Answer
    requires { (SPOTS ≤ 5462) × (length tree.now ≤ 16384 → length tree.now ≤ 3 * SPOTS) }
    ensures { Answered (scope_as_is tree.now) out.old out.new result }
{
    let mut spots = [[0u16; 3]; SPOTS];
    scope_over(tree, &mut spots, out)
}

// A tree's text as it stands to the lines `in` and `hid`, with as many spots as pays.
fn scope_text(tree: &[u8], out: &mut [u8]) -> Answer
    ensures { Answered (scope_as_is tree.now) out.old out.new result }
{
    match tree.len() {
        0..=768 => scope_in::<256>(tree, out),
        769..=1536 => scope_in::<512>(tree, out),
        1537..=6144 => scope_in::<2048>(tree, out),
        _ => scope_in::<5462>(tree, out),
    }
}

// scope: tree to the lines `in` and `hid`; an empty file is read as its two lines.
pub fn scope(tree: &[u8], out: &mut [u8]) -> Answer
    ensures { Answered (scope_outcome tree.now) out.old out.new result }
{
    if tree.len() == 0 {
        return scope_text(&EMPTY_TREE, out);
    }
    scope_text(tree, out)
}
