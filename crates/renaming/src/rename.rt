// The call rename: a tree under the names that a mapping gives.
ghost use Rattle.std.specs.Prelude.{◌≡◌, ℕ, ◌*◌, ◌≤◌, ◌<◌, true, false, [], length, get_or};
ghost use Rattle.names.specs.bridge.Names.{starts_of, sizes_of, names_in};
ghost use Rattle.lines.specs.bridge.Noded.{Roomy};
ghost use Rattle.lists.specs.bridge.Pairs.{pair_at, Enough};
ghost use Rattle.walking.specs.bridge.Code.{Named};
ghost use Rattle.answers.specs.Outcome.{Answered};
ghost use Rattle.renaming.specs.Rename.{rename_outcome};
ghost use Rattle.renaming.specs.bridge.AsIs.{rename_as_is};
ghost use Rattle.renaming.specs.bridge.Code.{Recorded, Renaming, KnownPairs, Targets, Settled, renamed_size};

use algebra::{EMPTY_TREE, ENTRIES};
use answers::{Answer, Refusal};
use descending::tree::rename_tree;
use emit::Writer;
use lines::fields::{Node, Spot};
use lists::{Entry as Pair, check_mapping, field_at};
use names::{Entry, find_name, new_table};
use reading::note_tree;
use walking::places::put_renamed;
use words::table::{WordRow, all_words};

// A pair of the mapping: the entry of its first name, if that is in the table, gets the second.
fn set_target(
    tree: &[u8],
    table: &[Entry; 1024],
    hints: &[u16; 2048],
    n: usize,
    mapping: &[u8],
    key: Pair,
    news: &mut [Entry; 1024],
)
    requires { (length news.old ≡ 1024) × Named tree.now (starts_of table.now) (sizes_of table.now) hints.now n × ((pair_at mapping.now key).second ≡ [] → ⊥) }
    ensures { Settled (names_in tree.now table.now n) n mapping.now (pair_at mapping.now key) (starts_of news.old) (sizes_of news.old) (starts_of news.new) (sizes_of news.new) }
{
    let k = find_name(field_at(mapping, key[0], key[1]), tree, table, hints, n);
    if k < n {
        news[k] = [key[2], key[3]];
    }
}

// What the mapping, whose pairs the first m entries tell, makes of each name of the table.
fn find_targets(
    tree: &[u8],
    table: &[Entry; 1024],
    hints: &[u16; 2048],
    n: usize,
    mapping: &[u8],
    keys: &[Pair],
    m: usize,
    news: &mut [Entry; 1024],
)
    requires { KnownPairs mapping.now keys.now m × (length news.old ≡ 1024) × ((i : ℕ) → get_or (sizes_of news.old) i 0 ≡ 0) × Named tree.now (starts_of table.now) (sizes_of table.now) hints.now n }
    ensures { Targets (names_in tree.now table.now n) n mapping.now (starts_of news.new) (sizes_of news.new) }
{
    for i in 0..m {
        set_target(tree, table, hints, n, mapping, keys[i], news);
    }
}

// The answer fits a buffer of so many bytes: it is at most 44 times as long as its tree, and is measured only where that says nothing.
fn is_room(
    tree: &[u8],
    table: &[Entry; 1024],
    n: usize,
    spots: &[Spot],
    k: usize,
    mapping: &[u8],
    news: &[Entry; 1024],
    room: usize,
) -> bool
    requires { Renaming tree.now (starts_of table.now) (sizes_of table.now) n spots.now k (sizes_of news.now) × Targets (names_in tree.now table.now n) n mapping.now (starts_of news.now) (sizes_of news.now) }
    ensures { (result ≡ true → renamed_size tree.now (starts_of table.now) (sizes_of table.now) n spots.now k mapping.now (starts_of news.now) (sizes_of news.now) ≤ room) × (result ≡ false → room < renamed_size tree.now (starts_of table.now) (sizes_of table.now) n spots.now k mapping.now (starts_of news.now) (sizes_of news.now)) }
{
    if tree.len() <= room / 44 {
        return true;
    }
    let end = tree.len();
    let mut none = [0u8; 0];
    let mut w = Writer::new(&mut none, 0);
    put_renamed(tree, 0, end, spots, 0, k, table, n, mapping, news, &mut w);
    w.at <= room
}

// The answer for a tree, a mapping and what it makes of each name: written if it fits.
fn rename_over(
    tree: &[u8],
    table: &[Entry; 1024],
    n: usize,
    spots: &[Spot],
    k: usize,
    mapping: &[u8],
    news: &[Entry; 1024],
    out: &mut [u8],
) -> Answer
    requires { Renaming tree.now (starts_of table.now) (sizes_of table.now) n spots.now k (sizes_of news.now) × Targets (names_in tree.now table.now n) n mapping.now (starts_of news.now) (sizes_of news.now) }
    ensures { Answered (rename_as_is tree.now mapping.now) out.old out.new result }
{
    if !is_room(tree, table, n, spots, k, mapping, news, out.len()) {
        return Err(Refusal::TooShort);
    }
    let end = tree.len();
    let mut w = Writer::new(out, 0);
    put_renamed(tree, 0, end, spots, 0, k, table, n, mapping, news, &mut w);
    Ok(w.at)
}

// The same for a tree that was checked and any mapping, with entries enough for it.
fn rename_listed(
    tree: &[u8],
    table: &[Entry; 1024],
    hints: &[u16; 2048],
    n: usize,
    spots: &mut [Spot],
    k: usize,
    words: &[WordRow; 56],
    nodes: &[Node],
    m: usize,
    mapping: &[u8],
    keys: &mut [Pair],
    out: &mut [u8],
) -> Answer
    requires { Recorded tree.now (starts_of table.now) (sizes_of table.now) hints.now n spots.old k words.now nodes.now m × Enough mapping.now keys.old }
    ensures { Answered (rename_as_is tree.now mapping.now) out.old out.new result }
{
    let pairs = check_mapping(mapping, keys)?;
    let mut news = [[0u16; 2]; 1024];
    find_targets(tree, table, hints, n, mapping, keys, pairs, &mut news);
    rename_tree(words, nodes, m, spots, k, &news);
    rename_over(tree, table, n, spots, k, mapping, &news, out)
}

// The same with so many entries, which are cleared first.
fn rename_keyed<const KEYS: usize>(
    tree: &[u8],
    table: &[Entry; 1024],
    hints: &[u16; 2048],
    n: usize,
    spots: &mut [Spot],
    k: usize,
    words: &[WordRow; 56],
    nodes: &[Node],
    m: usize,
    mapping: &[u8],
    out: &mut [u8],
) -> Answer
    requires { (KEYS ≤ 256) × ((i : ℕ) → i < 256 → 2 * i < length mapping.now → i < KEYS) × Recorded tree.now (starts_of table.now) (sizes_of table.now) hints.now n spots.old k words.now nodes.now m }
    ensures { Answered (rename_as_is tree.now mapping.now) out.old out.new result }
{
    let mut keys = [[0u16; 4]; KEYS];
    rename_listed(
        tree, table, hints, n, spots, k, words, nodes, m, mapping, &mut keys, out,
    )
}

// The same for any tree, where spots and nodes have room for all that a text within the bounds can have, with as many entries as pays.
fn rename_with(
    tree: &[u8],
    spots: &mut [Spot],
    nodes: &mut [Node],
    mapping: &[u8],
    out: &mut [u8],
) -> Answer
    requires { (length tree.now ≤ 16384 → length tree.now ≤ 3 * length spots.old) × Roomy tree.now nodes.old }
    ensures { Answered (rename_as_is tree.now mapping.now) out.old out.new result }
{
    let words = all_words();
    let mut table = new_table();
    let mut hints = [0u16; 2048];
    let noted = note_tree(tree, &words, &mut table, &mut hints, spots, nodes)?;
    let n = noted.names;
    let k = noted.spots;
    let m = noted.nodes;
    if mapping.len() <= 128 {
        return rename_keyed::<64>(
            tree, &table, &hints, n, spots, k, &words, nodes, m, mapping, out,
        );
    }
    rename_keyed::<ENTRIES>(
        tree, &table, &hints, n, spots, k, &words, nodes, m, mapping, out,
    )
}

// The same with so many spots and nodes, which are cleared first. Each size has a frame of its own.
#[inline(never)]
fn rename_in<const NODES: usize, const SPOTS: usize>(
    tree: &[u8],
    mapping: &[u8],
    out: &mut [u8],
) -> Answer
    requires { (SPOTS ≤ 5462) × (NODES ≤ 2048) × (length tree.now ≤ 16384 → length tree.now ≤ 3 * SPOTS) × ((m : ℕ) → 3 * m ≤ length tree.now → m ≤ 2048 → m ≤ NODES) }
    ensures { Answered (rename_as_is tree.now mapping.now) out.old out.new result }
{
    let mut spots = [[0u16; 3]; SPOTS];
    let mut nodes = [[0u32; 3]; NODES];
    rename_with(tree, &mut spots, &mut nodes, mapping, out)
}

// A tree's text as it stands and a mapping to tree, with as many spots and nodes as pays.
fn rename_text(tree: &[u8], mapping: &[u8], out: &mut [u8]) -> Answer
    ensures { Answered (rename_as_is tree.now mapping.now) out.old out.new result }
{
    match tree.len() {
        0..=384 => rename_in::<128, 128>(tree, mapping, out),
        385..=768 => rename_in::<256, 256>(tree, mapping, out),
        769..=1536 => rename_in::<512, 512>(tree, mapping, out),
        1537..=6144 => rename_in::<2048, 2048>(tree, mapping, out),
        _ => rename_in::<2048, 5462>(tree, mapping, out),
    }
}

// rename: tree and mapping to tree; an empty file is read as its two lines.
pub fn rename(tree: &[u8], mapping: &[u8], out: &mut [u8]) -> Answer
    ensures { Answered (rename_outcome tree.now mapping.now) out.old out.new result }
{
    if tree.len() == 0 {
        return rename_text(&EMPTY_TREE, mapping, out);
    }
    rename_text(tree, mapping, out)
}
