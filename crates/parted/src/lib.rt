// The texts of an input, parted by lines `--`, as parts of the lent slice.
#![tactic(auto)]

ghost use Rattle.std.specs.Prelude.{◌≡◌, [], true, false, ◌+◌, ◌-◌, ◌≤◌, ◌<◌, length, get_or};
ghost use Rattle.parted.specs.Parted.{texts};
ghost use Rattle.parted.specs.bridge.Code.{BarAt, Ends, start_of, Parted};

use text::find;

// A line `--` of the text that starts at `from` stands at this dash.
fn is_bar(s: &[u8], from: usize, at: usize) -> bool
    requires { (from ≤ at) × (at + 3 ≤ length s.now) × (get_or s.now at 0 ≡ 45) }
    ensures { (result ≡ true → BarAt s.now from at) × (result ≡ false → BarAt s.now from at → ⊥) }
{
    if s[at + 1] != 45 {
        return false;
    }
    if s[at + 2] != 10 {
        return false;
    }
    if at == from {
        return true;
    }
    s[at - 1] == 10
}

// Where the text that starts here ends: at the next line `--`, or with the input.
fn text_end(s: &[u8], from: usize) -> usize
    requires { from ≤ length s.now }
    ensures { Ends s.now from result }
{
    let mut at = from;
    while at < s.len() {
        let dash = find(s, at, s.len(), 45);
        if s.len() - dash < 3 {
            return s.len();
        }
        if is_bar(s, from, dash) {
            return dash;
        }
        at = dash + 1;
    }
    s.len()
}

// The texts' ends, of as many as there is room for, and how many lines `--` the input has.
pub fn part_texts(s: &[u8], ends: &mut [usize]) -> usize
    requires { 0 < length ends.old }
    ensures { (length (texts s.now) ≡ result + 1) × Parted s.now ends.new (length ends.old) result }
{
    let mut n = 0;
    let mut end = text_end(s, 0);
    ends[0] = end;
    while end < s.len() {
        n += 1;
        end = text_end(s, end + 3);
        if n < ends.len() {
            ends[n] = end;
        }
    }
    n
}

// Where a text starts: at the beginning, or behind the line `--` that ends the one before.
fn text_start(ends: &[usize], k: usize) -> usize
    requires { (k < length ends.now) × ((k ≡ 0 → ⊥) → get_or ends.now (k - 1) 0 + 3 < 18446744073709551616) }
    ensures { result ≡ start_of ends.now k }
{
    if k == 0 {
        return 0;
    }
    ends[k - 1] + 3
}

// The text of a number, counted from 0.
pub fn text_at<'a>(s: &'a [u8], ends: &[usize], n: usize, k: usize) -> &'a [u8]
    requires { (k < length ends.now) × (k ≤ n) × Parted s.now ends.now (length ends.now) n }
    ensures { result.now ≡ get_or (texts s.now) k [] }
{
    let from = text_start(ends, k);
    let to = ends[k];
    &s[from..to]
}
