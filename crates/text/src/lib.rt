// Lines and fields of a text: finding, comparing and judging parts of a lent slice, which are handed back without a copy.
#![tactic(auto)]

mod integers;
mod kinds;

ghost use Rattle.std.specs.Prelude.{◌≡◌, ℕ, ◌+◌, ◌≤◌, ◌<◌, true, false, length, get_or, drop};
ghost use Rattle.text.specs.Text.{same, piece as piece_of, First};

pub use integers::number_of;
pub use kinds::{is_kind, is_var};

// None of the eight bytes from a place on is `b`. Tests joined by `&` become one comparison of eight bytes.
fn lacks_eight(s: &[u8], i: usize, b: u8) -> bool
    requires { i + 8 ≤ length s.now }
    ensures { result ≡ true → (k : ℕ) → k < i + 8 → i ≤ k → get_or s.now k 0 ≡ b → ⊥ }
{
    (s[i] != b)
        & (s[i + 1] != b)
        & (s[i + 2] != b)
        & (s[i + 3] != b)
        & (s[i + 4] != b)
        & (s[i + 5] != b)
        & (s[i + 6] != b)
        & (s[i + 7] != b)
}

// Nor is one of the four from there on.
fn lacks_four(s: &[u8], i: usize, b: u8) -> bool
    requires { i + 4 ≤ length s.now }
    ensures { result ≡ true → (k : ℕ) → k < i + 4 → i ≤ k → get_or s.now k 0 ≡ b → ⊥ }
{
    (s[i] != b) & (s[i + 1] != b) & (s[i + 2] != b) & (s[i + 3] != b)
}

// The first place from `from` up to `to` at which `b` stands, or `to`.
pub fn find(s: &[u8], from: usize, to: usize, b: u8) -> usize
    requires { (from ≤ to) × (to ≤ length s.now) }
    ensures { First b s.now from to result }
{
    let mut i = from;
    while 8 <= to - i {
        if !lacks_eight(s, i, b) {
            break;
        }
        i += 8;
    }
    if 4 <= to - i {
        if lacks_four(s, i, b) {
            i += 4;
        }
    }
    while i < to {
        if s[i] == b {
            return i;
        }
        i += 1;
    }
    i
}

// Four bytes from a place on are the same in both.
fn equal_four(f: &[u8], g: &[u8], i: usize) -> bool
    requires { (i + 4 ≤ length f.now) × (i + 4 ≤ length g.now) }
    ensures { (result ≡ true → same (drop i f.now) (drop i g.now) ≡ same (drop (i + 4) f.now) (drop (i + 4) g.now)) × (result ≡ false → same (drop i f.now) (drop i g.now) ≡ false) }
{
    (f[i] == g[i]) & (f[i + 1] == g[i + 1]) & (f[i + 2] == g[i + 2]) & (f[i + 3] == g[i + 3])
}

// Two runs of bytes are the same.
pub fn equal(f: &[u8], g: &[u8]) -> bool
    ensures { result ≡ same f.now g.now }
{
    if f.len() != g.len() {
        return false;
    }
    let mut i = 0;
    while 4 <= f.len() - i {
        if !equal_four(f, g, i) {
            return false;
        }
        i += 4;
    }
    while i < f.len() {
        if f[i] != g[i] {
            return false;
        }
        i += 1;
    }
    true
}

// So many bytes from a place on, as far as there are any.
pub fn piece(s: &[u8], from: usize, size: usize) -> &[u8]
    ensures { result.now ≡ piece_of from size s.now }
{
    if s.len() < from {
        return &s[..0];
    }
    let left = s.len() - from;
    if left < size {
        return &s[from..];
    }
    let to = from + size;
    &s[from..to]
}
