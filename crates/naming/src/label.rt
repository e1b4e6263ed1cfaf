// Names that end in the five bytes Label, and what stands before them.
ghost use Rattle.std.specs.Prelude.{◌≡◌, ◌≤◌, length, take};
ghost use Rattle.scoping.specs.Label.{is_label, base as base_of};

use text::equal;

pub const LABEL: [u8; 5] = *b"Label";

// A name ends in the five bytes Label.
pub fn ends_in_label(f: &[u8]) -> bool
    ensures { result ≡ is_label f.now }
{
    if f.len() < 5 {
        return false;
    }
    let e = f.len() - 5;
    equal(&f[e..], &LABEL)
}

// The size of a name without its Label.
pub fn base_size(f: &[u8]) -> usize
    ensures { (take result f.now ≡ base_of f.now) × (result ≤ length f.now) }
{
    if ends_in_label(f) {
        return f.len() - 5;
    }
    f.len()
}
