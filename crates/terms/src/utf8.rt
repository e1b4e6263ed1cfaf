// UTF-8, byte by byte: how many bytes are still to come, and the bounds of the next one.
ghost use Rattle.std.specs.Prelude.{◌≡◌, drop};
ghost use Rattle.editions.specs.Lexical.{lead as leadOf, is_utf8};
ghost use Rattle.terms.specs.bridge.State.{state_of, Steps};

// So many bytes are still to come, the next of them from low to high.
#[derive(Clone, Copy)]
pub struct Follow {
    pub count: u8,
    pub low: u8,
    pub high: u8,
}

// What follows a first byte, unless it is none.
fn lead(b: u8) -> Option<Follow>
    ensures { state_of result ≡ leadOf b }
{
    let (count, low, high) = match b {
        0..=127 => (0, 0, 0),
        194..=223 => (1, 128, 191),
        224 => (2, 160, 191),
        237 => (2, 128, 159),
        225..=239 => (2, 128, 191),
        240 => (3, 144, 191),
        241..=243 => (3, 128, 191),
        244 => (3, 128, 143),
        _ => return None,
    };
    Some(Follow { count, low, high })
}

// One byte more, unless it may not follow.
#[tactic(auto, using(crate::proofs::Laws::dead), unfolding(editions::specs::Lexical::utf8))]
fn step(f: Follow, b: u8) -> Option<Follow>
    ensures { Steps f b result }
{
    if f.count == 0 {
        return lead(b);
    }
    if f.low <= b && b <= f.high {
        return Some(Follow {
            count: f.count - 1,
            low: 128,
            high: 191,
        });
    }
    None
}

// What stands from the first byte over 127 on.
#[tactic(auto, unfolding(editions::specs::Lexical::utf8))]
fn behind_ascii(f: &[u8]) -> &[u8]
    ensures { is_utf8 f.now ≡ is_utf8 result.now }
{
    for (i, b) in f.iter().enumerate() {
        if 127 < *b {
            return &f[i..];
        }
    }
    &[]
}

#[tactic(auto, unfolding(editions::specs::Lexical::utf8))]
pub(crate) fn is_encoded(f: &[u8]) -> bool
    ensures { result ≡ is_utf8 f.now }
{
    let mut state = Follow {
        count: 0,
        low: 0,
        high: 0,
    };
    let rest = behind_ascii(f);
    for b in rest {
        let Some(next) = step(state, *b) else {
            return false;
        };
        state = next;
    }
    state.count == 0
}

// The same of the bytes from a place on.
pub fn is_utf8(f: &[u8], from: usize) -> bool
    ensures { result ≡ is_utf8 (drop from f.now) }
{
    let at = from.min(f.len());
    is_encoded(&f[at..])
}
