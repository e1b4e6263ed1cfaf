// Writers: each stores a byte only where the buffer has its place, and always moves the place on. So one routine measures, on an empty buffer, and writes.
#![tactic(auto)]

ghost use Rattle.std.specs.Prelude.{◌≡◌, [], ◌∷◌, ℕ, ◌+◌, ◌<◌, ◌≤◌, min, length};
ghost use Rattle.std.proofs.lemmas.List.Edits.{sets};
ghost use Rattle.emit.specs.bridge.Emit.{em, last, puts};

// One byte.
pub fn put(out: &mut [u8], at: usize, b: u8) -> usize
    ensures { em result out.new ≡ puts (b ∷ []) (em at out.old) }
{
    if at < out.len() {
        out[at] = b;
        at + 1
    } else if at < usize::MAX {
        at + 1
    } else {
        at
    }
}

// A place moved on by `n`, at most to the last number.
fn past(at: usize, n: usize) -> usize
    ensures { result ≡ min (at + n) last }
{
    if n <= usize::MAX - at {
        at + n
    } else {
        usize::MAX
    }
}

// The bytes of a slice, where the buffer has room for all of them. A loop, as `copy_from_slice` has a library for C ask for `memmove`.
fn copy(out: &mut [u8], at: usize, piece: &[u8])
    requires { at + length piece.now ≤ length out.old }
    ensures { out.new ≡ sets out.old at piece.now }
{
    for i in 0..piece.len() {
        out[at + i] = piece[i];
    }
}

// The bytes of a slice, one by one.
fn put_each(out: &mut [u8], at: usize, piece: &[u8]) -> usize
    ensures { em result out.new ≡ puts piece.now (em at out.old) }
{
    let mut to = at;
    for i in 0..piece.len() {
        to = put(out, to, piece[i]);
    }
    to
}

// The bytes of a slice: nothing to store past the buffer's end, a plain copy where all fits.
pub fn put_all(out: &mut [u8], at: usize, piece: &[u8]) -> usize
    ensures { em result out.new ≡ puts piece.now (em at out.old) }
{
    if at >= out.len() {
        return past(at, piece.len());
    }
    if piece.len() <= out.len() - at {
        copy(out, at, piece);
        return at + piece.len();
    }
    put_each(out, at, piece)
}

// A buffer that is written, and where its next byte goes.
#[derive(Drop)]
pub struct Writer<'a> {
    pub out: &'a mut [u8],
    pub at: usize,
}

impl<'a> Writer<'a> {
    ghost use Rattle.emit.specs.bridge.Writer.{Wrote};

    pub fn new(out: &'a mut [u8], at: usize) -> Writer<'a>
        ensures same_reference { result.out.ghost_name ≡ out.entry.ghost_name }
        ensures starts { em result.at result.out.now ≡ em at out.old }
    {
        Writer { out, at }
    }

    // One byte.
    pub fn put(&mut self, b: u8)
        ensures { Wrote self.old self.new (b ∷ []) }
    {
        self.at = put(self.out, self.at, b);
    }

    // The bytes of a slice.
    pub fn put_all(&mut self, piece: &[u8])
        ensures { Wrote self.old self.new piece.now }
    {
        self.at = put_all(self.out, self.at, piece);
    }
}
