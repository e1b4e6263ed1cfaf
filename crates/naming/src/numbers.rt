// Numbers of the table, and generated names as they are kept and written.
ghost use Rattle.std.specs.Prelude.{◌≡◌, ◌+◌, ◌/◌, ◌%◌, ◌≤◌, ◌<◌, [], ◌∷◌, length, get_or};
ghost use Rattle.text.specs.Field.{decimal};
ghost use Rattle.emit.specs.bridge.Writer.{Wrote};
ghost use Rattle.scoping.specs.Label.{generated};
ghost use Rattle.naming.specs.bridge.New.{named};

use crate::label::LABEL;
use emit::Writer;
use names::Entry;

// What is added to the letter of a generated name, without and with Label behind it.
pub const PLAIN: u16 = 256;

pub const LABELLED: u16 = 512;

pub fn wide(x: u16) -> usize
    ensures { (result ≡ x) × (result < 65536) }
{
    x as usize
}

// Two digits.
fn put_pair(w: &mut Writer, n: usize)
    requires { n < 100 }
    ensures { Wrote w.old w.new ((n / 10 + 48) ∷ (n % 10 + 48) ∷ []) }
{
    w.put((n / 10) as u8 + 48);
    w.put((n % 10) as u8 + 48);
}

// A number below 100 in base ten.
fn put_small(w: &mut Writer, n: usize)
    requires { n < 100 }
    ensures { Wrote w.old w.new (decimal n) }
{
    if n < 10 {
        w.put(n as u8 + 48);
        return;
    }
    put_pair(w, n);
}

// A number in base ten, two digits at a time.
pub fn put_decimal(w: &mut Writer, n: usize)
    ensures { Wrote w.old w.new (decimal n) }
{
    if n < 100 {
        put_small(w, n);
        return;
    }
    put_decimal(w, n / 100);
    put_pair(w, n % 100);
}

// A generated name: `?`, a prefix byte, a number.
pub fn put_generated(w: &mut Writer, prefix: u8, n: usize)
    ensures { Wrote w.old w.new (generated prefix n) }
{
    w.put(63);
    w.put(prefix);
    put_decimal(w, n);
}

// A generated name by its two numbers.
pub fn put_name(w: &mut Writer, e: Entry)
    ensures wrote { Wrote w.old w.new (named (get_or e 0 0) (get_or e 1 0)) }
    ensures short { length (named (get_or e 0 0) (get_or e 1 0)) ≤ 12 }
{
    put_generated(w, (e[1] % 256) as u8, wide(e[0]));
    if e[1] < LABELLED {
        return;
    }
    w.put_all(&LABEL);
}
