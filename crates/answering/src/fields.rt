// Numbers as fields of a line.
ghost use Rattle.emit.specs.bridge.Writer.{Wrote};
ghost use Rattle.answering.specs.bridge.Fields.{fields_of};

use emit::Writer;
use naming::numbers::{put_decimal, wide};

// A tab and a number each.
pub fn put_fields(list: &[u16], w: &mut Writer)
    ensures { Wrote w.old w.new (fields_of list.now) }
{
    for j in 0..list.len() {
        w.put(9);
        put_decimal(w, wide(list[j]));
    }
}
