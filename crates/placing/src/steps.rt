// Steps of both calls.
ghost use Rattle.std.specs.Prelude.{◌≡◌, ◌&&◌, []};
ghost use Rattle.text.specs.Text.{text_of};
ghost use Rattle.emit.specs.bridge.Writer.{Wrote};
ghost use Rattle.filtering.specs.bridge.SetLines.{repeated};

use emit::Writer;

pub fn both(a: bool, b: bool) -> bool
    ensures { result ≡ (a && b) }
{
    if !a {
        return false;
    }
    b
}

// So many lines of one word.
pub fn put_repeated(word: &[u8], count: usize, w: &mut Writer)
    ensures { Wrote w.old w.new (text_of (repeated count word.now [])) }
{
    for _line in 0..count {
        w.put_all(word);
        w.put(10);
    }
}
