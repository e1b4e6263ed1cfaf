// What a line's sort alone tells: whether it opens a level, and whether it is noted.
ghost use Rattle.std.specs.Prelude.{◌≡◌, ◌≤◌};
ghost use Rattle.algebra.specs.bridge.Table.{opens};
ghost use Rattle.scoping.specs.bridge.Spots.{noted};
ghost use Rattle.words.specs.bridge.Code.{sort_at};

// Lines of this sort open a level or an entry of their own: patterns, expressions, sets and parts.
pub fn opens_level(sort: u8) -> bool
    requires { sort ≤ 11 }
    ensures { result ≡ opens (sort_at sort) }
{
    if sort < 2 {
        return false;
    }
    if sort < 4 {
        return true;
    }
    if sort == 8 {
        return true;
    }
    sort == 11
}

// Lines of this sort are noted: patterns, expressions, orders and aggregates.
pub fn is_noted(sort: u8) -> bool
    ensures { result ≡ noted (sort_at sort) }
{
    if sort < 2 {
        return false;
    }
    if sort == 4 {
        return false;
    }
    if 6 < sort {
        return false;
    }
    true
}
