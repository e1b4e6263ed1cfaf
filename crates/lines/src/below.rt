// What a line asks for: groups of lines of one sort.
ghost use Rattle.std.specs.Prelude.{◌≡◌, ◌/◌, ◌%◌, ◌≤◌, ◌<◌};
ghost use Rattle.lines.specs.bridge.Says.{below};
ghost use Rattle.lines.specs.bridge.Below.{amount_in};

use crate::sorts::opens_level;

// How many lines the first group of a row's number has.
pub fn amount(code: u64, first: usize, second: usize) -> u64
    requires { (first < 4294967296) × (second < 4294967296) }
    ensures { result ≡ amount_in (code % 4) (code / 4 % 8) first second }
{
    let lines = code % 4;
    let by = code / 4 % 8;
    if by == 0 {
        return lines;
    }
    if by == 1 {
        return first as u64;
    }
    if by == 2 {
        return second as u64;
    }
    if by == 3 {
        return first as u64 + lines;
    }
    if by == 4 {
        return second as u64 + lines;
    }
    0
}

// The levels that may be opened below a line.
pub fn below_level(sort: u8, level: u8) -> u8
    requires { sort ≤ 11 }
    ensures { result ≡ below sort level }
{
    if opens_level(sort) {
        if level == 0 {
            return 0;
        }
        return level - 1;
    }
    level
}
