// Why a text is refused, the numbers of what a check answers, and the bounds that code goes by.
#![tactic(auto)]

ghost use Rattle.std.specs.Prelude.{◌≡◌};
ghost use Rattle.algebra.specs.bridge.Answers.{answer_number};

// What `bounds` says of the levels of a tree, the columns of one project and the entries of one list.
pub const DEPTH: u8 = 64;

pub const COLUMNS: usize = 256;

pub const ENTRIES: usize = 256;

// The two lines that an empty file is read as: `project` and `bgp 0`.
pub const EMPTY_TREE: [u8; 14] = *b"project\nbgp\t0\n";

// A number for each entry of a list. No Vec: a call takes nothing from the heap, so that its memory is known.
pub type PerEntry = [u16; ENTRIES];

// Why a text is refused.
#[derive(Clone, Copy, Debug, PartialEq, Eq)]
pub enum Fault {
    Malformed,
    OverBound,
}

// The number of a check's answer: 0 good, 1 malformed, 2 over a bound (docs/SPECIFICATION.md, "Numbers").
pub fn number(answer: Result<usize, Fault>) -> u64
    ensures { result ≡ answer_number answer }
{
    match answer {
        Ok(_) => 0,
        Err(Fault::Malformed) => 1,
        Err(Fault::OverBound) => 2,
    }
}
