// Reads two trees, a join list and constants of both from standard input, and writes the merged tree.
#![tactic(auto)]

use answering::{answer, call_number, write_answer};
use answers::answer_of;
use filling::read_full;
use std::io;

fn main(rt: HostRuntime) -> io::Result<()> {
    let mut input = [0u8; 65537];
    let n = read_full(&mut rt.stdin(), &mut input)?;
    let mut out = [0u8; 65536];
    let mut list = [0u16; 0];
    let listed = answer(call_number(b"merge"), &input[..n], &mut out, &mut list);
    write_answer(&rt, answer_of(listed), &mut out)
}
