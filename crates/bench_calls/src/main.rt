// Reads texts from standard input, parted by lines `--`, and makes a call of them as often as the first argument says and once
// more, and writes the length of the answer and a mix of the lengths, which keeps every call in the compiled program. The second
// argument is the call's number: 0 scope, 1 rename, 2 merge, 3 merge_queries, 4 push, 5 negate, 6 bindings, 7 filters,
// 8 without, 9 namespaces.
#![tactic(auto)]

use algebra::ENTRIES;
use answering::answer;
use answers::{answer_of, size_of};
use filling::read_full;
use std::env::Env;
use std::io;
use text::number_of;

fn again(call: u32, input: &[u8], out: &mut [u8], list: &mut [u16], times: u32) -> usize {
    let mut mix: usize = 0;
    for _ in 0..times {
        let listed = answer(call, input, out, list);
        mix ^= size_of(answer_of(listed));
    }
    mix
}

fn run(
    rt: &impl Print,
    input: &[u8],
    times: &[u8],
    call: &[u8],
    out: &mut [u8],
    list: &mut [u16],
) -> io::Result<()> {
    let Some(n) = number_of(times) else {
        return Ok(());
    };
    let Some(k) = number_of(call) else {
        return Ok(());
    };
    let mix = again(k, input, out, list, n);
    let listed = answer(k, input, out, list);
    let size = size_of(answer_of(listed));
    println!(rt; "{size}\t{mix}")
}

fn main(rt: HostRuntime) -> io::Result<()> {
    let mut word = [0u8; 16];
    let size = rt.arg(1, &mut word).unwrap_or(0);
    let mut call = [0u8; 16];
    let call_size = rt.arg(2, &mut call).unwrap_or(0);
    let mut input = [0u8; 65536];
    let read = read_full(&mut rt.stdin(), &mut input)?;
    let mut out = [0u8; 65536];
    let mut list = [0u16; ENTRIES];
    run(
        &rt,
        &input[..read],
        &word[..size],
        &call[..call_size],
        &mut out,
        &mut list,
    )
}
