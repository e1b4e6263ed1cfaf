// Reads a call's texts from standard input, and writes its answer, and its list to standard error. The first argument is the call's name.
#![tactic(auto)]

use algebra::ENTRIES;
use answering::{answer, call_number, write_answer, write_left};
use answers::{answer_of, many_of};
use filling::read_full;
use std::env::Env;
use std::io;

fn main(rt: HostRuntime) -> io::Result<()> {
    let mut name = [0u8; 32];
    let size = rt.arg(1, &mut name).unwrap_or(0);
    let mut input = [0u8; 65537];
    let n = read_full(&mut rt.stdin(), &mut input)?;
    let mut out = [0u8; 65536];
    let mut list = [0u16; ENTRIES];
    let listed = answer(call_number(&name[..size]), &input[..n], &mut out, &mut list);
    let many = many_of(listed);
    write_answer(&rt, answer_of(listed), &mut out)?;
    // a list that can't be told takes nothing from the answer
    write_left(&rt.stderr(), &list, many, &mut out).unwrap_or(());
    Ok(())
}
