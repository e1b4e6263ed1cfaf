// Reads a tree from standard input, checks it as often as the first argument says and once more, each time over a table of its own and one table of words, and writes the
// number of the check, and a mix of entries of the tables, which keeps every check in the compiled program.
#![tactic(auto)]

ghost use Rattle.words.specs.bridge.Words.{Worded};

use algebra::{Fault, number};
use filling::read_full;
use reading::check_tree;
use std::env::Env;
use std::io;
use text::number_of;
use words::table::{WordRow, all_words};

fn entry(table: &[[u16; 2]; 1024], hints: &[u16; 2048], k: u32) -> u16 {
    let i = (k % 1024) as usize;
    table[i][0] ^ table[i][1] ^ hints[i]
}

fn once(text: &[u8], words: &[WordRow; 56], k: u32) -> u16
    requires { Worded words.now }
{
    let mut table = [[0u16; 2]; 1024];
    let mut hints = [0u16; 2048];
    let _ = check_tree(text, words, &mut table, &mut hints);
    entry(&table, &hints, k)
}

fn again(text: &[u8], words: &[WordRow; 56], times: u32) -> u16
    requires { Worded words.now }
{
    let mut mix: u16 = 0;
    for k in 0..times {
        mix ^= once(text, words, k + 1);
    }
    mix
}

fn answer(text: &[u8], words: &[WordRow; 56]) -> Result<usize, Fault>
    requires { Worded words.now }
{
    let mut table = [[0u16; 2]; 1024];
    let mut hints = [0u16; 2048];
    check_tree(text, words, &mut table, &mut hints)
}

fn run(rt: &impl Print, text: &[u8], times: &[u8]) -> io::Result<()> {
    let Some(n) = number_of(times) else {
        return Ok(());
    };
    let words = all_words();
    let mix = again(text, &words, n);
    let n = number(answer(text, &words));
    println!(rt; "{n}\t{mix}")
}

fn main(rt: HostRuntime) -> io::Result<()> {
    let mut word = [0u8; 16];
    let size = rt.arg(1, &mut word).unwrap_or(0);
    let mut text = [0u8; 20480];
    let n = read_full(&mut rt.stdin(), &mut text)?;
    run(&rt, &text[..n], &word[..size])
}
