// The numbers of the checks: for each record of the file `texts` a line of its label and the number of its text.
// The kinds are 0 tree, 1 query, 2 join list, 3 constant list, 4 mapping, 5 binding sets, 6 filters and
// 7 namespace table.
#![tactic(auto)]

ghost use Rattle.std.specs.Prelude.{◌<◌, IfOk, IfSome};
ghost use Rattle.words.specs.bridge.Words.{Worded};

use algebra::{EMPTY_TREE, ENTRIES, Fault, number};
use lists::{check_constants, check_joins, check_mapping};
use names::clear;
use reading::{check_filters, check_query, check_sets, check_tree};
use records::{Entry, LIMIT, read_record};
use starts::table_number;
use std::fs::File;
use std::io;
use std::io::{Read, Seek};
use text::piece;
use words::table::{WordRow, all_words};

// A tree's text: an empty file is read as its two lines.
fn check_given(
    text: &[u8],
    words: &[WordRow; 56],
    table: &mut [[u16; 2]; 1024],
    hints: &mut [u16; 2048],
) -> Result<usize, Fault>
    requires { Worded words.now }
{
    if text.len() == 0 {
        return check_tree(&EMPTY_TREE, words, table, hints);
    }
    check_tree(text, words, table, hints)
}

// Where the next record starts, if one can, and where the output goes on.
#[derive(Clone, Copy)]
struct Step {
    next: Option<u64>,
    to: usize,
}

fn check(
    kind: u32,
    text: &[u8],
    words: &[WordRow; 56],
    table: &mut [[u16; 2]; 1024],
    hints: &mut [u16; 2048],
) -> Result<usize, Fault>
    requires { Worded words.now }
{
    clear(table);
    match kind {
        0 => check_given(text, words, table, hints),
        1 => check_query(text, words, table, hints),
        2 => check_joins(text),
        3 => check_constants(text),
        4 => check_mapping(text, &mut [[0u16; 4]; ENTRIES]),
        5 => check_sets(text, words, table, hints),
        _ => check_filters(text, words, table, hints),
    }
}

// A text's number.
fn number_of(
    kind: u32,
    text: &[u8],
    words: &[WordRow; 56],
    table: &mut [[u16; 2]; 1024],
    hints: &mut [u16; 2048],
) -> u64
    requires { Worded words.now }
{
    if kind == 7 {
        return table_number(text);
    }
    number(check(kind, text, words, table, hints))
}

fn put(out: &mut [u8; 65536], to: usize, b: u8) -> usize {
    if to < out.len() {
        out[to] = b;
        return to + 1;
    }
    to
}

fn put_all(out: &mut [u8; 65536], from: usize, s: &[u8]) -> usize {
    let mut to = from;
    for b in s {
        to = put(out, to, *b);
    }
    to
}

// Writes what has been put, if there may be no room for another line.
fn room(rt: &impl Print, out: &[u8; 65536], to: usize) -> io::Result<usize> {
    if to < 65000 {
        return Ok(to);
    }
    rt.write_all(piece(out, 0, to))?;
    Ok(0)
}

// A number below 100.
fn put_number(out: &mut [u8; 65536], from: usize, n: u64) -> usize {
    if n < 10 {
        return put(out, from, 48 + n as u8);
    }
    let to = put(out, from, 48 + (n / 10 % 10) as u8);
    put(out, to, 48 + (n % 10) as u8)
}

fn put_line(
    rt: &impl Print,
    out: &mut [u8; 65536],
    from: usize,
    label: &[u8],
    n: u64,
) -> io::Result<usize> {
    let to = room(rt, out, from)?;
    let to = put_all(out, to, label);
    let to = put(out, to, 9);
    let to = put_number(out, to, n);
    Ok(put(out, to, 10))
}

fn put_bad_record(rt: &impl Print, out: &mut [u8; 65536], from: usize) -> io::Result<usize> {
    let to = room(rt, out, from)?;
    Ok(put_all(out, to, b"bad record\n"))
}

// The record at a place of the file.
fn turn<F: Read + Seek>(
    rt: &impl Print,
    file: &mut F,
    at: u64,
    window: &mut [u8],
    words: &[WordRow; 56],
    table: &mut [[u16; 2]; 1024],
    hints: &mut [u16; 2048],
    out: &mut [u8; 65536],
    to: usize,
) -> io::Result<Step>
    requires { (at < 1099511627776) × Worded words.now }
    ensures { IfOk result (λ step. IfSome step.next (λ place. at < place)) }
{
    let r = match read_record(file, at, window)? {
        Entry::Record(r) => r,
        Entry::Bad => {
            let to = put_bad_record(rt, out, to)?;
            return Ok(Step { next: None, to });
        }
        Entry::End => return Ok(Step { next: None, to }),
    };
    let next = Some(r.next);
    if 7 < r.kind {
        let to = put_bad_record(rt, out, to)?;
        return Ok(Step { next, to });
    }
    let text = piece(window, r.text, r.text_size);
    let n = number_of(r.kind, text, words, table, hints);
    let label = piece(window, r.label, r.label_size);
    let to = put_line(rt, out, to, label, n)?;
    Ok(Step { next, to })
}

fn run<F: Read + Seek>(
    rt: &impl Print,
    file: &mut F,
    window: &mut [u8],
    words: &[WordRow; 56],
    table: &mut [[u16; 2]; 1024],
    hints: &mut [u16; 2048],
    out: &mut [u8; 65536],
) -> io::Result<()>
    requires { Worded words.now }
{
    let mut at: u64 = 0;
    let mut to: usize = 0;
    while at < LIMIT {
        let step = turn(rt, file, at, window, words, table, hints, out, to)?;
        to = step.to;
        let Some(next) = step.next else {
            break;
        };
        at = next;
    }
    rt.write_all(piece(out, 0, to))
}

fn main(rt: HostRuntime) -> io::Result<()> {
    let mut file = File::open(&rt, "texts")?;
    let words = all_words();
    let mut table = [[0u16; 2]; 1024];
    let mut hints = [0u16; 2048];
    let mut window = [0u8; 20480];
    let mut out = [0u8; 65536];
    run(
        &rt,
        &mut file,
        &mut window,
        &words,
        &mut table,
        &mut hints,
        &mut out,
    )
}
