// The calls' answers: for each record of the file `cases` a line of its label, then what the program `call` writes for its text, its list last.
// A record's kind is its call's number: 0 scope, 1 rename, 2 merge, 3 merge_queries, 4 push, 5 negate, 6 bindings,
// 7 filters, 8 without and 9 namespaces.
#![tactic(auto)]

ghost use Rattle.std.specs.Prelude.{◌<◌, IfOk, IfSome};

use algebra::ENTRIES;
use answering::{answer, write_answer, write_left};
use answers::{answer_of, many_of};
use records::{Entry, LIMIT, read_record};
use std::fs::File;
use std::io;
use std::io::{Read, Seek};
use text::piece;

// A call's answer to an input, and its list.
fn tell(rt: &impl Print, call: u32, input: &[u8], out: &mut [u8]) -> io::Result<()> {
    let mut list = [0u16; ENTRIES];
    let listed = answer(call, input, out, &mut list);
    let many = many_of(listed);
    write_answer(rt, answer_of(listed), out)?;
    write_left(rt, &list, many, out)
}

// The record at a place of the file, and where the next one starts, if one can.
fn turn<F: Read + Seek>(
    rt: &impl Print,
    file: &mut F,
    at: u64,
    window: &mut [u8],
    out: &mut [u8],
) -> io::Result<Option<u64>>
    requires { at < 1099511627776 }
    ensures { IfOk result (λ next. IfSome next (λ place. at < place)) }
{
    let r = match read_record(file, at, window)? {
        Entry::Record(r) => r,
        Entry::Bad => {
            rt.write_all(b"bad record\n")?;
            return Ok(None);
        }
        Entry::End => return Ok(None),
    };
    let next = Some(r.next);
    if 9 < r.kind {
        rt.write_all(b"bad record\n")?;
        return Ok(next);
    }
    rt.write_all(piece(window, r.label, r.label_size))?;
    rt.write_all(b"\n")?;
    tell(rt, r.kind, piece(window, r.text, r.text_size), out)?;
    Ok(next)
}

fn run<F: Read + Seek>(
    rt: &impl Print,
    file: &mut F,
    window: &mut [u8],
    out: &mut [u8],
) -> io::Result<()> {
    let mut at: u64 = 0;
    while at < LIMIT {
        let Some(next) = turn(rt, file, at, window, out)? else {
            return Ok(());
        };
        at = next;
    }
    Ok(())
}

fn main(rt: HostRuntime) -> io::Result<()> {
    let mut file = File::open(&rt, "cases")?;
    let mut window = [0u8; 66560];
    let mut out = [0u8; 65536];
    run(&rt, &mut file, &mut window, &mut out)
}
