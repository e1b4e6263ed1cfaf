// The calls by number and name: an input's texts go to one, and its answer and its list are printed.
#![tactic(auto)]

mod fields;
mod more;

ghost use Rattle.std.specs.Prelude.{◌≡◌, [], ◌∷◌, ◌≤◌, length, take};
ghost use Rattle.answers.specs.Outcome.{Answered};
ghost use Rattle.answers.specs.Both.{answer_of, many_of, ListedBoth};
ghost use Rattle.answering.specs.Answering.{called, call_input, call_number, called_list, input_list};
ghost use Rattle.answering.specs.Printed.{refusal_line, left_line, Prints};

use crate::fields::put_fields;
use crate::more::of_more;
use answers::{Answer, Listed, ListedAnswer, Refusal, number, size_of};
use binding::bindings::bindings;
use emit::Writer;
use expressing::filters::filters;
use joining::push::push_constants;
use naming::numbers::put_decimal;
use negating::negate;
use parted::{part_texts, text_at};
use renaming::rename::rename;
use respelling::namespaces;
use std::io;
use surveying::scope::scope;
use text::{equal, piece};

// The bytes of the longest input, and of the longest answer.
const LIMIT: usize = 65536;

const SCOPE: [u8; 5] = *b"scope";

const RENAME: [u8; 6] = *b"rename";

const MERGE: [u8; 5] = *b"merge";

const MERGE_QUERIES: [u8; 13] = *b"merge_queries";

const PUSH: [u8; 4] = *b"push";

const NEGATE: [u8; 6] = *b"negate";

const BINDINGS: [u8; 8] = *b"bindings";

const FILTERS: [u8; 7] = *b"filters";

const WITHOUT: [u8; 7] = *b"without";

const NAMESPACES: [u8; 10] = *b"namespaces";

// A call's number by its name; 10 is no call's. Calls stay numbers and become no enum: `answer` promises an answer for every number.
pub fn call_number(name: &[u8]) -> u32
    ensures { result ≡ call_number name.now }
{
    if equal(name, &SCOPE) {
        return 0;
    }
    if equal(name, &RENAME) {
        return 1;
    }
    if equal(name, &MERGE) {
        return 2;
    }
    if equal(name, &MERGE_QUERIES) {
        return 3;
    }
    if equal(name, &PUSH) {
        return 4;
    }
    if equal(name, &NEGATE) {
        return 5;
    }
    if equal(name, &BINDINGS) {
        return 6;
    }
    if equal(name, &FILTERS) {
        return 7;
    }
    if equal(name, &WITHOUT) {
        return 8;
    }
    if equal(name, &NAMESPACES) {
        return 9;
    }
    10
}

// A call's answer to one text.
fn of_one(call: u32, a: &[u8], out: &mut [u8]) -> Answer
    ensures { Answered (called call (a.now ∷ [])) out.old out.new result }
{
    if call == 0 {
        return scope(a, out);
    }
    if call == 5 {
        return negate(a, out);
    }
    Err(Refusal::Malformed)
}

// A call's answer to two texts.
fn of_two(call: u32, a: &[u8], b: &[u8], out: &mut [u8]) -> Answer
    requires { call ≡ 7 → ⊥ }
    ensures { Answered (called call (a.now ∷ b.now ∷ [])) out.old out.new result }
{
    if call == 1 {
        return rename(a, b, out);
    }
    if call == 4 {
        return push_constants(a, b, out);
    }
    if call == 6 {
        return bindings(a, b, out);
    }
    if call == 9 {
        return namespaces(a, b, out);
    }
    Err(Refusal::Malformed)
}

// The answer of a call that has no list.
fn unlisted(answer: Answer) -> ListedAnswer
    ensures { (answer_of result ≡ answer) × (many_of result ≡ 0) }
{
    let size = answer?;
    Ok(Listed { size, many: 0 })
}

// A call's answer to two texts, and its list.
fn of_two_listed(call: u32, a: &[u8], b: &[u8], out: &mut [u8], list: &mut [u16]) -> ListedAnswer
    ensures { ListedBoth (called call (a.now ∷ b.now ∷ [])) (called_list call (a.now ∷ b.now ∷ [])) out.old out.new list.old list.new result }
{
    if call == 7 {
        return filters(a, b, out, list);
    }
    unlisted(of_two(call, a, b, out))
}

// A call's answer to an input, whose texts are parted by lines `--`, and its list.
pub fn answer(call: u32, input: &[u8], out: &mut [u8], list: &mut [u16]) -> ListedAnswer
    ensures { ListedBoth (call_input call input.now) (input_list call input.now) out.old out.new list.old list.new result }
{
    if LIMIT < input.len() {
        return Err(Refusal::OverBound);
    }
    let mut ends = [0usize; 5];
    let n = part_texts(input, &mut ends);
    if n == 0 {
        return unlisted(of_one(call, text_at(input, &ends, n, 0), out));
    }
    if n == 1 {
        return of_two_listed(
            call,
            text_at(input, &ends, n, 0),
            text_at(input, &ends, n, 1),
            out,
            list,
        );
    }
    unlisted(of_more(call, input, &ends, n, out))
}

const REFUSED: [u8; 8] = *b"refused\t";

// The line of a refusal, from the buffer's start on: how many bytes.
fn put_refusal(number: u8, out: &mut [u8]) -> usize
    ensures { length (refusal_line number) ≤ length out.old → take result out.new ≡ refusal_line number }
{
    let mut w = Writer::new(out, 0);
    w.put_all(&REFUSED);
    put_decimal(&mut w, number as usize);
    w.put(10);
    w.at
}

// What is printed of an answer, from its buffer's start on: how many bytes.
pub fn put_printed(answer: Answer, out: &mut [u8]) -> usize
    ensures { Prints answer out.old out.new result }
{
    let n = number(answer);
    if n == 0 {
        return size_of(answer);
    }
    put_refusal(n, out)
}

const LEFT: [u8; 4] = *b"left";

// The line `left` of the numbers, from the buffer's start on: how many bytes, none without numbers.
pub fn put_left(list: &[u16], out: &mut [u8]) -> usize
    ensures { length (left_line list.now) ≤ length out.old → take result out.new ≡ left_line list.now }
{
    if list.len() == 0 {
        return 0;
    }
    let mut w = Writer::new(out, 0);
    w.put_all(&LEFT);
    put_fields(list, &mut w);
    w.put(10);
    w.at
}

// The first numbers of a list, as far as there are any.
pub fn first_of(list: &[u16], many: usize) -> &[u16]
    ensures { result.now ≡ take many list.now }
{
    if list.len() <= many {
        return list;
    }
    &list[..many]
}

// The line `left`, if there are numbers.
pub fn write_left(to: &impl Print, list: &[u16], many: usize, out: &mut [u8]) -> io::Result<()> {
    let size = put_left(first_of(list, many), out);
    to.write_all(piece(out, 0, size))
}

// The answer's bytes, or the line `refused` with its number.
pub fn write_answer(to: &impl Print, answer: Answer, out: &mut [u8]) -> io::Result<()> {
    let size = put_printed(answer, out);
    to.write_all(piece(out, 0, size))
}
