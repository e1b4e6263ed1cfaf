// Records of a file. A record is a header line of a kind, a size and a label, then a text of so many bytes, then a line end.
#![tactic(auto)]

ghost use Rattle.std.specs.Prelude.{◌≤◌, ◌<◌, IfOk, IfSome};
ghost use Rattle.records.specs.bridge.Records.{GoesOn};

use cursor::{Cursor, Field};
use filling::read_full;
use std::io;
use std::io::{Read, Seek, SeekFrom};
use text::{number_of, piece};

// No file goes on behind this place.
pub const LIMIT: u64 = 1099511627776;

// A record, of a kind from 0 to 99, by places in the bytes that were read, and the place of the next one in the file.
#[derive(Clone, Copy)]
pub struct Record {
    pub kind: u32,
    pub label: usize,
    pub label_size: usize,
    pub text: usize,
    pub text_size: usize,
    pub next: u64,
}

// What stands at a place of the file: a record, something else, or nothing, as the file has ended.
#[derive(Clone, Copy)]
pub enum Entry {
    Record(Record),
    Bad,
    End,
}

// Where the label starts and the header ends.
#[derive(Clone, Copy)]
struct Header {
    kind: u32,
    size: u32,
    label: usize,
    end: usize,
}

// The bytes from one place to another, as far as there are any.
fn between(s: &[u8], from: usize, to: usize) -> &[u8] {
    if to < from {
        return &s[..0];
    }
    piece(s, from, to - from)
}

// The next field of a line, if the line is ended and a field is left.
fn field_at(s: &[u8], line: Cursor) -> Option<Field> {
    if s.len() <= line.end {
        return None;
    }
    line.next_field(s)
}

// The header that starts here, of at most 400 bytes.
fn read_header(s: &[u8]) -> Option<Header>
    ensures { IfSome result (λ h. (h.label ≤ h.end) × (h.end ≤ 400)) }
{
    let line = Cursor::new(0).next_line(s);
    let end = line.end;
    if 400 < end {
        return None;
    }
    let first = field_at(s, line)?;
    let second = field_at(s, first.behind)?;
    let kind = number_of(between(s, 0, first.end))?;
    let size = number_of(between(s, first.behind.at, second.end))?;
    let label = second.behind.at;
    if end < label {
        return None;
    }
    Some(Header {
        kind,
        size,
        label,
        end,
    })
}

// The record that starts here, at a place of the file.
fn record_in(s: &[u8], at: u64) -> Option<Record>
    requires { at < 1099511627776 }
    ensures { IfSome result (λ r. at < r.next) }
{
    let h = read_header(s)?;
    if 99 < h.kind {
        return None;
    }
    let text = h.end + 1;
    let text_size = h.size as usize;
    let end = text + text_size;
    if s.len() <= end {
        return None;
    }
    if s[end] != 10 {
        return None;
    }
    Some(Record {
        kind: h.kind,
        label: h.label,
        label_size: h.end - h.label,
        text,
        text_size,
        next: at + end as u64 + 1,
    })
}

// What stands at a place of the file, which is read into the window.
pub fn read_record<F: Read + Seek>(file: &mut F, at: u64, window: &mut [u8]) -> io::Result<Entry>
    requires { at < 1099511627776 }
    ensures { IfOk result (λ entry. GoesOn at entry) }
{
    file.seek(SeekFrom::Start(at))?;
    let n = read_full(file, window)?;
    if n == 0 {
        return Ok(Entry::End);
    }
    match record_in(&window[..n], at) {
        Some(record) => Ok(Entry::Record(record)),
        None => Ok(Entry::Bad),
    }
}
