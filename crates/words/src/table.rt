// The one table of words and arities: each word's key and its row as one number. The words of a sort stand together.
ghost use Rattle.std.specs.Prelude.{◌≡◌, ◌-◌, ◌≤◌, ◌<◌, take, drop};
ghost use Rattle.text.specs.Text.{Bytes};
ghost use Rattle.algebra.specs.bridge.Table.{table, row_in, row_for};
ghost use Rattle.words.specs.bridge.Code.{found, row_found, sort_at, Tidy, Flags};
ghost use Rattle.words.specs.bridge.Key.{Keyed};
ghost use Rattle.words.specs.bridge.Words.{code_at, code_by, first_of, Worded};

use crate::codes::*;
use crate::{Row, keys};

// A word's key and its row.
pub type WordRow = [u64; 2];

pub const WORDS: [WordRow; 56] = [
    [keys::T, OF_T],
    [keys::COLS, OF_COLS],
    [keys::BGP, OF_BGP],
    [keys::PATH, OF_PATH],
    [keys::JOIN, OF_JOIN],
    [keys::UNION, OF_UNION],
    [keys::MINUS, OF_MINUS],
    [keys::LEFTJOIN, OF_LEFTJOIN],
    [keys::FILTER, OF_FILTER],
    [keys::GRAPH, OF_GRAPH],
    [keys::EXTEND, OF_EXTEND],
    [keys::VALUES, OF_VALUES],
    [keys::ORDERBY, OF_ORDERBY],
    [keys::PROJECT, OF_PROJECT],
    [keys::DISTINCT, OF_DISTINCT],
    [keys::REDUCED, OF_REDUCED],
    [keys::SLICE, OF_SLICE],
    [keys::GROUP, OF_GROUP],
    [keys::SERVICE, OF_SERVICE],
    [keys::TERM, OF_TERM],
    [keys::BOUND, OF_BOUND],
    [keys::EXISTS, OF_EXISTS],
    [keys::CALL, OF_CALL],
    [keys::OR, OF_OR],
    [keys::AND, OF_AND],
    [keys::EQ, OF_EQ],
    [keys::SAME, OF_SAME],
    [keys::GT, OF_GT],
    [keys::GE, OF_GE],
    [keys::LT, OF_LT],
    [keys::LE, OF_LE],
    [keys::ADD, OF_ADD],
    [keys::SUB, OF_SUB],
    [keys::MUL, OF_MUL],
    [keys::DIV, OF_DIV],
    [keys::IN, OF_IN],
    [keys::PLUS, OF_PLUS],
    [keys::NEG, OF_NEG],
    [keys::NOT, OF_NOT],
    [keys::IF, OF_IF],
    [keys::COALESCE, OF_COALESCE],
    [keys::ROW, OF_ROW],
    [keys::ASC, OF_ASC],
    [keys::DESC, OF_DESC],
    [keys::AGG, OF_AGG],
    [keys::AGGALL, OF_AGGALL],
    [keys::QUERY, OF_QUERY],
    [keys::SET, OF_SET],
    [keys::AT, OF_AT],
    [keys::ROW, OF_VALUE_ROW],
    [keys::LEAF, OF_LEAF],
    [keys::REF, OF_REF],
    [keys::UN, OF_UN],
    [keys::BIN, OF_BIN],
    [keys::TERN, OF_TERN],
    [keys::NARY, OF_NARY],
];

// The table, laid out; whoever makes it lends it to all that read it.
pub fn all_words() -> [WordRow; 56]
    ensures { Worded result }
{
    WORDS
}

// Where the words of a sort begin.
fn first_of(sort: u8) -> usize
    requires { sort ≤ 12 }
    ensures { (result ≡ first_of sort) × (result ≤ 56) }
{
    match sort {
        0 => 0,
        1 => 1,
        2 => 2,
        3 => 19,
        4 => 41,
        5 => 42,
        6 => 44,
        7 => 46,
        8 => 47,
        9 => 48,
        10 => 49,
        11 => 50,
        _ => 56,
    }
}

// The number of the first word from one to another that has this key; 56 where none has.
fn word_in(words: &[WordRow; 56], from: usize, to: usize, key: u64) -> usize
    requires { (to ≤ 56) × Worded words.now }
    ensures { (result ≤ 56) × (code_at words.now result ≡ code_by key (take (to - from) (drop from words.now))) }
{
    for i in from..to {
        let w = words[i];
        if w[0] == key {
            return i;
        }
    }
    56
}

// The number of the word of a sort that has this key; 56 where none has.
pub fn word_by(words: &[WordRow; 56], sort: u8, key: u64) -> usize
    requires { (sort < 12) × Worded words.now }
    ensures upper_bound { result ≤ 56 }
    ensures row { (f : Bytes) → Keyed f key → row_found (found (code_at words.now result)) ≡ row_for (sort_at sort) f }
    ensures tidy { Tidy sort (found (code_at words.now result)) }
    ensures flags { (f : Bytes) → Keyed f key → Flags f (found (code_at words.now result)) }
{
    word_in(words, first_of(sort), first_of(sort + 1), key)
}

// The number of the first word that has this key, whatever its sort; 56 where none has.
pub fn any_word(words: &[WordRow; 56], key: u64) -> usize
    requires { Worded words.now }
    ensures upper_bound { result ≤ 56 }
    ensures row { (f : Bytes) → Keyed f key → row_found (found (code_at words.now result)) ≡ row_in table f }
{
    word_in(words, 0, 56, key)
}

// The row of the word with this number among those of a list; none past its end.
fn row_in(words: &[WordRow], number: usize) -> Option<Row>
    ensures { result ≡ found (code_at words.now number) }
{
    if words.len() <= number {
        return None;
    }
    let w = words[number];
    let code = w[1];
    if code == 0 {
        return None;
    }
    Some(Row {
        fields: code % 0x100_0000,
        behind: (code / 0x100_0000 % 16) as u8,
        flag: (code / 0x1000_0000 % 16) as u8,
        below: code / 0x1_0000_0000,
    })
}

// The row of the word with this number.
pub fn row_at(words: &[WordRow; 56], number: usize) -> Option<Row>
    ensures { result ≡ found (code_at words.now number) }
{
    row_in(words, number)
}
