// A line's verdict: the edition can't say it, or its grammar forbids a name, an IRI or a literal, or neither.
ghost use Rattle.std.specs.Prelude.{◌≡◌, ◌+◌, ◌≤◌, ◌<◌, true, ◌&&◌, not, [], ◌∷◌, length, get_or};
ghost use Rattle.text.specs.Text.{Bytes, same, lines_from};
ghost use Rattle.text.specs.Word.{bytes};
ghost use Rattle.text.specs.Field.{is_blank};
ghost use Rattle.algebra.specs.Valid.{different};
ghost use Rattle.cursor.specs.bridge.Cursor.{left};
ghost use Rattle.scoping.specs.bridge.Walk.{number_in};
ghost use Rattle.words.specs.bridge.Key.{Keyed};
ghost use Rattle.words.specs.bridge.Words.{Worded};
ghost use Rattle.editions.specs.Token.{is11};
ghost use Rattle.editions.specs.Lexical.{is_var1};
ghost use Rattle.editions.specs.Readers.{nonempty};
ghost use Rattle.editions.specs.Refusals.{line, allowed, all_allowed, all_cells, free, begins, takes_distinct, takes_project, takes_order};
ghost use Rattle.spelling.specs.bridge.Seeking.{sought_tree};
ghost use Rattle.spelling.specs.bridge.Judging.{is_some, verdict_of};
ghost use Rattle.phrasing.specs.bridge.Code.{edition_at, edition_told, place_at, place_told, verdict_told};

use crate::edition::Edition;
use crate::fields::{all_cells, all_named, allowed_at, are_different, blank_at, named_at};
use crate::place::Place;
use answers::Refusal;
use placing::field::field_at;
use spelling::seek::{is_field, seek_pattern};
use terms::variable::is_var1;
use walking::line::count_at;
use words::keys;
use words::table::WordRow;

// It can be said, and its names, IRIs and literals are allowed; the first comes first.
fn told(said: bool, fine: bool) -> Result<(), Refusal>
    ensures { result ≡ verdict_told (line said fine) }
{
    if !said {
        return Err(Refusal::Unsayable);
    }
    if !fine {
        return Err(Refusal::Forbidden);
    }
    Ok(())
}

// A pattern of both editions.
fn plain(place: Place) -> Result<(), Refusal>
    ensures { result ≡ verdict_told (line (free (place_at place)) true) }
{
    told(place.is_free(), true)
}

// A pattern of 1.1 alone.
fn newer(edition: Edition, place: Place) -> Result<(), Refusal>
    ensures { result ≡ verdict_told (line (free (place_at place) && is11 (edition_at edition)) true) }
{
    told(place.is_free() & edition.is_eleven(), true)
}

// An exists.
fn exists(edition: Edition) -> Result<(), Refusal>
    ensures { result ≡ verdict_told (line (is11 (edition_at edition)) true) }
{
    told(edition.is_eleven(), true)
}

fn slice(edition: Edition, place: Place) -> Result<(), Refusal>
    ensures { result ≡ verdict_told (line (begins (edition_at edition) (place_at place)) true) }
{
    told(place.may_begin(edition), true)
}

// A distinct or a reduced.
fn distinct(edition: Edition, place: Place) -> Result<(), Refusal>
    ensures { result ≡ verdict_told (line (takes_distinct (edition_at edition) (place_at place)) true) }
{
    told(place.takes_distinct(edition), true)
}

fn triple(query: &[u8], from: usize, end: usize) -> Result<(), Refusal>
    requires { (end < length query.now) × (from ≤ end + 1) }
    ensures { result ≡ verdict_told (line (not (is_blank (get_or (left query.now from end) 0 [])) && not (is_blank (get_or (left query.now from end) 2 []))) (allowed (get_or (left query.now from end) 0 []) && (allowed (get_or (left query.now from end) 1 []) && allowed (get_or (left query.now from end) 2 [])))) }
{
    let subject = field_at(query, from, end);
    let predicate = field_at(query, subject.next, end);
    let nodes = !blank_at(query, from, end) & !blank_at(query, predicate.next, end);
    let behind = allowed_at(query, subject.next, end) & allowed_at(query, predicate.next, end);
    told(nodes, allowed_at(query, from, end) & behind)
}

fn term(query: &[u8], from: usize, end: usize) -> Result<(), Refusal>
    requires { (end < length query.now) × (from ≤ end + 1) }
    ensures { result ≡ verdict_told (line true (allowed (get_or (left query.now from end) 0 []))) }
{
    told(true, allowed_at(query, from, end))
}

fn bound(query: &[u8], from: usize, end: usize) -> Result<(), Refusal>
    requires { (end < length query.now) × (from ≤ end + 1) }
    ensures { result ≡ verdict_told (line true (is_var1 (get_or (left query.now from end) 0 []))) }
{
    told(true, named_at(query, from, end))
}

fn graph(place: Place, query: &[u8], from: usize, end: usize) -> Result<(), Refusal>
    requires { (end < length query.now) × (from ≤ end + 1) }
    ensures { result ≡ verdict_told (line (free (place_at place)) (allowed (get_or (left query.now from end) 0 []))) }
{
    told(place.is_free(), allowed_at(query, from, end))
}

fn project(
    edition: Edition,
    place: Place,
    query: &[u8],
    from: usize,
    end: usize,
) -> Result<(), Refusal>
    requires { (end < length query.now) × (from ≤ end + 1) }
    ensures { result ≡ verdict_told (line (takes_project (edition_at edition) (place_at place) && nonempty (left query.now from end)) (all_allowed (left query.now from end))) }
{
    told(
        place.takes_project(edition) & (from <= end),
        all_named(query, from, end),
    )
}

fn orderby(place: Place, query: &[u8], from: usize, end: usize) -> Result<(), Refusal>
    requires { (end < length query.now) × (from ≤ end + 1) }
    ensures { result ≡ verdict_told (line (takes_order (place_at place) && is_some (number_in (get_or (left query.now from end) 0 []))) true) }
{
    let conditions = count_at(query, from, end);
    told(place.takes_order() & (conditions.number != 0), true)
}

// The levels that a tree may have.
const DEPTH: usize = 64;

// An extend, whose variable may not be in scope in the lines behind its own.
fn extend(
    edition: Edition,
    place: Place,
    query: &[u8],
    words: &[WordRow; 56],
    from: usize,
    end: usize,
) -> Result<(), Refusal>
    requires { ((end < length query.now) × (from ≤ end + 1)) × Worded words.now }
    ensures { result ≡ verdict_told (line (free (place_at place) && (is11 (edition_at edition) && not (sought_tree 64 (get_or (left query.now from end) 0 []) true (lines_from query.now (end + 1))).found)) (is_var1 (get_or (left query.now from end) 0 []))) }
{
    let field = field_at(query, from, end);
    let to = field.to;
    let v = &query[from..to];
    let sought = seek_pattern(v, query, words, true, end + 1, DEPTH);
    told(
        place.is_free() & (edition.is_eleven() & !sought.found),
        is_var1(v),
    )
}

// The columns of a values.
fn columns(query: &[u8], from: usize, end: usize) -> Result<(), Refusal>
    requires { (end < length query.now) × (from ≤ end + 1) }
    ensures { result ≡ verdict_told (line (different (left query.now from end)) (all_allowed (left query.now from end))) }
{
    told(are_different(query, from, end), all_named(query, from, end))
}

fn row(query: &[u8], from: usize, end: usize) -> Result<(), Refusal>
    requires { (end < length query.now) × (from ≤ end + 1) }
    ensures { result ≡ verdict_told (line true (all_cells (left query.now from end))) }
{
    told(true, all_cells(query, from, end))
}

const SELECT: [u8; 6] = *b"select";

const DASH: [u8; 1] = *b"-";

// The line at the top: a select query without a dataset and a base.
fn head(query: &[u8], from: usize, end: usize) -> Result<(), Refusal>
    requires { (end < length query.now) × (from ≤ end + 1) }
    ensures { result ≡ verdict_told (line (same (get_or (left query.now from end) 0 []) (bytes "select") && (same (get_or (left query.now from end) 1 []) (bytes "-") && same (get_or (left query.now from end) 2 []) (bytes "-"))) true) }
{
    let kind = field_at(query, from, end);
    let dataset = field_at(query, kind.next, end);
    let bare = is_field(&DASH, query, kind.next, end) & is_field(&DASH, query, dataset.next, end);
    told(is_field(&SELECT, query, from, end) & bare, true)
}

// The line's word has this key, and its other fields stand from `first` to its end.
pub fn verdict_in(
    edition: Edition,
    place: Place,
    query: &[u8],
    words: &[WordRow; 56],
    key: u64,
    first: usize,
    end: usize,
) -> Result<(), Refusal>
    requires { ((end < length query.now) × (first ≤ end + 1)) × Worded words.now }
    ensures { (f : Bytes) → Keyed f key → result ≡ verdict_told (verdict_of (edition_at edition) 64 (place_at place) (f ∷ left query.now first end) (lines_from query.now (end + 1))) }
{
    match key {
        keys::T => triple(query, first, end),
        keys::TERM => term(query, first, end),
        keys::BOUND => bound(query, first, end),
        keys::BGP => plain(place),
        keys::JOIN => plain(place),
        keys::LEFTJOIN => plain(place),
        keys::FILTER => plain(place),
        keys::UNION => plain(place),
        keys::GRAPH => graph(place, query, first, end),
        keys::OR => Ok(()),
        keys::AND => Ok(()),
        keys::EQ => Ok(()),
        keys::SAME => Ok(()),
        keys::NOT => Ok(()),
        keys::ASC => Ok(()),
        keys::DESC => Ok(()),
        keys::EXISTS => exists(edition),
        keys::MINUS => newer(edition, place),
        keys::VALUES => newer(edition, place),
        keys::COLS => columns(query, first, end),
        keys::ROW => row(query, first, end),
        keys::EXTEND => extend(edition, place, query, words, first, end),
        keys::PROJECT => project(edition, place, query, first, end),
        keys::ORDERBY => orderby(place, query, first, end),
        keys::DISTINCT => distinct(edition, place),
        keys::REDUCED => distinct(edition, place),
        keys::SLICE => slice(edition, place),
        keys::QUERY => head(query, first, end),
        _ => Err(Refusal::Unsayable),
    }
}

// The same of an edition by whether it is 1.1, and of a place by its number.
pub fn verdict(
    eleven: bool,
    place: u8,
    query: &[u8],
    words: &[WordRow; 56],
    key: u64,
    first: usize,
    end: usize,
) -> Result<(), Refusal>
    requires { ((end < length query.now) × (first ≤ end + 1)) × Worded words.now }
    ensures { (f : Bytes) → Keyed f key → result ≡ verdict_told (verdict_of (edition_told eleven) 64 (place_told place) (f ∷ left query.now first end) (lines_from query.now (end + 1))) }
{
    verdict_in(
        Edition::from(eleven),
        Place::from(place),
        query,
        words,
        key,
        first,
        end,
    )
}
