// The first line that is refused.
ghost use Rattle.std.specs.Prelude.{◌≡◌};
ghost use Rattle.text.specs.Text.{lines_from};
ghost use Rattle.words.specs.bridge.Words.{Worded};
ghost use Rattle.editions.specs.Refusals.{root};
ghost use Rattle.spelling.specs.bridge.Judging.{judged_lines};
ghost use Rattle.phrasing.specs.bridge.Code.{edition_at, edition_told, verdict_told};

use crate::edition::Edition;
use crate::place::{Place, place_under};
use crate::verdict::verdict_in;
use answers::Refusal;
use reader::line_end;
use words::table::WordRow;
use words::word_at;

// Why it is refused, if one is.
pub fn judge_in(edition: Edition, query: &[u8], words: &[WordRow; 56]) -> Result<(), Refusal>
    requires { Worded words.now }
    ensures { result ≡ verdict_told (judged_lines (edition_at edition) 64 root (lines_from query.now 0)) }
{
    let mut place = Place::Root;
    let mut from = 0;
    while from < query.len() {
        let end = line_end(query, from);
        if end == query.len() {
            return Err(Refusal::Unsayable);
        }
        let w = word_at(query, from, end);
        verdict_in(edition, place, query, words, w.key, w.end + 1, end)?;
        place = place_under(w.key);
        from = end + 1;
    }
    Ok(())
}

// The same of an edition by whether it is 1.1.
pub fn judge(eleven: bool, query: &[u8], words: &[WordRow; 56]) -> Result<(), Refusal>
    requires { Worded words.now }
    ensures { result ≡ verdict_told (judged_lines (edition_told eleven) 64 root (lines_from query.now 0)) }
{
    judge_in(Edition::from(eleven), query, words)
}
