// A select query's text for an edition of SPARQL: the calls sparql_1_1 and sparql_1_0.
#![tactic(auto)]

use crate::edition::Edition;
use crate::judge::judge_in;
use answers::{Answer, Refusal, write_measured};
use heads::tree_start;
use reading::check_query;
use spelling::before::Manner;
use spelling::say::say_tree;
use words::table::{WordRow, all_words};

pub mod edition;
pub mod fields;
pub mod judge;
pub mod place;
pub mod verdict;

ghost use Rattle.std.specs.Prelude.{◌≡◌};
ghost use Rattle.algebra.specs.Query.{Query};
ghost use Rattle.algebra.specs.Reader.{reads};
ghost use Rattle.algebra.specs.Texts.{read_query};
ghost use Rattle.algebra.specs.Given.{read_given_query};
ghost use Rattle.words.specs.bridge.Words.{Worded};
ghost use Rattle.answers.specs.Outcome.{Answered};
ghost use Rattle.editions.specs.Token.{sparql10, sparql11};
ghost use Rattle.editions.specs.Outcome.{edition_outcome};
ghost use Rattle.editions.specs.bridge.AsIs.{edition_as_is};
ghost use Rattle.phrasing.specs.bridge.Code.{edition_at};

// The head line, and the levels that a tree may have.
const LEVELS: usize = 65;

// For a query that was checked, as its lines stand.
fn sparql_of(query: &[u8], words: &[WordRow; 56], edition: Edition, out: &mut [u8]) -> Answer
    requires { ((q : Query) × (read_query query.now ≡ reads q)) × Worded words.now }
    ensures { Answered (edition_as_is (edition_at edition) query.now) out.old out.new result }
{
    judge_in(edition, query, words)?;
    write_measured(
        out,
        |o| say_tree(query, words, Manner::Plain, 0, LEVELS, o, 0).at,
    )
}

// The same for any query that was checked: an empty file has no columns, which no edition can say.
fn sparql_given(query: &[u8], words: &[WordRow; 56], edition: Edition, out: &mut [u8]) -> Answer
    requires { ((q : Query) × (read_given_query query.now ≡ reads q)) × Worded words.now }
    ensures { Answered (edition_outcome (edition_at edition) query.now) out.old out.new result }
{
    if tree_start(query) < query.len() {
        return sparql_of(query, words, edition, out);
    }
    Err(Refusal::Unsayable)
}

// A select query to its text.
fn sparql(query: &[u8], edition: Edition, out: &mut [u8]) -> Answer
    ensures { Answered (edition_outcome (edition_at edition) query.now) out.old out.new result }
{
    let words = all_words();
    let mut table = [[0u16; 2]; 1024];
    let mut hints = [0u16; 2048];
    check_query(query, &words, &mut table, &mut hints)?;
    sparql_given(query, &words, edition, out)
}

// sparql_1_1: a select query to its text for SPARQL 1.1.
pub fn sparql_1_1(query: &[u8], out: &mut [u8]) -> Answer
    ensures { Answered (edition_outcome sparql11 query.now) out.old out.new result }
{
    sparql(query, Edition::Sparql11, out)
}

// sparql_1_0: a select query to its text for SPARQL 1.0.
pub fn sparql_1_0(query: &[u8], out: &mut [u8]) -> Answer
    ensures { Answered (edition_outcome sparql10 query.now) out.old out.new result }
{
    sparql(query, Edition::Sparql10, out)
}
