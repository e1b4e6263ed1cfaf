// The call without: the rows of a query that no row of another one matches.
ghost use Rattle.answers.specs.Outcome.{Answered};
ghost use Rattle.merging.specs.Without.{without_queries_outcome};

use crate::merge::{Form, merge_texts};
use answers::Answer;

// without: two queries and a join list to query. No constants are bound: an empty list is lent in both places.
pub fn without(left: &[u8], right: &[u8], pairs: &[u8], out: &mut [u8]) -> Answer
    ensures { Answered (without_queries_outcome left.now right.now pairs.now) out.old out.new result }
{
    let none = [0u8; 0];
    merge_texts(
        Form {
            query: true,
            minus: true,
        },
        left,
        right,
        pairs,
        &none,
        &none,
        out,
    )
}
