// The call merge patterns: two trees joined into one.
ghost use Rattle.answers.specs.Outcome.{Answered};
ghost use Rattle.merging.specs.Merge.{merge_patterns_outcome};

use crate::merge::{Form, merge_texts};
use answers::Answer;

// merge patterns: two trees, join list, left and right constants to tree.
pub fn merge_patterns(
    left: &[u8],
    right: &[u8],
    pairs: &[u8],
    left_constants: &[u8],
    right_constants: &[u8],
    out: &mut [u8],
) -> Answer
    ensures { Answered (merge_patterns_outcome left.now right.now pairs.now left_constants.now right_constants.now) out.old out.new result }
{
    merge_texts(
        Form {
            query: false,
            minus: false,
        },
        left,
        right,
        pairs,
        left_constants,
        right_constants,
        out,
    )
}
