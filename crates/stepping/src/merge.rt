// The steps of a report in turn.
ghost use Rattle.std.specs.Prelude.{◌≡◌, [], ◌+◌, ◌*◌, ◌≢◌, ◌≤◌, length, get_or, take};
ghost use Rattle.parted.specs.Parted.{texts};
ghost use Rattle.answers.specs.Outcome.{Answered};
ghost use Rattle.answers.specs.declared.Refusal.TheVariants.{OverBound, TooShort};
ghost use Rattle.reporting.specs.bridge.Turns.{step_at, steps_from, merged_step, merged_in_turn};
ghost use Rattle.stepping.specs.bridge.Checks.{Kept, Between};

use answers::{Answer, Refusal};
use emit::put_all;
use joining::queries::merge_queries;
use parted::text_at;

// A step: a query merged with the one that is the text of this number.
fn merge_step(
    left: &[u8],
    input: &[u8],
    ends: &[usize],
    n: usize,
    k: usize,
    out: &mut [u8],
) -> Answer
    requires { Kept input.now ends.now n × (k + 3 ≤ n) }
    ensures { Answered (merged_step left.now (step_at (texts input.now) k)) out.old out.new result }
{
    merge_queries(
        left,
        text_at(input, ends, n, k),
        text_at(input, ends, n, k + 1),
        text_at(input, ends, n, k + 2),
        text_at(input, ends, n, k + 3),
        out,
    )
}

// What is longer than a text may be is over a bound.
fn refusal_between(refusal: Refusal) -> Refusal
    ensures { (refusal ≡ TooShort → result ≡ OverBound) × (refusal ≢ TooShort → result ≡ refusal) }
{
    match refusal {
        Refusal::TooShort => Refusal::OverBound,
        refusal => refusal,
    }
}

// The same before another step.
fn merge_between(
    left: &[u8],
    input: &[u8],
    ends: &[usize],
    n: usize,
    k: usize,
    next: &mut [u8],
) -> Answer
    requires { Kept input.now ends.now n × (k + 3 ≤ n) × (length next.old ≡ 16384) }
    ensures { Between left.now (step_at (texts input.now) k) next.new result }
{
    merge_step(left, input, ends, n, k, next).map_err(refusal_between)
}

// The same, and what it makes takes the left query's place.
fn advance(left: &mut [u8], size: usize, input: &[u8], ends: &[usize], n: usize, k: usize) -> Answer
    requires { Kept input.now ends.now n × (k + 3 ≤ n) × (length left.old ≡ 16384) × (size ≤ 16384) }
    ensures { Between (take size left.old) (step_at (texts input.now) k) left.new result }
{
    let mut next = [0u8; 16384];
    let made = merge_between(&left[..size], input, ends, n, k, &mut next)?;
    put_all(left, 0, &next[..made]);
    Ok(made)
}

// The steps in turn, the last one into the caller's buffer.
fn merge_from(
    left: &mut [u8],
    start: usize,
    input: &[u8],
    ends: &[usize],
    n: usize,
    steps: usize,
    out: &mut [u8],
) -> Answer
    requires { Kept input.now ends.now n × (n ≡ 4 * steps) × (1 ≤ steps) × (length left.old ≡ 16384) × (start ≤ 16384) }
    ensures { Answered (merged_in_turn (take start left.old) (steps_from (texts input.now) 1 steps)) out.old out.new result }
{
    let mut size = start;
    for step in 0..steps - 1 {
        size = advance(left, size, input, ends, n, 4 * step + 1)?;
    }
    merge_step(&left[..size], input, ends, n, n - 3, out)
}

// The same from the first query on.
pub fn merge_in_turn(input: &[u8], ends: &[usize], n: usize, steps: usize, out: &mut [u8]) -> Answer
    requires { Kept input.now ends.now n × (n ≡ 4 * steps) × (1 ≤ steps) × (length (get_or (texts input.now) 0 []) ≤ 16384) }
    ensures { Answered (merged_in_turn (get_or (texts input.now) 0 []) (steps_from (texts input.now) 1 steps)) out.old out.new result }
{
    let mut left = [0u8; 16384];
    let size = put_all(&mut left, 0, text_at(input, ends, n, 0));
    merge_from(&mut left, size, input, ends, n, steps, out)
}
