// The call report: up to eight queries of one input, merged one after the other.
#![tactic(auto)]

mod check;
mod merge;

ghost use Rattle.std.specs.Prelude.{◌≡◌, [], ◌+◌, ◌*◌, ◌≤◌, leb, length, get_or};
ghost use Rattle.parted.specs.Parted.{texts};
ghost use Rattle.answers.specs.Outcome.{refused_unless, Answered};
ghost use Rattle.reporting.specs.Report.{line_count, step_by_step, report_outcome};
ghost use Rattle.reporting.specs.bridge.Turns.{steps_from, merged_in_turn};
ghost use Rattle.stepping.specs.bridge.Checks.{Kept};

use crate::check::{check_texts, has_many_lines};
use crate::merge::merge_in_turn;
use answers::{Answer, Refusal};
use joining::push::push_constants;
use parted::{part_texts, text_at};

// The steps of texts that were checked: 8 if they have too many lines.
fn merge_counted(input: &[u8], ends: &[usize], n: usize, steps: usize, out: &mut [u8]) -> Answer
    requires { Kept input.now ends.now n × (n ≡ 4 * steps) × (1 ≤ steps) × (length (get_or (texts input.now) 0 []) ≤ 16384) × (length (texts input.now) ≡ n + 1) }
    ensures { Answered (refused_unless 8 (leb (line_count (texts input.now)) 8192) (merged_in_turn (get_or (texts input.now) 0 []) (steps_from (texts input.now) 1 steps))) out.old out.new result }
{
    if has_many_lines(input, ends, n) {
        return Err(Refusal::ManyLines);
    }
    merge_in_turn(input, ends, n, steps, out)
}

// A report of several queries, with four texts for each but the first.
fn report_steps(input: &[u8], ends: &[usize], n: usize, steps: usize, out: &mut [u8]) -> Answer
    requires { Kept input.now ends.now n × (n ≡ 4 * steps) × (1 ≤ steps) × (length (texts input.now) ≡ n + 1) }
    ensures { Answered (step_by_step (line_count (texts input.now)) (get_or (texts input.now) 0 []) (steps_from (texts input.now) 1 steps)) out.old out.new result }
{
    check_texts(input, ends, n, steps)?;
    merge_counted(input, ends, n, steps, out)
}

// report: an input of a query and constants, or of a query and four texts for each step, to query.
pub fn report(input: &[u8], out: &mut [u8]) -> Answer
    ensures { Answered (report_outcome input.now) out.old out.new result }
{
    let mut ends = [0usize; 29];
    let n = part_texts(input, &mut ends);
    if n == 0 {
        return Err(Refusal::Malformed);
    }
    if n == 1 {
        return push_constants(
            text_at(input, &ends, n, 0),
            text_at(input, &ends, n, 1),
            out,
        );
    }
    if 28 < n {
        return Err(Refusal::OverBound);
    }
    if n % 4 != 0 {
        return Err(Refusal::Malformed);
    }
    report_steps(input, &ends, n, n / 4, out)
}
