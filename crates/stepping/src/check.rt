// The checks of a report's texts, in the order given, and their lines.
ghost use Rattle.std.specs.Prelude.{◌≡◌, [], not, ◌+◌, ◌*◌, ◌≤◌, leb, length, get_or};
ghost use Rattle.text.specs.Text.{lines_of};
ghost use Rattle.parted.specs.Parted.{texts};
ghost use Rattle.reporting.specs.Report.{line_count};
ghost use Rattle.reporting.specs.bridge.Turns.{step_at, steps_from};
ghost use Rattle.stepping.specs.bridge.Checks.{Kept, QueryChecked, StepChecked, StepsChecked, TextsChecked};

use algebra::Fault;
use joining::merge::check_lists;
use names::new_table;
use parted::text_at;
use reading::check_query;
use text::find;
use words::table::all_words;

// A query's text.
fn check_text(text: &[u8]) -> Result<(), Fault>
    ensures { QueryChecked text.now result }
{
    let words = all_words();
    let mut table = new_table();
    let mut hints = [0u16; 2048];
    check_query(text, &words, &mut table, &mut hints)?;
    Ok(())
}

// The four texts of a step, the first of which has this number.
fn check_step(input: &[u8], ends: &[usize], n: usize, k: usize) -> Result<(), Fault>
    requires { Kept input.now ends.now n × (k + 3 ≤ n) }
    ensures { StepChecked (step_at (texts input.now) k) result }
{
    check_text(text_at(input, ends, n, k))?;
    check_lists(
        text_at(input, ends, n, k + 1),
        text_at(input, ends, n, k + 2),
        text_at(input, ends, n, k + 3),
    )?;
    Ok(())
}

// Those of all steps.
fn check_steps(input: &[u8], ends: &[usize], n: usize, steps: usize) -> Result<(), Fault>
    requires { Kept input.now ends.now n × (n ≡ 4 * steps) }
    ensures { StepsChecked (steps_from (texts input.now) 1 steps) result }
{
    for step in 0..steps {
        check_step(input, ends, n, 4 * step + 1)?;
    }
    Ok(())
}

// And the first query before them.
pub fn check_texts(input: &[u8], ends: &[usize], n: usize, steps: usize) -> Result<(), Fault>
    requires { Kept input.now ends.now n × (n ≡ 4 * steps) }
    ensures { TextsChecked (get_or (texts input.now) 0 []) (steps_from (texts input.now) 1 steps) result }
{
    check_text(text_at(input, ends, n, 0))?;
    check_steps(input, ends, n, steps)
}

// How many lines a text has.
fn count_lines(text: &[u8]) -> usize
    ensures { result ≡ length (lines_of text.now) }
{
    let mut n = 0;
    let mut at = 0;
    while at < text.len() {
        at = find(text, at, text.len(), 10) + 1;
        n += 1;
    }
    n
}

// More lines than a report's texts may have.
pub fn has_many_lines(input: &[u8], ends: &[usize], n: usize) -> bool
    requires { Kept input.now ends.now n × (length (texts input.now) ≡ n + 1) }
    ensures { not result ≡ leb (line_count (texts input.now)) 8192 }
{
    let mut total = 0;
    for k in 0..n + 1 {
        let lines = count_lines(text_at(input, ends, n, k));
        if 8192 - total < lines {
            return true;
        }
        total += lines;
    }
    false
}
