// The calls of three texts and of five.
ghost use Rattle.std.specs.Prelude.{◌≡◌, [], ◌∷◌, ◌+◌, length};
ghost use Rattle.parted.specs.Parted.{texts};
ghost use Rattle.parted.specs.bridge.Code.{Parted};
ghost use Rattle.answers.specs.Outcome.{Answered};
ghost use Rattle.answering.specs.Answering.{called};

use answers::{Answer, Refusal};
use joining::patterns::merge_patterns;
use joining::queries::merge_queries;
use joining::without::without;
use parted::text_at;

// A call's answer to three texts.
fn of_three(call: u32, a: &[u8], b: &[u8], c: &[u8], out: &mut [u8]) -> Answer
    ensures { Answered (called call (a.now ∷ b.now ∷ c.now ∷ [])) out.old out.new result }
{
    if call == 8 {
        return without(a, b, c, out);
    }
    Err(Refusal::Malformed)
}

// A call's answer to five texts.
fn of_five(call: u32, a: &[u8], b: &[u8], c: &[u8], d: &[u8], e: &[u8], out: &mut [u8]) -> Answer
    ensures { Answered (called call (a.now ∷ b.now ∷ c.now ∷ d.now ∷ e.now ∷ [])) out.old out.new result }
{
    if call == 2 {
        return merge_patterns(a, b, c, d, e, out);
    }
    if call == 3 {
        return merge_queries(a, b, c, d, e, out);
    }
    Err(Refusal::Malformed)
}

// A call's answer to three texts or five of an input; to none else.
pub fn of_more(call: u32, input: &[u8], ends: &[usize; 5], n: usize, out: &mut [u8]) -> Answer
    requires { Parted input.now ends.now 5 n }
    ensures { length (texts input.now) ≡ n + 1 → (n ≡ 0 → ⊥) → (n ≡ 1 → ⊥) → Answered (called call (texts input.now)) out.old out.new result }
{
    if n == 2 {
        return of_three(
            call,
            text_at(input, ends, n, 0),
            text_at(input, ends, n, 1),
            text_at(input, ends, n, 2),
            out,
        );
    }
    if n == 4 {
        return of_five(
            call,
            text_at(input, ends, n, 0),
            text_at(input, ends, n, 1),
            text_at(input, ends, n, 2),
            text_at(input, ends, n, 3),
            text_at(input, ends, n, 4),
            out,
        );
    }
    Err(Refusal::Malformed)
}
