// What a public call answers, and its number and length: docs/SPECIFICATION.md, "Numbers".
#![tactic(auto)]

ghost use Rattle.std.specs.Prelude.{◌≡◌, Err};
ghost use Rattle.answers.specs.Outcome.{number as number_of, size as size_of, refusal_of, written, Answered};
ghost use Rattle.emit.specs.bridge.Emit.{em, puts};
ghost use Rattle.emit.specs.bridge.Writer.{Wrote};
ghost use Rattle.text.specs.Text.{Bytes};
ghost use Rattle.answers.specs.Both.{answer_of, many_of};

use algebra::Fault;
use emit::Writer;

// Why a call is refused; its buffer is as it was.
#[derive(Clone, Copy, Debug, PartialEq, Eq)]
pub enum Refusal {
    Malformed,
    OverBound,
    Outside,
    NotProject,
    NotMergeable,
    TooShort,
    NotUsable,
    ManyLines,
    ListTooShort,
    Repeated,
    NoPairs,
    Unsayable,
    Forbidden,
    NotInOrder,
    NotCovered,
}

// How many bytes were written, or why the call was refused.
pub type Answer = Result<usize, Refusal>;

// A text that is refused refuses the call.
impl From<Fault> for Refusal {
    ghost from_gives = { λ fault refusal. refusal ≡ refusal_of fault };

    fn from(fault: Fault) -> Refusal {
        match fault {
            Fault::Malformed => Refusal::Malformed,
            Fault::OverBound => Refusal::OverBound,
        }
    }
}

// How many bytes were written, and how many numbers into the list beside them.
#[derive(Clone, Copy)]
pub struct Listed {
    pub size: usize,
    pub many: usize,
}

// The answer of a call that has a list.
pub type ListedAnswer = Result<Listed, Refusal>;

// The same without its list.
pub fn answer_of(listed: ListedAnswer) -> Answer
    ensures { result ≡ answer_of listed }
{
    match listed {
        Ok(l) => Ok(l.size),
        Err(refusal) => Err(refusal),
    }
}

// How many numbers were listed, 0 of a refusal.
pub fn many_of(listed: ListedAnswer) -> usize
    ensures { result ≡ many_of listed }
{
    match listed {
        Ok(l) => l.many,
        Err(_) => 0,
    }
}

// Its number, 0 where bytes were written: docs/SPECIFICATION.md, "Numbers".
pub fn number(answer: Answer) -> u8
    ensures { result ≡ number_of answer }
{
    match answer {
        Ok(_) => 0,
        Err(refusal) => refusal_number(refusal),
    }
}

fn refusal_number(refusal: Refusal) -> u8
    ensures { result ≡ number_of (Err refusal) }
{
    match refusal {
        Refusal::Malformed => 1,
        Refusal::OverBound => 2,
        Refusal::Outside => 3,
        Refusal::NotProject => 4,
        Refusal::NotMergeable => 5,
        Refusal::TooShort => 6,
        Refusal::NotUsable => 7,
        Refusal::ManyLines => 8,
        Refusal::ListTooShort => 9,
        Refusal::Repeated => 10,
        Refusal::NoPairs => 11,
        Refusal::Unsayable => 12,
        Refusal::Forbidden => 13,
        Refusal::NotInOrder => 14,
        Refusal::NotCovered => 15,
    }
}

// The length of what was written, 0 of a refusal.
pub fn size_of(answer: Answer) -> usize
    ensures { result ≡ size_of answer }
{
    answer.unwrap_or(0)
}

// What a writer puts: measured on a buffer without room, and written if it fits.
pub fn write_measured<F: Fn(&mut [u8]) -> usize>(out: &mut [u8], put: F) -> Answer
    requires { F.IsAlwaysCallable put }
    ensures { (b : Bytes) → ((o : _) (r : _) (o' : _) → F.post put o r o' → em r o'.now ≡ puts b (em 0 o.now)) → Answered (written b) out.old out.new result }
{
    let mut none = [0u8; 0];
    let size = put(&mut none);
    if out.len() < size {
        return Err(Refusal::TooShort);
    }
    let size = put(out);
    Ok(size)
}

// The same of what is written through a writer.
pub fn write_answer<F: Fn(&mut Writer)>(out: &mut [u8], write: F) -> Answer
    requires { F.IsAlwaysCallable write }
    ensures { (b : Bytes) → ((w : _) (w' : _) → F.post write w tt w' → Wrote w.now w'.now b) → Answered (written b) out.old out.new result }
{
    let mut none = [0u8; 0];
    let mut spare = Writer::new(&mut none, 0);
    write(&mut spare);
    let need = spare.at;
    if out.len() < need {
        return Err(Refusal::TooShort);
    }
    let mut w = Writer::new(out, 0);
    write(&mut w);
    Ok(w.at)
}
