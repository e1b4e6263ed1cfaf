// Variables: ? and a name of ASCII letters, digits and underscores.
ghost use Rattle.std.specs.Prelude.{◌≡◌, ◌||◌, eqb};
ghost use Rattle.editions.specs.Lexical.{letter, digit, is_var1};

pub fn is_letter(b: u8) -> bool
    ensures { result ≡ letter b }
{
    matches!(b, b'A'..=b'Z' | b'a'..=b'z')
}

pub fn is_digit(b: u8) -> bool
    ensures { result ≡ digit b }
{
    matches!(b, b'0'..=b'9')
}

fn is_name_byte(b: u8) -> bool
    ensures { result ≡ (letter b || (digit b || eqb b 95)) }
{
    is_letter(b) | (is_digit(b) | (b == b'_'))
}

#[tactic(auto, unfolding(editions::specs::Lexical::is_var1, editions::specs::Lexical::all_name))]
pub fn is_var1(f: &[u8]) -> bool
    ensures { result ≡ is_var1 f.now }
{
    let [first, name @ ..] = f else {
        return false;
    };
    if *first != b'?' || name.is_empty() {
        return false;
    }
    for b in name {
        if !is_name_byte(*b) {
            return false;
        }
    }
    true
}
