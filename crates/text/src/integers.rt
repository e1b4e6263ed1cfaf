// Integers in base ten: the number that a field is.
ghost use Rattle.std.specs.Prelude.{◌≡◌};
ghost use Rattle.text.specs.Field.{digits_of, number_of, given};
ghost use Rattle.text.specs.bridge.Code.{number_in};

// The number that the digits of a field make.
fn digits(f: &[u8]) -> Option<u32>
    ensures { number_in result ≡ digits_of 0 f.now }
{
    let mut n: u64 = 0;
    for d in f {
        let d = *d;
        if d < 48 {
            return None;
        }
        if 57 < d {
            return None;
        }
        let m = n * 10 + (d - 48) as u64;
        if 4294967295 < m {
            return None;
        }
        n = m;
    }
    Some(n as u32)
}

// The integer that a field is, in base ten with no leading zeros.
pub fn number_of(f: &[u8]) -> Option<u32>
    ensures { number_in result ≡ number_of f.now }
{
    if f.len() == 0 {
        return None;
    }
    if f.len() == 1 {
        return digits(f);
    }
    if f[0] == 48 {
        return None;
    }
    digits(f)
}

pub fn is_integer(f: &[u8]) -> bool
    ensures { result ≡ given (number_of f.now) }
{
    number_of(f).is_some()
}
