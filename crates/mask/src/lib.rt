// Which columns: four words with one bit a column, the lowest bit of the first word for the first column.
#![tactic(auto)]

ghost use Rattle.std.specs.Prelude.{◌≡◌, ◌+◌, ◌*◌, ◌/◌, ◌%◌, ◌^◌, ◌≤◌, ◌<◌, get_or};
ghost use Rattle.std.specs.Int.Bits.{bit_or};
ghost use Rattle.std.specs.Int.Count.{ones};
ghost use Rattle.mask.specs.bridge.Mask.{bit_of};
ghost use Rattle.mask.specs.bridge.Words.{words_of, mask_value};

#[derive(Clone, Copy)]
pub struct Mask(pub u64, pub u64, pub u64, pub u64);

// No column.
pub fn empty() -> Mask
    ensures { mask_value result ≡ 0 }
{
    Mask(0, 0, 0, 0)
}

// The mask with the bit at number i.
pub fn with_one(mask: Mask, i: usize) -> Mask
    requires { i < 256 }
    ensures { mask_value result ≡ bit_or (mask_value mask) (2 ^ i) }
{
    if i < 64 {
        return Mask(mask.0 | (1 << i), mask.1, mask.2, mask.3);
    }
    if i < 128 {
        return Mask(mask.0, mask.1 | (1 << (i - 64)), mask.2, mask.3);
    }
    if i < 192 {
        return Mask(mask.0, mask.1, mask.2 | (1 << (i - 128)), mask.3);
    }
    Mask(mask.0, mask.1, mask.2, mask.3 | (1 << (i - 192)))
}

// The mask with one bit more, at number i, behind all that are set.
pub fn with_bit(mask: Mask, i: usize, set: bool) -> Mask
    requires { (i < 256) × (mask_value mask < 2 ^ i) }
    ensures { mask_value result ≡ mask_value mask + bit_of set * 2 ^ i }
{
    if set {
        return with_one(mask, i);
    }
    mask
}

// The word that has the bit at number i; 0 behind the last.
fn word_at(mask: Mask, i: usize) -> u64
    ensures { result ≡ get_or (words_of mask) (i / 64) 0 }
{
    if i < 64 {
        return mask.0;
    }
    if i < 128 {
        return mask.1;
    }
    if i < 192 {
        return mask.2;
    }
    if i < 256 {
        return mask.3;
    }
    0
}

// The bit at number i.
pub fn bit_at(mask: Mask, i: usize) -> u64
    ensures { result ≡ mask_value mask / 2 ^ i % 2 }
{
    (word_at(mask, i) >> (i % 64)) % 2
}

// How many bits of a word are 1.
fn ones_of_word(word: u64) -> usize
    ensures { (result ≡ ones word) × (result ≤ 64) }
{
    u64::count_ones(word) as usize
}

// How many bits are 1.
pub fn count_ones(mask: Mask) -> usize
    ensures { (result ≡ ones (mask_value mask)) × (result ≤ 256) }
{
    let a = ones_of_word(mask.0);
    let b = ones_of_word(mask.1);
    let c = ones_of_word(mask.2);
    let d = ones_of_word(mask.3);
    a + b + c + d
}
