// Line words: on n lines the numbers below 2^n, whose bit i is the value on line i.
#![tactic(auto)]

ghost use Rattle.std.specs.Prelude.{◌≡◌, ◌^◌, bit_xor, nat_lt};
ghost use Rattle.words.specs.Words.{has, unit};

// Whether a number is a word on n lines.
pub fn is_word(n: u8, word: u64) -> bool
    ensures { result ≡ nat_lt word (2 ^ n) }
{
    n >= 64 || word < unit(n)
}

// Whether the bit of a line is 1. A word has no line past 63.
pub fn has_bit(word: u64, line: u8) -> bool
    ensures { result ≡ has word line }
{
    line < 64 && (word >> line) % 2 == 1
}

// The word in which a line alone is 1, or 0 past line 63.
pub fn unit(line: u8) -> u64
    ensures { result ≡ unit line }
{
    if line < 64 { 1 << line } else { 0 }
}

// The word with the bit of a line flipped. A line past 63 leaves it.
pub fn flipped(word: u64, line: u8) -> u64
    ensures { result ≡ bit_xor word (unit line) }
{
    word ^ unit(line)
}
