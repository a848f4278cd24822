// Words of at most eight lines.
ghost use Rattle.std.specs.Prelude.{◌≡◌, ◌^◌, ◌<◌, ◌≤◌, ◌&&◌, length, if◌then◌else◌, ◌==◌, bit_and, bit_xor, nat_eq, nat_le, nat_lt};
ghost use Rattle.mapping.specs.Mapping.{mapping, shrink};
ghost use Rattle.mapping.specs.Ones.{outside, drop_lowest};

// Whether a word has all controls.
fn has_all(word: u8, controls: u8) -> bool
    ensures { result ≡ (bit_and word controls == controls) }
{
    word & controls == controls
}

// The word with these bits flipped, if it has all controls. In bytes, so that a loop over many words is fast.
pub(crate) fn flipped(word: u8, controls: u8, bits: u8) -> u8
    ensures { result ≡ (if nat_eq (bit_and word controls) controls then bit_xor word bits else word) }
{
    if has_all(word, controls) {
        word ^ bits
    } else {
        word
    }
}

// The ones of a word that another lacks.
pub(crate) fn without(word: u8, other: u8) -> u8
    ensures { result ≡ outside word other }
{
    word & !other
}

// y with its lowest one cleared as long as the result is not below x.
pub(crate) fn shrink(y: u8, x: u8) -> u8
    ensures { result ≡ shrink y x }
{
    let mut c = y;
    while can_clear(c, x) {
        c &= c - 1;
    }
    c
}

// Whether c has a one, and is not below x without its lowest one.
fn can_clear(c: u8, x: u8) -> bool
    ensures { result ≡ (nat_lt 0 c && nat_le x (drop_lowest c)) }
{
    c > 0 && c & (c - 1) >= x
}

// How many gates map y to x: one for each bit in which they differ.
pub(crate) fn mapping_len(y: u8, x: u8) -> u32
    ensures is { result ≡ length (mapping y x) }
    ensures small { result ≤ 8 }
{
    (x ^ y).count_ones()
}
