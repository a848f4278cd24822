// Lines, fields and numerals: the text that every line of a sheet is made of.
ghost use Rattle.std.specs.Prelude.{◌≡◌, ◌+◌, [], ◌∷◌, length, MatchOption};
ghost use Rattle.sheet.specs.Text.{pieces, sized, numeral, LinesEnd};

// The bytes before the first `sep` and those after it; none where there is no `sep`.
pub fn split_once(s: &[u8], sep: u8) -> Option<(&[u8], &[u8])>
    ensures { MatchOption result (pieces sep s.now ≡ s.now ∷ []) (λ p. (pieces sep s.now ≡ p.0.now ∷ pieces sep p.1.now) × (length p.0.now + length p.1.now + 1 ≡ length s.now)) }
{
    let at = s.iter().position(|b| *b == sep)?;
    Some((&s[..at], &s[at + 1..]))
}

// Where the first `count` lines of a text end; the text's own end where it has fewer.
pub fn lines_end(text: &[u8], count: usize) -> usize
    ensures { LinesEnd text.now count result }
{
    let mut rest = text;
    for _line in 0..count {
        let Some((_, after)) = split_once(rest, b'\n') else {
            return text.len();
        };
        rest = after;
    }
    text.len() - rest.len()
}

// Whether there are one to five bytes, with no leading zero.
fn is_sized(ds: &[u8]) -> bool
    ensures { result ≡ sized ds.now }
{
    match ds {
        [] => false,
        [_] => true,
        [first, ..] => *first != b'0' && ds.len() <= 5,
    }
}

// The number that a numeral writes: at most five digits, with no leading zero.
pub fn read_numeral(ds: &[u8]) -> Option<u32>
    ensures { result ≡ numeral ds.now }
{
    if !is_sized(ds) {
        return None;
    }
    let mut n = 0;
    for d in ds {
        n = n * 10 + char::from(*d).to_digit(10)?;
    }
    Some(n)
}
