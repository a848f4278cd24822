// The numbers of a line, with one space between.
ghost use Rattle.std.specs.Prelude.{◌≡◌, ◌<◌, length, IfSome, Some, None, MatchOption};
ghost use Rattle.sheet.specs.Form.{numbers, both, rest_numbers, just};

use crate::text::{read_numeral, split_once};

// The first number of a line, and what stands behind the space after it, if there is a space.
pub fn first_number(line: &[u8]) -> Option<(u32, Option<&[u8]>)>
    ensures value { MatchOption result (numbers line.now ≡ None) (λ p. numbers line.now ≡ both (Some p.0) (rest_numbers p.1)) }
    ensures shorter { IfSome result (λ p. IfSome p.1 (λ rest. length rest.now < length line.now)) }
{
    match split_once(line, b' ') {
        Some((field, rest)) => Some((read_numeral(field)?, Some(rest))),
        None => Some((read_numeral(line)?, None)),
    }
}

// The numbers of a line that holds just N.
pub fn read_numbers<const N: usize>(line: &[u8]) -> Option<[u32; N]>
    ensures { result ≡ just N (numbers line.now) }
{
    let mut numbers = [0; N];
    let mut rest = Some(line);
    for number in numbers.iter_mut() {
        let (x, after) = first_number(rest?)?;
        *number = x;
        rest = after;
    }
    rest.is_none().then_some(numbers)
}
