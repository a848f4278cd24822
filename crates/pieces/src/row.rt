// The rows that a piece is made of.
ghost use Rattle.std.specs.Prelude.{◌≡◌};
ghost use Rattle.pieces.specs.Rows.{first_wide};

use words::is_word;

// The first row that is no word on n lines.
pub fn first_wide(n: u8, rows: &[u64]) -> Option<usize>
    ensures { result ≡ first_wide n 0 rows.now }
{
    rows.iter().position(|row| !is_word(n, *row))
}
