// Decimal numbers of 1 to 9 digits.
ghost use Rattle.std.specs.Prelude.{◌≡◌, ℕ, ◌<◌, Some, decimal};
ghost use Rattle.text_pieces.specs.Numerals.{number_in};

const MOST_DIGITS: usize = 9;

// The number that the digits write, with leading zeros allowed; none where the bytes are no such numeral.
pub fn number_in(bytes: &[u8]) -> Option<u32>
    ensures value { result ≡ number_in bytes.now }
    ensures decimals { (n : ℕ) → n < 1000000000 → number_in (decimal n) ≡ Some n }
{
    if bytes.is_empty() || bytes.len() > MOST_DIGITS {
        return None;
    }
    // no parse: it takes a sign; no fold: each step would ask for the bound again
    let mut number: u32 = 0;
    for byte in bytes {
        number = 10 * number + char::from(*byte).to_digit(10)?;
    }
    Some(number)
}
