// Decimal numbers.
ghost use Rattle.std.specs.Prelude.{◌≡◌};
ghost use Rattle.std.specs.Option.{SomeIff};
ghost use Rattle.std.specs.Str.Parse.{digits_value};
ghost use Rattle.cyc_text.specs.Number.{number_of, IsNumber};

/// The most digits of a number: 19 nines fit a `u64`.
const MOST_DIGITS: usize = 19;

/// What a number of two digits or more may not begin with.
const LEADING_ZERO: u8 = b'0';

/// The value of a decimal number: 1 to 19 digits with no sign and no leading zero, but `0` itself is a number.
///
/// `None` exactly where the word is no such number. Linear in the word, takes no memory.
pub fn read_number(word: &[u8]) -> Option<u64>
    ensures { result ≡ number_of word.now }
{
    read_digits(word)
}

fn read_digits(word: &[u8]) -> Option<u64>
    ensures { SomeIff result (IsNumber word.now) (digits_value 10 word.now) }
{
    if word.is_empty() || word.len() > MOST_DIGITS || (word.len() > 1 && word[0] == LEADING_ZERO) {
        return None;
    }
    let mut value = 0u64;
    for digit in word {
        if !digit.is_ascii_digit() {
            return None;
        }
        value = value * 10 + u64::from(*digit - b'0');
    }
    Some(value)
}
