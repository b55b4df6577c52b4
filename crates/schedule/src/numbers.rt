//! Numbers in the text of a schedule.
ghost use Rattle.std.specs.Prelude.{◌≡◌, ◌≤◌, ◌+◌, ◌-◌, ◌*◌, ◌&&◌, ◌==◌, ◌^◌, length, true, nat_lt, slice_index, if◌then◌else◌, Some, None};
ghost use Rattle.std.specs.Char.{is_ascii_digit};
ghost use Rattle.std.specs.Str.Parse.{digits_value};
ghost use Rattle.schedule.specs.Faults.{first_digits, writes_number};

/// The digits that a text begins with, and the number that they write, if it fits 64 bits and has no leading zero.
#[derive(Clone, Copy)]
pub(crate) struct Number {
    pub(crate) length: usize,
    pub(crate) value: Option<u64>,
}

impl Number {
    /// The same digits, of which no number is told.
    fn without_value(self) -> Number
        ensures { result ≡ record { length = self.length; value = None } }
    {
        Number {
            length: self.length,
            value: None,
        }
    }
}

/// The number that a text begins with.
fn first_number(text: &[u8]) -> Number
    ensures length { result.length ≡ length (first_digits text.now) }
    ensures inside { result.length ≤ length text.now }
    ensures value { result.value ≡ (if writes_number 0 (2 ^ 64) (first_digits text.now)
        then Some (digits_value 10 (first_digits text.now)) else None) }
{
    let found = leading_digits(text);
    if found.length == 0 {
        return found.without_value();
    }
    if has_leading_zero(&text[..found.length]) {
        return found.without_value();
    }
    found
}

/// The same, where the number is from `low` to `high`.
pub(crate) fn number_within(text: &[u8], low: u64, high: u64) -> Number
    ensures length { result.length ≡ length (first_digits text.now) }
    ensures inside { result.length ≤ length text.now }
    ensures value { result.value ≡ (if writes_number low (high + 1) (first_digits text.now)
        then Some (digits_value 10 (first_digits text.now)) else None) }
{
    let found = first_number(text);
    let Some(number) = found.value else {
        return found;
    };
    if number < low {
        return found.without_value();
    }
    if number > high {
        return found.without_value();
    }
    found
}

/// Whether digits begin with a 0 that is not the only one.
fn has_leading_zero(digits: &[u8]) -> bool
    ensures { result ≡ (nat_lt 1 (length digits.now) && (slice_index digits.now 0 == 48)) }
{
    digits.len() > 1 && digits[0] == b'0'
}

/// How many digits a text begins with.
fn digits_length(text: &[u8]) -> usize
    ensures length { result ≡ length (first_digits text.now) }
    ensures within { result ≤ length text.now }
{
    text.iter().take_while(|byte| byte.is_ascii_digit()).count()
}

/// The digits that a text begins with, and the number that they write, leading zeros or not, if it fits 64 bits.
fn leading_digits(text: &[u8]) -> Number
    ensures length { result.length ≡ length (first_digits text.now) }
    ensures inside { result.length ≤ length text.now }
    ensures value { result.value ≡ (if nat_lt (digits_value 10 (first_digits text.now)) (2 ^ 64)
        then Some (digits_value 10 (first_digits text.now)) else None) }
{
    let mut value = 0_u64;
    let mut length = 0;
    'digits: while length < text.len() && text[length].is_ascii_digit() {
        let Some(more) = with_digit(value, text[length]) else {
            return Number {
                length: digits_length(text),
                value: None,
            };
        };
        value = more;
        length += 1;
    }
    Number {
        length,
        value: Some(value),
    }
}

/// The number with one digit more, if it fits 64 bits.
fn with_digit(number: u64, digit: u8) -> Option<u64>
    requires { is_ascii_digit digit ≡ true }
    ensures { result ≡ (if nat_lt (number * 10 + (digit - 48)) (2 ^ 64) then Some (number * 10 + (digit - 48)) else None) }
{
    number.checked_mul(10)?.checked_add(u64::from(digit - b'0'))
}
