//! The texts of numbers.
ghost use Rattle.std.specs.Prelude.{◌≡◌, decimal};
ghost use Rattle.intern_presets.specs.Numbers.{number_value};
ghost use Rattle.intern_presets.specs.Presets.{generated_text};

use arrayvec::ArrayString;
use itoa::Buffer;

/// What each generated name begins with.
pub(crate) const PREFIX: &str = "<ra@gennew>";

/// The number that a text writes: an optional `+`, and then one or more decimal digits of a number
/// below 2^64. `None` for every other text.
///
/// Takes no memory.
pub fn number(text: &str) -> Option<usize>
    ensures { result ≡ number_value text.now }
{
    text.parse().ok()
}

/// The decimal digits of a number, without leading zeros.
///
/// Takes no memory.
pub fn digits(n: usize) -> ArrayString<20>
    ensures { result.bytes ≡ decimal n }
{
    let mut buffer = Buffer::new();
    let mut text = ArrayString::new();
    text.push_str(buffer.format(n));
    text
}

/// The generated name of a number: `<ra@gennew>`, and then its decimal digits.
///
/// Takes no memory.
pub fn generated(n: usize) -> ArrayString<31>
    ensures { result.bytes ≡ generated_text n }
{
    let mut text = ArrayString::new();
    text.push_str(PREFIX);
    text.push_str(digits(n).as_str());
    text
}
