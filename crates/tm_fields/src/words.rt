//! Values without the spaces and tabs around them, and the numbers and types that they name.

ghost use Rattle.std.specs.Prelude.{◌≡◌, ◌<◌, ◌≤◌, ◌^◌, ◌&&◌, true, length, codes, nat_eq};
ghost use Rattle.std.specs.Char.{is_ascii_digit};
ghost use Rattle.std.specs.List.{list_all, starts_with, ends_with};
ghost use Rattle.std.specs.Str.{bytes_eq};
ghost use Rattle.tm_fields.specs.Reading.{is_array, type_named};
ghost use Rattle.tm_fields.specs.Values.{digits_number, is_blank, number_named, trimmed};

use crate::field::DataType;

fn is_space_or_tab(octet: u8) -> bool
    ensures { result ≡ is_blank octet }
{
    octet == b' ' || octet == b'\t'
}

/// A value without the spaces and tabs at its ends.
#[tactic(auto, using(crate::proofs::Trim::back_more, crate::proofs::Trim::back_stays))]
pub(crate) fn trim(value: &[u8]) -> &[u8]
    ensures { result.now ≡ trimmed value.now }
{
    let mut rest = value;
    while let [first, more @ ..] = rest
        && is_space_or_tab(*first)
    {
        rest = more;
    }
    while let [more @ .., last] = rest
        && is_space_or_tab(*last)
    {
        rest = more;
    }
    rest
}

/// The two are the same octets.
pub(crate) fn is_text(value: &[u8], word: &[u8]) -> bool
    ensures { result ≡ bytes_eq value.now word.now }
{
    value == word
}

/// The type of this name.
pub(crate) fn data_type_named(word: &[u8]) -> Option<DataType>
    ensures { result ≡ type_named word.now }
{
    if is_text(word, b"uint") {
        Some(DataType::Uint)
    } else if is_text(word, b"int") {
        Some(DataType::Int)
    } else if is_text(word, b"float") {
        Some(DataType::Float)
    } else if is_text(word, b"str") {
        Some(DataType::Str)
    } else if is_text(word, b"fill") {
        Some(DataType::Fill)
    } else {
        None
    }
}

// The text begins so, and ends with a closing bracket.
fn is_bracketed(text: &[u8], start: &[u8]) -> bool
    requires { length start.now < 2 ^ 32 }
    ensures { result ≡ starts_with nat_eq text.now start.now && ends_with nat_eq text.now (codes ")") }
{
    text.starts_with(start) && text.ends_with(b")")
}

/// The text is a type's name and brackets.
pub(crate) fn is_array_text(text: &[u8]) -> bool
    ensures { result ≡ is_array text.now }
{
    is_bracketed(text, b"uint(")
        || is_bracketed(text, b"int(")
        || is_bracketed(text, b"float(")
        || is_bracketed(text, b"str(")
        || is_bracketed(text, b"fill(")
}

// The number that at most nine digits spell.
#[tactic(auto, using(std::proofs::lemmas::Grind::common_steps, crate::proofs::Digits::digit_at, crate::proofs::Digits::digits_number_at, crate::proofs::NumberLemmas::power_most))]
fn digits_value(text: &[u8]) -> u32
    requires few { length text.now ≤ 9 }
    requires digits { list_all is_ascii_digit text.now ≡ true }
    ensures { result ≡ digits_number text.now }
{
    let mut all = 0u32;
    for digit in text {
        all = 10 * all + u32::from(*digit - b'0');
    }
    all
}

fn are_digits(text: &[u8]) -> bool
    ensures { result ≡ list_all is_ascii_digit text.now }
{
    text.iter().all(|octet| octet.is_ascii_digit())
}

/// The number of one to nine digits.
pub(crate) fn number_in(text: &[u8]) -> Option<u32>
    ensures { result ≡ number_named text.now }
{
    if 1 <= text.len() && text.len() <= 9 && are_digits(text) {
        Some(digits_value(text))
    } else {
        None
    }
}
