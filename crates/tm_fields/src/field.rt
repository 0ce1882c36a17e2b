//! What a definition says of one field.

ghost use Rattle.std.specs.Prelude.{◌≡◌, ◌≤◌, true};
ghost use Rattle.tm_fields.specs.Binary.{value_length, number_length};
ghost use Rattle.tm_fields.specs.Reading.{is_sound};

use tm_bits::Octets;

/// How the bits of a field are read and printed. The most significant bit comes first.
#[derive(Clone, Copy, Debug, PartialEq, Eq)]
pub enum DataType {
    /// A number of 1 to 64 bits.
    Uint,
    /// A number of 1 to 64 bits in two's complement.
    Int,
    /// 16, 32 or 64 bits, printed as raw digits.
    Float,
    /// Whole octets, printed as text.
    Str,
    /// Bits that are passed over: the field has no column.
    Fill,
}

/// The end of the longest packet, one of 65,542 octets, in bits.
pub(crate) const GREATEST_END: u32 = 524336;

impl DataType {
    ghost use Rattle.tm_fields.specs.Reading.{has_length, is_shown};

    /// A field of the type may have this many bits.
    pub(crate) fn may_have(self, bits: u32) -> bool
        ensures { result ≡ has_length self bits }
    {
        match self {
            DataType::Uint | DataType::Int => 1 <= bits && bits <= 64,
            DataType::Float => bits == 16 || bits == 32 || bits == 64,
            DataType::Str => 8 <= bits && bits <= GREATEST_END && bits % 8 == 0,
            DataType::Fill => 1 <= bits && bits <= GREATEST_END,
        }
    }

    /// A field of the type has a column.
    pub(crate) fn has_column(self) -> bool
        ensures { result ≡ is_shown self }
    {
        self != DataType::Fill
    }
}

/// A field: its name, and which bits of a packet it has.
#[derive(Debug, Drop)]
pub struct Field {
    /// The name, without the spaces and tabs around it.
    pub name: Octets,
    /// How its bits are read and printed.
    pub data_type: DataType,
    /// The first of its bits, counted from the first bit of the packet.
    pub begin: u32,
    /// How many bits it has.
    pub length: u32,
}

/// The fewest of 1, 2, 4 and 8 octets that hold `bits` bits.
#[inline(always)]
pub(crate) fn number_length(bits: u32) -> u32
    ensures octets { result ≡ number_length bits }
    ensures bound { result ≤ 8 }
{
    match bits {
        0..=8 => 1,
        9..=16 => 2,
        17..=32 => 4,
        _ => 8,
    }
}

impl Field {
    /// How many octets it has in a row of octets.
    pub(crate) fn octets(&self) -> u32
        requires { is_sound self.now ≡ true }
        ensures octets { result ≡ value_length self.now }
        ensures bound { result ≤ 65542 }
    {
        match self.data_type {
            DataType::Uint | DataType::Int => number_length(self.length),
            DataType::Float | DataType::Str => self.length / 8,
            DataType::Fill => 0,
        }
    }
}
