//! Packet headers: six octets, the most significant bit of each first (CCSDS 133.0-B-2, section 4.1.3).

ghost use Rattle.std.specs.Prelude.{◌≡◌, ◌+◌, ◌-◌, ◌*◌, ◌/◌, ◌%◌, ◌^◌, ◌<◌, ◌≤◌, [], ◌∷◌, length, slice_index, Ok};
ghost use Rattle.tm_bits.specs.Bits.{bits_of, part};
ghost use Rattle.tm_packet.specs.Header.{packet_version_of, header_reading_of, header_bits};

use std::marker::Model;
use tm_bits::two_at;

/// The sequence flags: where in a group of packets a packet stands (section 4.1.3.4.2).
#[derive(Clone, Copy, Debug, PartialEq, Eq)]
pub enum Flags {
    /// `00`: it goes on with the group before it.
    Continuation,
    /// `01`: it begins a group.
    First,
    /// `10`: it ends a group.
    Last,
    /// `11`: it is in no group.
    Unsegmented,
}

impl Flags {
    ghost use Rattle.tm_packet.specs.Header.{flags_of, flags_number};

    // The flags of these two bits.
    fn of(bits: u16) -> Flags
        requires { bits < 4 }
        ensures { result ≡ flags_of bits }
    {
        match bits {
            0 => Flags::Continuation,
            1 => Flags::First,
            2 => Flags::Last,
            _ => Flags::Unsegmented,
        }
    }

    // The two bits of the flags.
    fn number(self) -> u16
        ensures value { result ≡ flags_number self }
        ensures below { result < 4 }
    {
        match self {
            Flags::Continuation => 0,
            Flags::First => 1,
            Flags::Last => 2,
            Flags::Unsegmented => 3,
        }
    }
}

/// Why octets are no packet header.
#[derive(Clone, Copy, Debug, PartialEq, Eq)]
pub enum PacketFault {
    /// There are fewer than six octets.
    Short,
    /// The version is not 0.
    Version,
}

/// The header of a packet of version 0, its numbers within their bits.
#[derive(Clone, Copy, Debug, PartialEq, Eq)]
pub struct Header {
    // Its three words: the packet's identification, its sequence control, and the octets of its data field less one.
    identification: u16,
    sequence: u16,
    data_length: u16,
}

impl Model for Header {
    ghost use Rattle.tm_packet.specs.Header.{Fields};
    ghost use Rattle.tm_packet.specs.code.Headers.{AreWords, header_fields, header_words};

    ghost Value = { Fields };

    ghost view = { header_fields };

    ghost invariant = { AreWords };

    ghost inverse = { header_words };

    ghost inverse_ok = { λ h are. are.back };
}

impl Header {
    ghost use Rattle.tm_packet.specs.Header.{Fields, made_of};
    ghost use Rattle.tm_packet.specs.Merge as sequence;

    /// The header of these parts: `None` if and only if the application is over 2047 or the count over 16383.
    #[tactic(auto, using(crate::proofs::WordLemmas::words))]
    pub fn new(
        telecommand: bool,
        secondary: bool,
        application: u16,
        flags: Flags,
        count: u16,
        data_length: u16,
    ) -> Option<Header>
        ensures { result ≡ made_of (record {
          telecommand = telecommand;
          secondary = secondary;
          application = application;
          flags = flags;
          count = count;
          data_length = data_length;
        }) }
    {
        if application > 2047 || count > 16383 {
            return None;
        }
        let kind = u16::from(telecommand) * 2 + u16::from(secondary);
        Some(Header {
            identification: kind * 2048 + application,
            sequence: flags.number() * 16384 + count,
            data_length,
        })
    }

    /// The packet type: telecommand, else telemetry.
    pub fn telecommand(&self) -> bool
        ensures { result ≡ self.now.telecommand }
    {
        self.identification / 4096 == 1
    }

    /// There is a secondary header.
    pub fn secondary(&self) -> bool
        ensures { result ≡ self.now.secondary }
    {
        self.identification / 2048 % 2 == 1
    }

    /// The application process identifier, at most 2047, which is that of idle packets.
    pub fn application(&self) -> u16
        ensures value { result ≡ self.now.application }
        ensures below { result < 2048 }
    {
        self.identification % 2048
    }

    /// The sequence flags.
    pub fn flags(&self) -> Flags
        ensures { result ≡ self.now.flags }
    {
        Flags::of(self.sequence / 16384)
    }

    /// The sequence count, at most 16383.
    pub fn count(&self) -> u16
        ensures value { result ≡ self.now.count }
        ensures below { result < 16384 }
    {
        self.sequence % 16384
    }

    /// The octets of the data field less one.
    pub fn data_length(&self) -> u16
        ensures { result ≡ self.now.data_length }
    {
        self.data_length
    }

    /// The octets of the packet, its header included: 7 to 65,542.
    pub fn length(&self) -> u32
        ensures { result ≡ self.now.data_length + 7 }
    {
        u32::from(self.data_length) + 7
    }

    /// An idle packet, of application 2047: it has no sequence.
    pub fn is_idle(&self) -> bool
        ensures { result ≡ sequence.is_idle self.now }
    {
        self.application() == 2047
    }
}

/// The version of the packet that begins with this octet: its first three bits.
#[tactic(auto, using(crate::proofs::HeaderLemmas::version_front))]
pub fn packet_version(first: u8) -> u8
    ensures value { result ≡ packet_version_of (first ∷ []) }
    ensures below { result < 8 }
{
    first >> 5
}

/// Reads the header in the first six octets. Those after the sixth are ignored.
///
/// # Errors
///
/// `Short` where there are fewer than six octets; else `Version` where the version is not 0.
#[tactic(auto, using(crate::proofs::HeaderLemmas::readings))]
pub fn read_header(octets: &[u8]) -> Result<Header, PacketFault>
    ensures { result ≡ header_reading_of octets.now }
{
    if octets.len() < 6 {
        return Err(PacketFault::Short);
    }
    let identification = two_at(octets, 0);
    if identification / 8192 != 0 {
        return Err(PacketFault::Version);
    }
    Ok(Header {
        identification,
        sequence: two_at(octets, 2),
        data_length: two_at(octets, 4),
    })
}

/// Writes a header as six octets.
pub fn write_header(header: Header) -> [u8; 6]
    ensures bits { bits_of result ≡ header_bits header }
    ensures read_back { header_reading_of result ≡ Ok header }
{
    let [a, b] = header.identification.to_be_bytes();
    let [c, d] = header.sequence.to_be_bytes();
    let [e, f] = header.data_length.to_be_bytes();
    [a, b, c, d, e, f]
}
