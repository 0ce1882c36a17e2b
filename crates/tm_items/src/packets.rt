//! Packets, by their headers.

ghost use Rattle.std.specs.Prelude.{◌≡◌, ◌≤◌, true};
ghost use Rattle.tm_items.specs.OnePacket as one_packet;
ghost use Rattle.tm_items.specs.Fronts.{front_header};

use tm_packet::{Header, read_header};

/// How many octets the packet at the front has, by its header; 7, the fewest, where the header is not there yet.
#[tactic(auto, using(crate::proofs::Headers::packet_length_read, crate::proofs::Headers::packet_length_unread))]
pub fn packet_length(octets: &[u8]) -> usize
    requires { one_packet.is_packet octets.now ≡ true }
    ensures value { result ≡ one_packet.packet_length octets.now }
    ensures most { result ≤ 65542 }
{
    match read_header(octets) {
        Ok(header) => header.length() as usize,
        Err(_) => 7,
    }
}

/// The header of the packet at the front, if it is of version 0, has at most `limit` octets, and lies whole in these octets.
#[inline(always)]
pub fn whole_packet(limit: usize, octets: &[u8]) -> Option<Header>
    ensures { result ≡ front_header limit octets.now }
{
    match read_header(octets) {
        Ok(header) => {
            let length = header.length() as usize;
            if limit < length || octets.len() < length {
                return None;
            }
            Some(header)
        }
        Err(_) => None,
    }
}
