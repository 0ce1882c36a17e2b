//! Records that give as much as one record can.

use crate::refusing::Refused;
use crate::runs::{octets_of, settings_of};
use std::alloc::Global;
use tm_reassembly::{Item, Reassembly, Sink};

/// A sink that counts events, and the octets of packets. A packet is four events, and any other item is one.
#[derive(Drop)]
struct Counted {
    events: usize,
    octets: usize,
}

impl Sink for Counted {
    type Fault = Refused;

    ghost Known = { Unit {0} };

    ghost known = { λ _. tt };

    ghost takes = { λ old item new. Unit {0} };

    ghost refuses = { λ old item fault new. Unit {0} };

    fn take(&mut self, item: Item<'_>) -> Result<(), Refused> {
        match item {
            Item::Packet { octets, .. } => {
                self.events = self.events.saturating_add(4);
                self.octets = self.octets.saturating_add(octets.len());
            }
            _ => self.events = self.events.saturating_add(1),
        }
        Ok(())
    }
}

const SETTINGS: &str =
    "spacecraft = 42\nframe_length = 2048\nerror_control = false\nmax_packet = 2043\n";

// All but the last octet of a packet of 2043 octets.
const BEGUN: &str = "02A000001800 0064C00007F4 55*2036";

// After a gap of the master channel: the last octet, 291 packets of 7 octets, and 4 octets that are unread.
const MOST_EVENTS: &str = "02A002011801 55 00*2037 E0*4";

// The last octet, 290 packets of 7 octets, and one of 11.
const MOST_OCTETS: &str = "02A001011801 55 00*2030 000000000004 55*5";

// The events of a record after the packet was begun, and the octets of its packets.
fn given_with(alloc: Global, record: &str) -> Option<(usize, usize)> {
    let settings = settings_of(alloc, SETTINGS)?;
    let layout = settings.layout();
    let limit = settings.max_packet();
    let mut reassembly = Reassembly::new(alloc, layout, settings.channels(), limit).ok()?;
    let mut given = Counted {
        events: 0,
        octets: 0,
    };
    for text in [BEGUN, record] {
        let octets = octets_of(alloc, text)?;
        if octets.len() != reassembly.layout().record_length() {
            return None;
        }
        reassembly.step(&octets, &mut given).ok()?;
    }
    Some((given.events, given.octets))
}

#[test]
fn most_of_one_record(rt: HostRuntime) {
    // guards: what-one-record-gives-at-most
    assert!(rt; given_with(rt.alloc(), MOST_EVENTS) == Some((1170, 4080)));
    assert!(rt; given_with(rt.alloc(), MOST_OCTETS) == Some((1168, 2043 + 2041)));
}
