//! Sinks that refuse an item. A reassembly has given them the items before it, and goes on no more.

use crate::runs::{Row, octets_of, rows, settings_of};
use std::alloc::{AllocError, Global};
use std::process::Abort;
use tm_reassembly::{Item, Reassembly, Sink, StepFault};

/// A sink that wants these items and the octets of these packets, one after the other. It refuses the item at `refuses`.
#[derive(Drop)]
pub(crate) struct Expected<'w> {
    pub(crate) alloc: Global,
    pub(crate) items: &'w [u8],
    pub(crate) octets: &'w [u8],
    pub(crate) accepted: usize,
    pub(crate) refuses: usize,
}

#[derive(Clone, Copy, Debug, PartialEq, Eq)]
pub(crate) enum Refused {
    AsAsked,
    // It is another item than the one that is wanted.
    Other,
}

// A line of a row: a name, numbers, and perhaps a word.
fn line_of(alloc: Global, name: &str, numbers: &[u64], word: &str) -> Result<String, AllocError> {
    let mut line = String::from_str(alloc, name)?;
    for number in numbers {
        let digits = format!(in alloc; " {number}")?;
        line.push_str(&digits)?;
    }
    if !word.is_empty() {
        line.push_str(" ")?;
    }
    line.push_str(word)?;
    line.push_str("\n")?;
    Ok(line)
}

// The place of a packet or of a lost part in the recording, and how many octets it has.
fn identity_of(seen: u32, channel: u8, first: u32, place: u16, octets: u64) -> [u64; 5] {
    [
        u64::from(seen),
        u64::from(channel),
        u64::from(first),
        u64::from(place),
        octets,
    ]
}

// A gap of counts.
fn gap_of(seen: u32, expected: u8, found: u8, missing: u8) -> [u64; 4] {
    [
        u64::from(seen),
        u64::from(expected),
        u64::from(found),
        u64::from(missing),
    ]
}

// An item, in the words of a row.
fn words_of(alloc: Global, item: Item<'_>) -> Result<String, AllocError> {
    match item {
        Item::Bad { seen, fault } => line_of(alloc, "bad", &[u64::from(seen)], fault.word()),
        Item::MasterGap {
            seen,
            expected,
            found,
            missing,
        } => line_of(
            alloc,
            "mastergap",
            &gap_of(seen, expected, found, missing),
            "",
        ),
        Item::Gap {
            seen,
            channel,
            expected,
            found,
            missing,
        } => {
            let [seen, expected, found, missing] = gap_of(seen, expected, found, missing);
            let numbers = [seen, u64::from(channel), expected, found, missing];
            line_of(alloc, "gap", &numbers, "")
        }
        Item::Vca { seen, channel } => {
            line_of(alloc, "vca", &[u64::from(seen), u64::from(channel)], "")
        }
        Item::Dropped {
            seen,
            channel,
            first,
            place,
            octets,
            reason,
        } => {
            let numbers = identity_of(seen, channel, first, place, u64::from(octets));
            line_of(alloc, "drop", &numbers, reason.word())
        }
        Item::Packet {
            seen,
            channel,
            first,
            place,
            octets,
        } => {
            let numbers = identity_of(seen, channel, first, place, octets.len() as u64);
            line_of(alloc, "packet", &numbers, "")
        }
        Item::Short { seen, octets } => {
            line_of(alloc, "short", &[u64::from(seen), u64::from(octets)], "")
        }
    }
}

impl Sink for Expected<'_> {
    type Fault = Refused;

    ghost Known = { Unit {0} };

    ghost known = { λ _. tt };

    ghost takes = { λ old item new. Unit {0} };

    ghost refuses = { λ old item fault new. Unit {0} };

    fn take(&mut self, item: Item<'_>) -> Result<(), Refused> {
        if self.accepted == self.refuses {
            return Err(Refused::AsAsked);
        }
        let Ok(words) = words_of(self.alloc, item) else {
            return Err(Refused::Other);
        };
        let Some(items) = self.items.strip_prefix(words.as_bytes()) else {
            return Err(Refused::Other);
        };
        if let Item::Packet { octets, .. } = item {
            let Some(rest) = self.octets.strip_prefix(octets) else {
                return Err(Refused::Other);
            };
            self.octets = rest;
        }
        self.items = items;
        self.accepted = self.accepted.saturating_add(1);
        Ok(())
    }
}

/// What a step or the end answers.
pub(crate) type StepAnswer = Result<(), StepFault<Refused>>;

/// Steps over a record, if it is one.
pub(crate) fn step(
    reassembly: &mut Reassembly,
    record: &[u8],
    sink: &mut Expected<'_>,
) -> StepAnswer {
    if record.len() != reassembly.layout().record_length() {
        return Err(StepFault::Sink(Refused::Other));
    }
    reassembly.step(record, sink)
}

/// Finishes, with a rest of less than a record.
pub(crate) fn finish(reassembly: Reassembly, rest: usize, sink: &mut Expected<'_>) -> StepAnswer {
    if rest >= reassembly.layout().record_length() {
        return Err(StepFault::Sink(Refused::Other));
    }
    reassembly.finish(rest, sink)
}

const AS_ASKED: StepAnswer = Err(StepFault::Sink(Refused::AsAsked));

// Steps through the records up to one at which the sink refuses. Whether it does, the number of records stays then, and a further step fails.
fn is_refused(
    reassembly: &mut Reassembly,
    recording: &[u8],
    sink: &mut Expected<'_>,
) -> Option<bool> {
    for record in recording.chunks_exact(reassembly.layout().record_length()) {
        let records = reassembly.records();
        let answer = step(reassembly, record, sink);
        if answer == AS_ASKED {
            let has_failed = reassembly.failed() && reassembly.records() == records;
            let again = step(reassembly, record, sink);
            return (has_failed && again == Err(StepFault::Failed)).then_some(true);
        }
        answer.ok()?;
    }
    Some(false)
}

// Steps through the records, and finishes, up to the item that the sink refuses, if there is one. Only the first call is refused by the
// sink, and each further one since it was.
fn runs_into(alloc: Global, row: &Row, sink: &mut Expected<'_>, is_asked: bool) -> Option<bool> {
    let settings = settings_of(alloc, row.settings)?;
    let layout = settings.layout();
    let limit = settings.max_packet();
    let mut reassembly = Reassembly::new(alloc, layout, settings.channels(), limit).ok()?;
    let recording = octets_of(alloc, row.recording)?;
    let refused = is_refused(&mut reassembly, &recording, sink)?;
    let rest = recording.len() % layout.record_length();
    let wanted = match (refused, is_asked) {
        (true, _) => Err(StepFault::Failed),
        (false, true) => AS_ASKED,
        (false, false) => Ok(()),
    };
    Some(finish(reassembly, rest, sink) == wanted && (is_asked || !refused))
}

// The item of this number is refused: those before it are taken, and no other.
fn is_cut_at(alloc: Global, row: &Row, refuses: usize, is_asked: bool) -> Option<bool> {
    let octets = octets_of(alloc, row.octets)?;
    let mut sink = Expected {
        alloc,
        items: row.items.as_bytes(),
        octets: &octets,
        accepted: 0,
        refuses,
    };
    let is_right = runs_into(alloc, row, &mut sink, is_asked)?;
    Some(is_right && sink.accepted == refuses)
}

// Each item of a row is refused in turn, up to the row's end without a refusal.
fn row_refused(rt: &impl Abort, alloc: Global, row: &Row) {
    let count = row.items.lines().count();
    for refuses in 0..count.saturating_add(1) {
        assert!(rt;
            is_cut_at(alloc, row, refuses, refuses < count) == Some(true),
            "{}, item {refuses}",
            row.name
        );
    }
}

#[test]
fn each_item_refused(rt: HostRuntime) {
    // guards: refusals-and-the-closed-end
    for row in rows() {
        row_refused(&rt, rt.alloc(), row);
    }
}
