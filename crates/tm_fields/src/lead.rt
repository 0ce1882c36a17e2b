//! What every head and every row begins with.

ghost use Rattle.std.specs.Prelude.{◌≡◌, ◌+◌, ◌<◌, ◌≤◌, ◌∷◌, ◌++◌, [], ℕ, List, OnOk, drop};
ghost use Rattle.std.specs.Fmt.{decimal};
ghost use Rattle.csv.specs.Writing.{default_writer, row_body};
ghost use Rattle.tm_fields.specs.code.Line.{HasValues};
ghost use Rattle.tm_fields.specs.Rows.{lead_names, lead_texts};

use crate::line::write_value;
use csv::Writer;
use itoa::write_digits;
use std::alloc::AllocError;
use std::io::Write;

/// What a row tells of its packet before the fields.
#[derive(Clone, Copy, Debug, PartialEq, Eq)]
pub struct Lead {
    /// The number of the record in which the packet ended.
    pub seen: u32,
    /// The virtual channel.
    pub channel: u8,
    /// The application process identifier.
    pub application: u16,
    /// The sequence count.
    pub count: u16,
}

/// Writes the names that a head begins with.
pub(crate) fn write_lead_names<W: Write + Drop>(writer: &mut Writer<W>) -> Result<(), AllocError>
    ensures { OnOk result ((lines : List ℕ) → HasValues W.contents writer.old lines []
        → HasValues W.contents writer.new lines lead_names) }
{
    write_value(writer, b"tm_record")?;
    write_value(writer, b"tm_channel")?;
    write_value(writer, b"tm_apid")?;
    write_value(writer, b"tm_count")?;
    Ok(())
}

// Four numbers of ten digits and the three commas between them have this many octets.
const LEAD_ROOM: usize = 43;

// Puts a comma and a number before what stands in a room from `end` on, and answers where the comma stands.
#[inline(always)]
#[tactic(auto, using(crate::proofs::PlainLemmas::ten_digits, std::proofs::lemmas::Grind::common_steps))]
fn prepend_uint(room: &mut [u8; LEAD_ROOM], end: usize, number: u32) -> usize
    requires room { 11 ≤ end }
    requires inside { end ≤ 43 }
    ensures few { end ≤ result + 11 }
    ensures before { result < end }
    ensures text { drop result room.new ≡ 44 ∷ (decimal number ++ drop end room.old) }
{
    let begin = write_digits(u64::from(number), room, end) - 1;
    room[begin] = b',';
    begin
}

/// Writes the numbers that a row begins with at the end of a text. They are made in an array, so the text grows once.
#[tactic(auto, using(std::proofs::lemmas::Grind::common_steps, crate::proofs::PlainLemmas::lead_rules))]
pub(crate) fn push_lead(row: &mut Vec<u8>, lead: Lead) -> Result<(), AllocError>
    ensures { OnOk result (row.new.items ≡ row.old.items ++ row_body default_writer (lead_texts lead)) }
{
    let mut room = [0; LEAD_ROOM];
    let count = prepend_uint(&mut room, LEAD_ROOM, u32::from(lead.count));
    let application = prepend_uint(&mut room, count, u32::from(lead.application));
    let channel = prepend_uint(&mut room, application, u32::from(lead.channel));
    let seen = write_digits(u64::from(lead.seen), &mut room, channel);
    row.extend_from_slice(&room[seen..])
}
