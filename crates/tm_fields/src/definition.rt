//! A whole definition, and the head and rows that it gives.

ghost use Rattle.std.specs.Prelude.{◌≡◌, ◌≢◌, ◌<◌, ◌≤◌, ◌+◌, ◌++◌, [], Ok, Err, true, length, List, IfOk, IfErr, IsOk, OnErr, OnOk, map, vec_capacity, vec_len};
ghost use Rattle.std.specs.List.{list_all};
ghost use Rattle.csv.specs.Records.{fields_of};
ghost use Rattle.tm_fields.specs.Numbers.{bits_in};
ghost use Rattle.tm_fields.specs.Reading.{definition_of, fields_from, fields_in, is_sound};
ghost use Rattle.tm_fields.specs.Binary.{row_length, row_octets};
ghost use Rattle.tm_fields.specs.Rows.{IsRow, RefusesRow, RefusesShort, bits_needed, head_of, row_of};
ghost use Rattle.tm_fields.specs.declared.field.Field.{Field};
ghost use Rattle.tm_fields.specs.declared.rows.RowForm.TheVariants.{Text, Binary};

use crate::binary::{row_lead, write_value_octets};
use crate::cells::Cells;
use crate::columns::{Columns, find_columns};
use crate::faults::RowFault;
use crate::field::Field;
use crate::lead::{Lead, push_lead, write_lead_names};
use crate::line::{begin, end, into_text};
use crate::reading::read_field;
use crate::table::read_table;
use crate::values::{push_field_value, write_field_name};
use csv::ByteRecord;
use std::alloc::{AllocError, Global};
use std::collections::BTreeSet;
use std::marker::Model;
use tm_faults::{Column, DefinitionFault, NoMemory};

/// The fields that packets are read by, at most 1000.
#[derive(Drop)]
pub struct Definition {
    fields: Vec<Field>,
    // The greatest end of a field.
    needed: u32,
    // How many octets a row has in the binary form.
    length: u32,
}

impl Model for Definition {
    ghost Value = { List Field };

    ghost view = { λ d. d.fields.items };

    ghost invariant = { λ d. (list_all is_sound d.fields.items ≡ true) × (d.needed ≡ bits_needed d.fields.items) × (d.length ≡ row_length d.fields.items) };
}

// How many octets a row of these fields has in the binary form.
fn row_length(fields: &[Field]) -> u32
    requires sound { list_all is_sound fields.now ≡ true }
    requires few { length fields.now ≤ 1000 }
    ensures { result ≡ row_length fields.now }
{
    let mut length = 16u32;
    for field in fields {
        length += field.octets();
    }
    length
}

// The fields of the records under a heading.
fn read_fields(
    alloc: Global,
    columns: &Columns,
    records: &[ByteRecord],
) -> Result<Definition, DefinitionFault>
    requires { length records.now ≤ 1000 }
    ensures ok { IfOk result (λ d. fields_from columns.now [] (map fields_of records.now) ≡ Ok d) }
    ensures refused { IfErr result (λ f. f ≢ DefinitionFault.NoMemory
        → fields_from columns.now [] (map fields_of records.now) ≡ Err f) }
{
    let mut fields = Vec::new(alloc);
    let mut names = BTreeSet::new(alloc);
    // The bit after the last field: the first begins after the packet's header.
    let mut before = 48u32;
    let mut needed = 0u32;
    for values in records {
        let field = read_field(
            alloc,
            columns,
            values,
            fields.as_slice(),
            &mut names,
            before,
        )?;
        before = field.begin + field.length;
        needed = needed.max(before);
        if fields.push(field).is_err() {
            return Err(DefinitionFault::NoMemory);
        }
    }
    let length = row_length(fields.as_slice());
    Ok(Definition {
        fields,
        needed,
        length,
    })
}

// The definition of a table.
fn read_records(alloc: Global, table: &[ByteRecord]) -> Result<Definition, DefinitionFault>
    ensures ok { IfOk result (λ d. fields_in (map fields_of table.now) ≡ Ok d) }
    ensures refused { IfErr result (λ f. f ≢ DefinitionFault.NoMemory → fields_in (map fields_of table.now) ≡ Err f) }
{
    let [headings, records @ ..] = table else {
        return Err(DefinitionFault::Column(Column::Name));
    };
    let columns = find_columns(headings)?;
    if records.len() > 1000 {
        return Err(DefinitionFault::TooMany);
    }
    read_fields(alloc, &columns, records)
}

impl Definition {
    /// Reads a definition: a text of comma-separated values whose first record has the headings `name`, `data_type`, `bit_length`
    /// and perhaps `bit_offset`, each further record being a field. Spaces and tabs around a value are taken off, and other
    /// columns are ignored. A field without an offset begins where the one before it ends, and the first after the packet's
    /// header.
    ///
    /// # Errors
    ///
    /// What is wrong first, in this order. `Csv` where two records have different numbers of values. `Column` for the first column
    /// that has no heading or more than one. `TooMany` where there are more than 1000 records after the heading. Then record by
    /// record, numbered from 1, the first of `Array` or `Kind`, `Bits`, `Offset` and `Name` that applies. `NoMemory` where memory
    /// runs out before.
    pub fn read(alloc: Global, text: &[u8]) -> Result<Definition, DefinitionFault>
        ensures ok { IfOk result (λ d. definition_of text.now ≡ Ok d) }
        ensures refused { IfErr result (λ f. f ≢ DefinitionFault.NoMemory → definition_of text.now ≡ Err f) }
    {
        let table = read_table(alloc, text)?;
        read_records(alloc, table.as_slice())
    }

    /// How many bits a packet must have: the greatest end of a field of any type, 0 without fields.
    pub fn bits_needed(&self) -> u32
        ensures { result ≡ bits_needed self.now }
    {
        self.needed
    }

    /// How many octets each row has in the binary form: the 16 of the lead, and those of all fields but those of type `fill`.
    pub fn row_length(&self) -> u32
        ensures { result ≡ row_length self.now }
    {
        self.length
    }

    /// The head of the rows, a line of comma-separated values: `tm_record`, `tm_channel`, `tm_apid`, `tm_count`, and the names of
    /// all fields but those of type `fill`, in their order.
    ///
    /// # Errors
    ///
    /// `NoMemory` where memory runs out.
    pub fn head(&self, alloc: Global) -> Result<Vec<u8>, NoMemory>
        ensures { IfOk result (λ text. text.items ≡ head_of self.now) }
    {
        let mut writer = begin(alloc);
        write_lead_names(&mut writer)?;
        for field in &self.fields {
            write_field_name(&mut writer, field)?;
        }
        end(&mut writer)?;
        Ok(into_text(writer)?)
    }

    /// A packet must have all bits that are needed.
    pub(crate) fn check_length(&self, packet: &[u8]) -> Result<(), RowFault>
        ensures long { OnOk result (bits_needed self.now ≤ bits_in packet.now) }
        ensures short { IfErr result (λ f. (bits_in packet.now < bits_needed self.now)
            × (f ≡ RowFault.ShortPacket (bits_needed self.now) (bits_in packet.now))) }
    {
        let needed = self.bits_needed();
        if packet.len() < needed.div_ceil(8) as usize {
            return Err(RowFault::ShortPacket {
                needed: u64::from(needed),
                found: 8 * packet.len() as u64,
            });
        }
        Ok(())
    }

    /// Writes the row of a packet that is long enough at the end of a text.
    #[tactic(auto, using(crate::proofs::RowLemmas::fits_needed))]
    pub(crate) fn push_row(
        &self,
        row: &mut Vec<u8>,
        cells: &mut Cells,
        lead: Lead,
        packet: &[u8],
    ) -> Result<(), AllocError>
        requires { bits_needed self.now ≤ bits_in packet.now }
        ensures { OnOk result (row.new.items ≡ row.old.items ++ row_of self.now lead packet.now) }
    {
        push_lead(row, lead)?;
        for field in &self.fields {
            push_field_value(row, cells, field, packet)?;
        }
        row.push(b'\n')?;
        Ok(())
    }

    // Writes the row of a packet that is long enough in the binary form over octets that are as many.
    #[tactic(auto, using(crate::proofs::RowLemmas::fits_needed))]
    fn fill_binary_row(&self, row: &mut [u8], lead: Lead, packet: &[u8])
        requires long { bits_needed self.now ≤ bits_in packet.now }
        requires length { length row.old ≡ row_length self.now }
        ensures { row.new ≡ row_octets self.now lead packet.now }
    {
        row[..16].copy_from_slice(&row_lead(lead));
        let mut place = 16;
        for field in &self.fields {
            place = write_value_octets(row, place, field, packet);
        }
    }

    /// Writes the row of a packet in the binary form in place of another. Where there is memory for a row, it takes none.
    ///
    /// # Errors
    ///
    /// `ShortPacket` where the packet has fewer bits than are needed, whatever memory there is; else `NoMemory` where memory runs
    /// out.
    pub fn write_binary_row(
        &self,
        row: &mut Vec<u8>,
        lead: Lead,
        packet: &[u8],
    ) -> Result<(), RowFault>
        ensures ok { OnOk result (IsRow Binary self.now lead packet.now row.new.items) }
        ensures none { OnErr result (row.new.items ≡ []) }
        ensures refused { IfErr result (RefusesRow Binary self.now lead packet.now) }
        ensures short { RefusesShort self.now packet.now result }
        ensures kept { vec_capacity row.old ≤ vec_capacity row.new }
        ensures enough { row_length self.now ≤ vec_capacity row.old → IfErr result (λ f. f ≢ RowFault.NoMemory) }
        ensures memory { OnOk result (row_length self.now ≤ vec_capacity row.new) }
    {
        if let Err(fault) = self.check_length(packet) {
            row.clear();
            return Err(fault);
        }
        if row.resize(self.length as usize, 0).is_err() {
            row.clear();
            return Err(RowFault::NoMemory);
        }
        self.fill_binary_row(row.as_mut_slice(), lead, packet);
        Ok(())
    }

    /// The row of a packet, a line of comma-separated values: the lead's numbers, and the values of all fields but those of type
    /// `fill`. Octets of the packet after the last field are passed over. `Rows` makes many rows in less time.
    ///
    /// # Errors
    ///
    /// `ShortPacket` where the packet has fewer bits than are needed, whatever memory there is; else `NoMemory` where memory runs
    /// out.
    pub fn row(&self, alloc: Global, lead: Lead, packet: &[u8]) -> Result<Vec<u8>, RowFault>
        ensures ok { IfOk result (λ text. IsRow Text self.now lead packet.now text.items) }
        ensures refused { IfErr result (RefusesRow Text self.now lead packet.now) }
        ensures short { RefusesShort self.now packet.now result }
    {
        if let Err(fault) = self.check_length(packet) {
            return Err(fault);
        }
        let mut row = Vec::new(alloc);
        self.push_row(&mut row, &mut Cells::new(alloc), lead, packet)?;
        Ok(row)
    }
}
