//! The rows of a definition, written one after another.

ghost use Rattle.std.specs.Prelude.{◌≡◌, ◌≢◌, [], ℕ, List, IfErr, OnErr, OnOk};
ghost use Rattle.tm_fields.specs.Rows.{IsRow, RefusesRow, RefusesShort, bits_needed};
ghost use Rattle.tm_fields.specs.declared.faults.RowFault.TheVariants.{NoMemory};
ghost use Rattle.tm_fields.specs.declared.field.Field.{Field};
ghost use Rattle.tm_fields.specs.declared.rows.RowForm.{RowForm};
ghost use Rattle.tm_fields.specs.declared.rows.RowForm.TheVariants.{Text, Binary};

use crate::cells::Cells;
use crate::definition::Definition;
use crate::faults::RowFault;
use crate::lead::Lead;
use std::alloc::Global;
use std::marker::Model;

/// How rows are written.
#[derive(Clone, Copy, Debug, PartialEq, Eq)]
pub enum RowForm {
    /// Each is a line of comma-separated values.
    Text,
    /// Each has the octets of its values, as many as `Definition::row_length` says, and nothing between rows. First come 16 octets
    /// for the lead: the record in four, the application and the count in two each, the channel in one, and seven zeros. Then come
    /// all fields but those of type `fill`: `uint` and `int` in the fewest of 1, 2, 4 and 8 octets that hold their bits, the sign
    /// extended, `float` in its bits, and `str` as it is. Numbers have the least significant octet first.
    Binary,
}

/// The rows of a definition in one form, and the last of them. Each is made in the memory of the one before, which takes less time
/// than `Definition::row`.
pub trait RowWriter {
    /// Their form.
    ghost form: { RowForm };

    /// The fields of the definition.
    ghost fields: { Self → List Field };

    /// The row that was written last, or nothing where that was refused.
    ghost last: { Self → List ℕ };

    /// There is memory for a row, so `write` takes none. For rows of text this is never known.
    ghost has_memory: { Self → Type 0 };

    /// How many bits a packet must have: the greatest end of a field of any type, 0 without fields.
    fn bits_needed(&self) -> u32
        ensures { result ≡ bits_needed (Self.fields self.now) };

    /// The row that was written last, or nothing where that was refused.
    fn row(&self) -> &[u8]
        ensures { result.now ≡ Self.last self.now };

    /// Writes the row of a packet. In the form of text it is the same that `Definition::row` gives.
    ///
    /// # Errors
    ///
    /// `ShortPacket` where the packet has fewer bits than are needed, whatever memory there is. Otherwise `NoMemory` where memory runs
    /// out. Rows in octets take memory for the first row alone.
    fn write(&mut self, lead: Lead, packet: &[u8]) -> Result<(), RowFault>
        ensures fields { Self.fields self.new ≡ Self.fields self.old }
        ensures ok { OnOk result (IsRow form (Self.fields self.old) lead packet.now (Self.last self.new)) }
        ensures none { OnErr result (Self.last self.new ≡ []) }
        ensures refused { IfErr result (RefusesRow form (Self.fields self.old) lead packet.now) }
        ensures short { RefusesShort (Self.fields self.old) packet.now result }
        ensures enough { Self.has_memory self.old → IfErr result (λ fault. fault ≢ NoMemory) }
        ensures memory { OnOk result (form ≡ Binary → Self.has_memory self.new) }
        ensures kept { Self.has_memory self.old → Self.has_memory self.new };
}

/// The rows of a definition as lines.
#[derive(Drop)]
pub struct Rows<'a> {
    definition: &'a Definition,
    cells: Cells,
    row: Vec<u8>,
}

impl<'a> Model for Rows<'a> {
    ghost use Rattle.tm_fields.specs.Rows.{RowsState};

    ghost Value = { RowsState };

    ghost view = { λ r. record { fields = r.definition.now; row = r.row.items } };
}

impl<'a> Rows<'a> {
    /// The rows of a definition, none of them written.
    pub fn new(alloc: Global, definition: &'a Definition) -> Rows<'a>
        ensures { result ≡ record { fields = definition.now; row = [] } }
    {
        Rows {
            definition,
            cells: Cells::new(alloc),
            row: Vec::new(alloc),
        }
    }
}

impl RowWriter for Rows<'_> {
    ghost form = { Text };

    ghost fields = { λ r. r.fields };

    ghost last = { λ r. r.row };

    ghost has_memory = { λ _. ⊥ };

    fn bits_needed(&self) -> u32 {
        self.definition.bits_needed()
    }

    fn row(&self) -> &[u8] {
        self.row.as_slice()
    }

    fn write(&mut self, lead: Lead, packet: &[u8]) -> Result<(), RowFault> {
        self.row.clear();
        self.definition.check_length(packet)?;
        let pushed = self
            .definition
            .push_row(&mut self.row, &mut self.cells, lead, packet);
        if pushed.is_err() {
            // The beginning of a row is dropped.
            self.row.clear();
            return Err(RowFault::NoMemory);
        }
        Ok(())
    }
}

/// The rows of a definition in octets.
#[derive(Drop)]
pub struct BinaryRows<'a> {
    definition: &'a Definition,
    row: Vec<u8>,
}

impl<'a> Model for BinaryRows<'a> {
    ghost use Rattle.std.specs.Prelude.{vec_capacity};
    ghost use Rattle.tm_fields.specs.Rows.{BinaryRowsState};

    ghost Value = { BinaryRowsState };

    ghost view = { λ r. record { fields = r.definition.now; row = r.row.items; capacity = vec_capacity r.row } };
}

impl<'a> BinaryRows<'a> {
    /// The rows of a definition, none of them written. The first one takes the memory of all.
    pub fn new(alloc: Global, definition: &'a Definition) -> BinaryRows<'a>
        ensures fields { result.fields ≡ definition.now }
        ensures none { result.row ≡ [] }
    {
        let row = Vec::new(alloc);
        BinaryRows { definition, row }
    }
}

impl RowWriter for BinaryRows<'_> {
    ghost use Rattle.std.specs.Prelude.{◌≤◌};
    ghost use Rattle.tm_fields.specs.Binary.{row_length};

    ghost form = { Binary };

    ghost fields = { λ r. r.fields };

    ghost last = { λ r. r.row };

    ghost has_memory = { λ r. row_length r.fields ≤ r.capacity };

    fn bits_needed(&self) -> u32 {
        self.definition.bits_needed()
    }

    fn row(&self) -> &[u8] {
        self.row.as_slice()
    }

    fn write(&mut self, lead: Lead, packet: &[u8]) -> Result<(), RowFault> {
        self.definition
            .write_binary_row(&mut self.row, lead, packet)
    }
}
