//! Definitions that are read, definitions that are refused, and the heads and rows that packets get.

use crate::field_rows::AND_ONE_BIT;
use std::alloc::{AllocError, Global};
use tm_bits::push_escaped;
use tm_fields::{Column, Definition, DefinitionFault, Lead, RowFault, RowWriter, Rows, number_at};

pub(crate) const TEXT: &str =
    "name, data_type, bit_length\nVERSION, uint, 8\nLEVEL, int, 12\nPAD, fill, 4\nLABEL, str, 24\nRATE, float, 32\n";

pub(crate) const HEAD: &str = "tm_record,tm_channel,tm_apid,tm_count,VERSION,LEVEL,LABEL,RATE\n";

pub(crate) const ROW: &str = "0,0,100,0,7,-1,\"a,b\",0x3f800000\n";

pub(crate) const PACKET: [u8; 16] = [
    0x00, 0x64, 0xC0, 0x00, 0x00, 0x09, 0x07, 0xFF, 0xF0, 0x61, 0x2C, 0x62, 0x3F, 0x80, 0x00, 0x00,
];

pub(crate) const LEAD: Lead = Lead {
    seen: 0,
    channel: 0,
    application: 100,
    count: 0,
};

// The definition of a text, its head, and the row of the packet under it.
fn head_of(alloc: Global, text: &str) -> Option<Vec<u8>> {
    let definition = Definition::read(alloc, text.as_bytes()).ok()?;
    definition.head(alloc).ok()
}

fn row_of(alloc: Global, text: &str) -> Option<Result<Vec<u8>, RowFault>> {
    let definition = Definition::read(alloc, text.as_bytes()).ok()?;
    Some(definition.row(alloc, LEAD, &PACKET))
}

// The text is a definition of just this row of the packet.
fn has_row(alloc: Global, text: &str, wanted: &[u8]) -> bool {
    match row_of(alloc, text) {
        Some(Ok(row)) => row.as_slice() == wanted,
        _ => false,
    }
}

// The bits that a definition needs, or how it is refused.
pub(crate) fn bits_of(alloc: Global, text: &[u8]) -> Result<u32, DefinitionFault> {
    match Definition::read(alloc, text) {
        Ok(definition) => Ok(definition.bits_needed()),
        Err(fault) => Err(fault),
    }
}

#[test]
fn head_and_row(rt: HostRuntime) {
    // guards: head-row-and-rows-give-the-head-and-the-rows
    let alloc = rt.alloc();
    assert!(rt; bits_of(alloc, TEXT.as_bytes()) == Ok(128));
    assert!(rt; head_of(alloc, TEXT).is_some_and(|head| head.as_slice() == HEAD.as_bytes()));
    assert!(rt; has_row(alloc, TEXT, ROW.as_bytes()));
}

// How many bits a definition needs and are found, where the packet has too few.
fn bits_short(alloc: Global, text: &str) -> Option<(u64, u64)> {
    match row_of(alloc, text)? {
        Err(RowFault::ShortPacket { needed, found }) => Some((needed, found)),
        _ => None,
    }
}

#[test]
fn packet_that_is_a_bit_short(rt: HostRuntime) {
    // guards: head-row-and-rows-give-the-head-and-the-rows
    let alloc = rt.alloc();
    let head = head_of(alloc, AND_ONE_BIT).expect(&rt, "a head");
    assert!(rt; head.as_slice().ends_with(b",RATE,EXTRA\n"));
    assert!(rt; bits_short(alloc, AND_ONE_BIT) == Some((129, 128)));
}

// The row of the packet is written as it is by itself.
fn writes_row(rows: &mut Rows<'_>) -> bool {
    rows.write(LEAD, &PACKET).is_ok() && rows.row() == ROW.as_bytes()
}

// Rows until the text that they are in is begun anew, one that is refused, and one after it.
#[test]
fn rows_one_behind_another(rt: HostRuntime) {
    // guards: head-row-and-rows-give-the-head-and-the-rows
    let alloc = rt.alloc();
    let definition = Definition::read(alloc, TEXT.as_bytes()).expect(&rt, "a definition");
    let mut rows = Rows::new(alloc, &definition);
    assert!(rt; rows.bits_needed() == 128 && rows.row().is_empty());
    for _ in 0..2000u32 {
        assert!(rt; writes_row(&mut rows));
    }
    let short = RowFault::ShortPacket {
        needed: 128,
        found: 120,
    };
    assert!(rt; rows.write(LEAD, &PACKET[..15]) == Err(short) && rows.row().is_empty());
    assert!(rt; writes_row(&mut rows));
}

#[test]
fn numbers_at_places(rt: HostRuntime) {
    // guards: how-numbers-are-read
    let octets = [0xFF, 0xF0];
    for (offset, bits, number) in [(0, 12, Some(4095)), (12, 5, None), (0, 0, None)] {
        assert!(rt; number_at(&octets, offset, bits) == number);
    }
}

// Fields that go back, lie over one another and begin within an octet: each value is cut out of the packet by hand.
#[test]
fn fields_anywhere(rt: HostRuntime) {
    // guards: definitionread-gives-the-fields-or-the-refusal
    let alloc = rt.alloc();
    let text =
        "bit_offset,name,bit_length,data_type,unit\n48,ALL,64,uint,V\n56,LOW,12,uint,\n52,WIDE,64,int,\n68,TEXT,16,str,\n60,RAW,16,float,\n,NEXT,5,uint,\n0,ID,16,uint,\n56,MINUS,64,int,\n56,ONE,1,int,\n";
    let values =
        b"0,0,100,0,576443577473843072,4095,9223097239581489152,\\x06\\x12,0xff06,2,100,-4396756372586496,-1\n";
    assert!(rt; has_row(alloc, text, values));
}

// The fault of a text, if it has one.
fn refusal(alloc: Global, text: &[u8]) -> Option<DefinitionFault> {
    bits_of(alloc, text).err()
}

#[test]
fn definition_faults(rt: HostRuntime) {
    // guards: definitionread-gives-the-fields-or-the-refusal
    let alloc = rt.alloc();
    let table = [
        (
            "name,data_type,bit_length\nA,uint(4),8\n",
            Some(DefinitionFault::Array { row: 1 }),
        ),
        (
            "name,data_type,bit_length\nA,bool,8\n",
            Some(DefinitionFault::Kind { row: 1 }),
        ),
        (
            "name,data_type,bit_length\nA,uint,65\n",
            Some(DefinitionFault::Bits { row: 1 }),
        ),
        (
            "name,data_type,bit_length\nA,uint,8\nA,uint,8\n",
            Some(DefinitionFault::Name { row: 2 }),
        ),
        (
            "name,data_type,bit_length\nA,uint\n",
            Some(DefinitionFault::Csv),
        ),
        (
            "name,data_type\n",
            Some(DefinitionFault::Column(Column::BitLength)),
        ),
        (
            "name,data_type,bit_length,bit_offset\nA,uint,1,524336\n",
            Some(DefinitionFault::Offset { row: 1 }),
        ),
        ("", Some(DefinitionFault::Column(Column::Name))),
        // A heading is trimmed too, so `name` stands twice.
        (
            "bit_length,\tname ,data_type,name\n",
            Some(DefinitionFault::Column(Column::Name)),
        ),
        // A byte order mark is passed over, blanks are taken off, and columns stand in any order.
        (
            "\u{FEFF}bit_length,\tname ,data_type\n 008\t, A B ,\tuint \n",
            None,
        ),
        // Only one is passed over.
        (
            "\u{FEFF}\u{FEFF}name,data_type,bit_length\n",
            Some(DefinitionFault::Column(Column::Name)),
        ),
        // A `fill` may have a name that is taken, and takes none.
        (
            "name,data_type,bit_length\nA,fill,8\nA,uint,8\nA,fill,8\n",
            None,
        ),
        ("name,data_type,bit_length\n", None),
    ];
    for (text, fault) in table {
        assert!(rt; refusal(alloc, text.as_bytes()) == fault, "{text}");
    }
}

// A definition of this many fields, and then this text.
fn fills(alloc: Global, count: u32, more: &[u8]) -> Result<Vec<u8>, AllocError> {
    let mut text = Vec::from_slice(alloc, b"name,data_type,bit_length\n")?;
    for _ in 0..count {
        text.extend_from_slice(b"A,fill,8\n")?;
    }
    text.extend_from_slice(more)?;
    Ok(text)
}

#[test]
fn most_fields(rt: HostRuntime) {
    // guards: definitionread-gives-the-fields-or-the-refusal
    let alloc = rt.alloc();
    let table = [
        (1000, b"".as_slice(), None),
        (1001, b"", Some(DefinitionFault::TooMany)),
        (3000, b"", Some(DefinitionFault::TooMany)),
        // A record of another length is noticed after those that are kept.
        (3000, b"A,fill\n", Some(DefinitionFault::Csv)),
    ];
    for (count, more, fault) in table {
        let text = fills(alloc, count, more).expect(&rt, "a text");
        assert!(rt; refusal(alloc, &text) == fault, "{count} fields");
    }
}

#[test]
fn columns_and_printed_octets(rt: HostRuntime) {
    // guards: push_escaped-prints-octets
    // guards: fault-lines-and-exit-statuses
    let words = [
        (Column::Name, "name"),
        (Column::DataType, "data_type"),
        (Column::BitLength, "bit_length"),
        (Column::BitOffset, "bit_offset"),
    ];
    for (column, word) in words {
        assert!(rt; column.word() == word);
    }
    let mut text = Vec::new(rt.alloc());
    assert!(rt; text.push(b'a').is_ok() && push_escaped(&mut text, b" ~\\\x7F\n\xC3").is_ok());
    assert!(rt; text.as_slice() == b"a ~\\x5c\\x7f\\x0a\\xc3".as_slice());
}
