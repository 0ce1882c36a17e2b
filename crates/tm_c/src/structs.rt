//! What crosses the border, and the numbers of a refusal.

/// What a call reads. In C each slice is a `struct tmx_octets`.
#[repr(C)]
pub struct TmxRequest<'a> {
    pub settings: &'a [u8],
    pub checkpoint: &'a [u8],
    pub octets: &'a [u8],
    pub definition: &'a [u8],
    pub command: u32,
    pub application: u32,
    pub last: u32,
}

/// What a job is opened with. With `resume` other than 0 it goes on from the checkpoint.
#[repr(C)]
pub struct TmxOpening<'a> {
    pub settings: &'a [u8],
    pub checkpoint: &'a [u8],
    pub resume: u32,
}

/// What a call answers.
#[repr(C)]
#[derive(Clone, Copy, Debug, PartialEq, Eq)]
pub struct TmxAnswer {
    pub status: u32,
    pub fault: u32,
    pub key: u32,
    pub column: u32,
    pub row: u32,
    pub records: u32,
    pub out_length: usize,
    pub report_length: usize,
    pub checkpoint_length: usize,
    pub used: usize,
    pub strict: u32,
    pub row_length: u32,
}

/// How far a job has got in a call.
#[repr(C)]
#[derive(Clone, Copy, Debug, PartialEq, Eq)]
pub struct TmxProgress {
    pub status: u32,
    pub records: u32,
    pub used: usize,
    pub events: usize,
    pub octets: usize,
}

/// A status, and what is wrong: the number of the fault, and the key, the column or the row that it is about. 0 where there is none.
#[derive(Clone, Copy, Debug, PartialEq, Eq)]
pub struct Numbers {
    pub status: u32,
    pub fault: u32,
    pub key: u32,
    pub column: u32,
    pub row: u32,
}
