//! Lines of comma-separated values, written value by value under CSV's default settings.

ghost use Rattle.std.specs.Prelude.{◌≡◌, ◌≤◌, ◌++◌, ◌∷◌, [], ℕ, Some, List, length, IfOk, OnOk};
ghost use Rattle.csv.specs.Writing.{default_writer, row_text};
ghost use Rattle.tm_fields.specs.code.Line.{HasPassedOn, HasValues};

use csv::{Writer, WriterBuilder};
use std::alloc::{AllocError, Global};
use std::io::Write;

/// A writer of lines in memory, without a line.
#[inline(always)]
pub(crate) fn begin(alloc: Global) -> Writer<Vec<u8>>
    ensures { HasPassedOn (λ v. Some v.items) result [] }
{
    WriterBuilder::new().from_writer(Vec::new(alloc))
}

/// Takes away what a writer has written: it has no line then.
#[cold]
pub(crate) fn begin_again(alloc: Global, writer: &mut Writer<Vec<u8>>)
    ensures { HasPassedOn (λ v. Some v.items) writer.new [] }
{
    *writer = begin(alloc);
}

/// Writes a further value. A line in memory fails only if memory runs out.
pub(crate) fn write_value<W: Write + Drop>(
    writer: &mut Writer<W>,
    value: &[u8],
) -> Result<(), AllocError>
    ensures { OnOk result ((lines : List ℕ) (values : List (List ℕ)) → HasValues W.contents writer.old lines values
        → HasValues W.contents writer.new lines (values ++ value.now ∷ [])) }
{
    if writer.write_field(value).is_err() {
        return Err(AllocError);
    }
    Ok(())
}

/// Ends a line of two values or more.
pub(crate) fn end<W: Write + Drop>(writer: &mut Writer<W>) -> Result<(), AllocError>
    ensures { OnOk result ((lines : List ℕ) (values : List (List ℕ)) → 2 ≤ length values
        → HasValues W.contents writer.old lines values
        → HasValues W.contents writer.new (lines ++ row_text default_writer values) []) }
{
    if writer.end_record().is_err() {
        return Err(AllocError);
    }
    Ok(())
}

/// Passes whole lines on to what is underneath.
pub(crate) fn pass<W: Write + Drop>(writer: &mut Writer<W>) -> Result<(), AllocError>
    ensures { OnOk result ((lines : List ℕ) → HasValues W.contents writer.old lines []
        → HasPassedOn W.contents writer.new lines) }
{
    if writer.flush().is_err() {
        return Err(AllocError);
    }
    Ok(())
}

/// The text of whole lines.
pub(crate) fn into_text(writer: Writer<Vec<u8>>) -> Result<Vec<u8>, AllocError>
    ensures { IfOk result (λ text. (lines : List ℕ) → HasValues (λ v. Some v.items) writer lines [] → text.items ≡ lines) }
{
    match writer.into_inner() {
        Ok(text) => Ok(text),
        Err(_) => Err(AllocError),
    }
}
