//! Why words of the command line are wrong.

ghost use Rattle.std.specs.Prelude.{IfOk, IfSome};
ghost use Rattle.tm_faults.specs.Explanations.{IsLine};

use crate::asked::Asked;
use crate::phrases::{Said, Untold, text_of};
use std::alloc::Global;
use std::rt::Env;
use tm_faults::{Explanation, NoMemory};

// What is said of a word that is no text.
const NOT_TEXT: &[u8] =
    b", is not UTF-8; rename the file, or give the recording to standard input: < FILE";

/// What is wrong with words that `clap` refuses by this text: there are several recordings, or a number is none.
pub(crate) fn usage_text(alloc: Global, refusal: &[u8]) -> Said {
    let refusal = text_of(refusal);
    if let Some(word) = refusal.strip_prefix("error: unexpected argument '")
        && !word.starts_with("-")
    {
        return Ok(String::from_str(alloc, "a run reads one recording; join them by cat")?);
    }
    // The value may hold anything, so the option comes after the last of these words.
    let (option, least, most) = match refusal.rsplit_once("' for '--") {
        Some((_, rest)) if rest.starts_with("stop-after ") => ("stop-after", 1u32, u32::MAX),
        Some((_, rest)) if rest.starts_with("apid ") => ("apid", 0, 2047),
        _ => return Err(Untold::Unknown),
    };
    Ok(format!(in alloc; "--{option} takes a decimal number from {least} to {most}")?)
}

/// Which word of the command line is not UTF-8, and what to do. Words are counted after the program's name, from 1.
pub fn explain_words<R: Env + AllocGlobal>(
    rt: &R,
    _: Asked,
) -> Result<Option<Explanation>, NoMemory>
    ensures { IfOk result (λ found. IfSome found IsLine) }
{
    let alloc = rt.alloc();
    // Linux passes on no longer word.
    let mut octets = vec![in alloc; 0u8; 131_072]?;
    for at in 1..usize::MAX {
        let Ok(length) = rt.arg(at, octets.as_mut_slice()) else {
            break;
        };
        let word = &octets[..length];
        if std::str::from_utf8(word).is_err() {
            let mut text = format!(in alloc; "word {at}, ")?.into_bytes();
            text.extend_from_slice(word)?;
            text.extend_from_slice(NOT_TEXT)?;
            return Ok(Some(Explanation::new(alloc, text.as_slice())?));
        }
    }
    Ok(None)
}
