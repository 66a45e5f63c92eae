//! The text of a filter, from the bytes of its file.
ghost use Rattle.std.specs.Prelude.{IfErr, IfOk, string_bytes};
ghost use Rattle.jser_settings.specs.FileTexts.{IsFileText, IsFileTextFault};

use crate::faulty_line::first_fault;
use crate::file_fault::FileFault;
use crate::filter_file::joined_lines;
use std::alloc::Global;
use std::str;

/// Why the bytes of a file are no text of a filter.
#[derive(Clone, Copy, PartialEq, Eq, Debug)]
pub enum FileTextFault {
    /// They are no UTF-8.
    NoText,
    /// A line is faulty: the first that is.
    Faulty(FileFault),
    /// Memory ran out.
    OutOfMemory,
}

/// The text of a filter whose file has these bytes: that of its lines, joined by `;`. Of a line that begins with `#` nothing is
/// left but its place. Takes memory for the text.
///
/// # Errors
///
/// `FileTextFault`, with the reason.
pub fn filter_text_of(alloc: Global, bytes: &[u8]) -> Result<String, FileTextFault>
    ensures text { IfOk result (λ text. IsFileText bytes.now (string_bytes text)) }
    ensures fault { IfErr result (IsFileTextFault bytes.now) }
{
    let Ok(text) = str::from_utf8(bytes) else {
        return Err(FileTextFault::NoText);
    };
    if let Some(fault) = first_fault(text) {
        return Err(FileTextFault::Faulty(fault));
    }
    match joined_lines(alloc, text) {
        Ok(joined) => Ok(joined),
        Err(_) => Err(FileTextFault::OutOfMemory),
    }
}
