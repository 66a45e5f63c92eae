//! How a stream is spelled in a file.

/// How a stream is spelled in a file.
#[derive(Clone, Copy, PartialEq, Eq, Debug)]
pub enum Form {
    /// Its bytes are there.
    Bytes,
    /// In base64.
    Base64,
    /// In hexadecimal.
    Hexadecimal,
}
