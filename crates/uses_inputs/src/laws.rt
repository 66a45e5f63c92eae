//! What an encoder writes spells the bytes that it was given.
ghost use Rattle.uses_inputs.specs.Laws.{Base64IsSpelled, HexIsSpelled};

/// Bytes that are written in hexadecimal, in lower or upper case, are spelled by that text.
pub fn hex_is_spelled()
    ensures { HexIsSpelled }
{}

/// Bytes that are written in base64, of either alphabet, with padding or without it, are spelled by that text in its own form.
pub fn base64_is_spelled()
    ensures { Base64IsSpelled }
{}
