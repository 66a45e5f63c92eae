//! Laws of the definitions alone: no call stands behind them. Each is the clause of an empty function, so that the check
//! insists on its proof; the statements are in `specs/TokenLaws.antt` and `specs/WholeContents.antt`.

ghost use Rattle.jser_reader.specs.TokenLaws.{BytesAreTokens, TokensBeginStreams};
ghost use Rattle.jser_reader.specs.WholeContents.{OneIsWhole};

/// A reader stands for bytes exactly if they are whole tokens and a rest, and it stands in these (`StandsIn`).
pub fn bytes_are_tokens()
    ensures { BytesAreTokens }
{}

/// The tokens that a reader took are the first tokens of every stream that begins with the bytes that it took.
pub fn tokens_begin_streams()
    ensures { TokensBeginStreams }
{}

/// Of bytes there is one number of whole contents: what a reader says of it leaves no choice.
pub fn one_is_whole()
    ensures { OneIsWhole }
{}
