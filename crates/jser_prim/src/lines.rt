//! Where the last whole line among some first bytes ends.
ghost use Rattle.std.specs.Prelude.{◌<◌, ◌++◌, ℕ, List, length};
ghost use Rattle.jser_prim.specs.Fronts.{CutAt};

/// How many of the first `most` bytes are whole lines. There are more bytes, and the text may go on behind them.
pub fn whole_lines(bytes: &[u8], most: usize) -> usize
    requires { most < length bytes.now }
    ensures { (rest : List ℕ) → CutAt most result (bytes.now ++ rest) }
{
    let mut end = most;
    'back: while end > 0 && bytes[end - 1] != b'\n' {
        end -= 1;
    }
    end
}
