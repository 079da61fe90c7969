ghost use Rattle.std.specs.Prelude.{◌≤◌, ℕ, List, Option, length, IfOk, IsErr};
ghost use Rattle.std.specs.Io.KnownBytes.{ReadConsumes};
ghost use Rattle.io_edge.specs.Faults.{Rose};

use crate::errors::Failed;

/// Where bytes come from.
pub trait Source {
    /// The bytes that are not read yet, where the source tells them.
    ghost left: { Self → Option (List ℕ) };

    /// How many reads failed so far.
    ghost faults: { Self → ℕ };

    /// Reads some bytes into the front of `buf`, and gives their number. 0 for a buffer that is not
    /// empty is the end of the input. What stands behind them in `buf` may be anything.
    fn read(&mut self, buf: &mut [u8]) -> Result<usize, Failed>
        ensures within { IfOk result (λ n. n ≤ length buf.new) }
        ensures bytes { ReadConsumes (left self.old) (left self.new) result buf.new }
        ensures later { faults self.old ≤ faults self.new }
        ensures cause { IsErr result → Rose (faults self.old) (faults self.new) };
}
