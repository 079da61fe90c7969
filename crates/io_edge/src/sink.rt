ghost use Rattle.std.specs.Prelude.{◌≡◌, ◌≤◌, ◌<◌, ℕ, List, Option, length, IfOk, IsErrOf};
ghost use Rattle.std.specs.Io.KnownBytes.{WriteAppends};
ghost use Rattle.io_edge.specs.Faults.{Rose};

use crate::errors::EdgeErr;

/// Where bytes go to.
pub trait Sink {
    /// The bytes that were written, where the sink tells them.
    ghost written: { Self → Option (List ℕ) };

    /// How many writes failed so far.
    ghost faults: { Self → ℕ };

    /// Writes some bytes from the front of `piece`, at least one where there is one, and gives their
    /// number. After an error nothing of the piece is written, as far as the sink tells.
    fn write(&mut self, piece: &[u8]) -> Result<usize, EdgeErr>
        ensures within { IfOk result (λ n. n ≤ length piece.now) }
        ensures some { IfOk result (λ n. 0 < length piece.now → 0 < n) }
        ensures bytes { WriteAppends (written self.old) (written self.new) result piece.now }
        ensures later { faults self.old ≤ faults self.new }
        ensures cause { IsErrOf result EdgeErr.Failed → Rose (faults self.old) (faults self.new) };
}
