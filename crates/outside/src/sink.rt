ghost use Rattle.std.specs.Prelude.{◌≡◌, ℕ, ◌^◌, ◌<◌, ◌≤◌, List, Option, length};
ghost use Rattle.outside.specs.Faults.{Rose};
ghost use Rattle.outside.specs.Sink.{Gives};

/// The answer of a sink to a piece.
#[derive(Clone, Copy, Debug, PartialEq, Eq)]
pub enum Given {
    /// So many bytes of the front of the piece were taken, at least one.
    Bytes(usize),
    /// No byte was taken: a fault was counted.
    Failed,
}

/// What takes bytes, piece after piece.
///
/// The ghost members say what contracts know of it: the bytes that were written, where they are told
/// (`written`, `None` where they are not), and the count of faults (`faults`), which is at most 2^64 - 1,
/// where it stands still.
pub trait Sink {
    ghost written: { Self → Option (List ℕ) };

    ghost faults: { Self → ℕ };

    /// Takes the first bytes of `piece`: at least one, and at most as many as it has.
    ///
    /// `Failed` comes only where the count of faults rose, and nothing is taken then.
    fn give(&mut self, piece: &[u8]) -> Given
        requires { 0 < length piece.now }
        ensures bytes { Gives (written self.old) (written self.new) piece.now result }
        ensures counted { faults self.new < 2 ^ 64 }
        ensures later { faults self.old ≤ faults self.new }
        ensures cause { result ≡ Given.Failed → Rose (faults self.old) (faults self.new) };
}
