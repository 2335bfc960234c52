ghost use Rattle.std.specs.Prelude.{◌≡◌, ◌^◌, ◌<◌, ◌≤◌, None};
ghost use Rattle.outside.specs.Faults.{Rose};
ghost use Rattle.outside.specs.Known.{GivesTo};
ghost use Rattle.outside.specs.Sink.{Gives};

use crate::faults::faults_after;
use crate::os_files::MOST_TRIES;
use crate::sink::{Given, Sink};
use std::io::{ErrorKind, Write};

/// A sink over a writer of the operating system, as its standard output.
///
/// What was written is not told. An error of the system counts as a fault and is answered by `Failed`, and
/// so does a write that takes no byte. A call that is interrupted is tried again, up to 64 tries. The count
/// of faults stands still at 2^64 - 1.
#[derive(Drop)]
pub struct OsSink<W: Write + Drop> {
    writer: W,
    faults: u64,
}

impl<W: Write + Drop> OsSink<W> {
    /// The sink over `writer`. It takes no memory.
    pub fn new(writer: W) -> OsSink<W>
        ensures written { ⟦<OsSink<W> as Sink>⟧.written result ≡ None }
        ensures faults { ⟦<OsSink<W> as Sink>⟧.faults result ≡ 0 }
    {
        OsSink { writer, faults: 0 }
    }
}

impl<W: Write + Drop> Sink for OsSink<W> {
    ghost written = { λ _. None };

    ghost faults = { λ s. s.faults };

    fn give(&mut self, piece: &[u8]) -> Given
        ensures bytes { Gives None None piece.now result }
        ensures counted { self.new.faults < 2 ^ 64 }
        ensures later { self.old.faults ≤ self.new.faults }
        ensures cause { result ≡ Given.Failed → Rose self.old.faults self.new.faults }
        ensures known { GivesTo (W.contents self.old.writer) (W.contents self.new.writer) piece.now result }
    {
        let given = write_some(&mut self.writer, piece);
        self.faults = faults_after(self.faults, given == Given::Failed);
        given
    }
}

/// Writes the first bytes of `piece`.
#[tactic(auto, using(crate::proofs::Known::keeps_same, crate::proofs::Known::keeps_again, crate::proofs::Known::keeps_put, crate::proofs::Known::put_nothing))]
fn write_some<W: Write>(writer: &mut W, piece: &[u8]) -> Given
    ensures bytes { Gives None None piece.now result }
    ensures known { GivesTo (W.contents writer.old) (W.contents writer.new) piece.now result }
{
    for _ in 0..MOST_TRIES {
        match writer.write(piece) {
            Ok(0) => return Given::Failed,
            Ok(count) => return Given::Bytes(count),
            Err(error) => {
                if error.kind() != ErrorKind::Interrupted {
                    return Given::Failed;
                }
            }
        }
    }
    Given::Failed
}
