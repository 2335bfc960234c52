ghost use Rattle.std.specs.Prelude.{◌≡◌, ◌<◌, ℕ, true, false, Some, None, List, [], drop, length};
ghost use Rattle.outside.specs.Faults.{counted};
ghost use Rattle.outside.specs.Files.{Takes, is_failed};

use crate::copying::copy_front;
use crate::faults::counted;
use crate::files::{Began, Files, Taken};
use crate::sink::{Given, Sink};
use cbase::Text;

/// Files that answer every name with the same bytes and never fail.
///
/// Their content is told, and the count of faults is always 0. That of openings stands still at 2^64 - 1. No call
/// takes memory.
#[derive(Drop)]
pub struct SteadyFiles {
    name: Text,
    bytes: Text,
    begun: Option<Text>,
    position: usize,
    openings: u64,
}

impl SteadyFiles {
    ghost use Rattle.outside.specs.Steady.{name_of};

    /// The files in which `bytes` stand under every name. `name` is kept as the file's own name.
    pub fn new(name: Text, bytes: Text) -> SteadyFiles
        ensures name { name_of result ≡ name }
        ensures tells { ⟦<SteadyFiles as Files>⟧.tells result ≡ true }
        ensures bytes { (other : List ℕ) → ⟦<SteadyFiles as Files>⟧.bytes_of result other ≡ Some bytes }
        ensures begun { ⟦<SteadyFiles as Files>⟧.begun result ≡ [] }
        ensures ready { ⟦<SteadyFiles as Files>⟧.ready result ≡ false }
        ensures failed { ⟦<SteadyFiles as Files>⟧.failed result ≡ false }
        ensures faults { ⟦<SteadyFiles as Files>⟧.faults result ≡ 0 }
        ensures openings { ⟦<SteadyFiles as Files>⟧.openings result ≡ 0 }
    {
        SteadyFiles {
            name,
            bytes,
            begun: None,
            position: 0,
            openings: 0,
        }
    }

    /// The name that the files were made with.
    pub fn name(&self) -> &[u8]
        ensures { result.now ≡ name_of self.now }
    {
        self.name.as_slice()
    }
}

impl Files for SteadyFiles {
    ghost use Rattle.std.specs.Prelude.{is_some, unwrap_or};

    ghost tells = { λ _. true };

    ghost bytes_of = { λ s _. Some s.bytes };

    ghost left = { λ s. drop s.position s.bytes };

    ghost faults = { λ _. 0 };

    ghost openings = { λ s. s.openings };

    ghost begun = { λ s. unwrap_or s.begun [] };

    ghost ready = { λ s. is_some s.begun };

    ghost failed = { λ _. false };

    fn begin(&mut self, name: Text) -> Began
        ensures answer { result ≡ Began.Ready }
        ensures after { self.new ≡ record self.old { begun = Some name; position = 0; openings = counted self.old.openings } }
    {
        self.begun = Some(name);
        self.position = 0;
        self.openings = counted(self.openings);
        Began::Ready
    }

    fn take(&mut self, into: &mut [u8]) -> Taken
        requires { 0 < length into.old }
        ensures answer { is_failed result ≡ false }
        ensures after { self.new ≡ record self.old { position = self.new.position } }
        ensures bytes { Takes true (drop self.old.position self.old.bytes) (drop self.new.position self.new.bytes) into.new result }
    {
        let rest = self.bytes.as_slice().get(self.position..);
        let Some(rest) = rest else {
            return Taken::End;
        };
        if rest.is_empty() {
            return Taken::End;
        }
        let count = rest.len().min(into.len());
        copy_front(rest, into, count);
        self.position += count;
        Taken::Bytes(count)
    }
}

/// A sink that takes every piece whole and never fails.
///
/// It keeps and tells no bytes, and the count of faults is always 0.
#[derive(Debug, Drop)]
pub struct SteadySink;

impl SteadySink {
    /// The sink. It takes no memory.
    pub fn new() -> SteadySink
        ensures written { ⟦<SteadySink as Sink>⟧.written result ≡ None }
        ensures faults { ⟦<SteadySink as Sink>⟧.faults result ≡ 0 }
    {
        SteadySink
    }
}

impl Sink for SteadySink {
    ghost written = { λ _. None };

    ghost faults = { λ _. 0 };

    fn give(&mut self, piece: &[u8]) -> Given
        ensures whole { result ≡ Given.Bytes (length piece.now) }
    {
        Given::Bytes(piece.len())
    }
}
