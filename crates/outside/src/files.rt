ghost use Rattle.std.specs.Prelude.{◌≡◌, ℕ, ◌^◌, ◌<◌, ◌≤◌, Bool, true, IsTrue, List, Option, Some, length};
ghost use Rattle.outside.specs.Faults.{Rose, counted};
ghost use Rattle.outside.specs.Files.{Takes, is_ready, is_refused, is_failed};

use cbase::Text;

/// The answer to the opening of a file.
#[derive(Clone, Copy, Debug, PartialEq, Eq)]
pub enum Began {
    /// The file is open, and its first byte is the next to be read.
    Ready,
    /// The file could not be opened: a fault was counted.
    Failed,
}

/// The answer to a read.
#[derive(Clone, Copy, Debug, PartialEq, Eq)]
pub enum Taken {
    /// So many bytes were read, at least one: they stand at the front of the buffer.
    Bytes(usize),
    /// Nothing is left of the file.
    End,
    /// The read failed: a fault was counted.
    Failed,
}

/// Files that are read by name, one at a time, each from its front.
///
/// The ghost members say what contracts know of them:
/// whether their content is told (`tells`), the bytes of each name where it is (`bytes_of`), what is left of
/// the file that was opened last (`left`), the count of faults (`faults`), the count of openings, of which each
/// succeeded or not (`openings`), the name of the last opening, empty at first (`begun`), whether that opening
/// succeeded (`ready`) and whether the last call failed (`failed`).
///
/// Both counts are at most 2^64 - 1, where they stand still.
pub trait Files {
    ghost tells: { Self → Bool };

    ghost bytes_of: { Self → List ℕ → Option (List ℕ) };

    ghost left: { Self → List ℕ };

    ghost faults: { Self → ℕ };

    ghost openings: { Self → ℕ };

    ghost begun: { Self → List ℕ };

    ghost ready: { Self → Bool };

    ghost failed: { Self → Bool };

    /// Opens the file `name` at its front, in place of the one that was open.
    ///
    /// `Failed` comes only where the count of faults rose.
    fn begin(&mut self, name: Text) -> Began
        ensures tells { tells self.new ≡ tells self.old }
        ensures kept { (other : List ℕ) → bytes_of self.new other ≡ bytes_of self.old other }
        ensures openings { openings self.new ≡ counted (openings self.old) }
        ensures begun { begun self.new ≡ name }
        ensures ready { ready self.new ≡ is_ready result }
        ensures failed { failed self.new ≡ is_refused result }
        ensures counted { faults self.new < 2 ^ 64 }
        ensures later { faults self.old ≤ faults self.new }
        ensures cause { result ≡ Began.Failed → Rose (faults self.old) (faults self.new) }
        ensures whole { result ≡ Began.Ready → IsTrue (tells self.old) → bytes_of self.old name ≡ Some (left self.new) };

    /// Reads the next bytes of the open file into the front of `into`: at least one, and at most as many as
    /// `into` holds.
    ///
    /// `End` comes only where nothing is left, and `Failed` only where the count of faults rose. After
    /// `Failed` nothing is said of what is left.
    fn take(&mut self, into: &mut [u8]) -> Taken
        requires room { 0 < length into.old }
        requires ready { ready self.old ≡ true }
        ensures tells { tells self.new ≡ tells self.old }
        ensures kept { (other : List ℕ) → bytes_of self.new other ≡ bytes_of self.old other }
        ensures openings { openings self.new ≡ openings self.old }
        ensures begun { begun self.new ≡ begun self.old }
        ensures ready { ready self.new ≡ ready self.old }
        ensures failed { failed self.new ≡ is_failed result }
        ensures counted { faults self.new < 2 ^ 64 }
        ensures later { faults self.old ≤ faults self.new }
        ensures cause { result ≡ Taken.Failed → Rose (faults self.old) (faults self.new) }
        ensures bytes { Takes (tells self.old) (left self.old) (left self.new) into.new result };
}
