ghost use Rattle.std.specs.Prelude.{◌≡◌, ◌≢◌, ℕ, ◌+◌, ◌≤◌, true, false, IsTrue, IfOk, OnErr, Some, List, ◌++◌, length};
ghost use Rattle.outside.specs.Faults.{Rose, counted};
ghost use Rattle.outside.specs.Reading.{IsWithin, LeavesAtMost, Reads, is_failed, reading_of};

use crate::files::{Began, Files, Taken};
use cbase::{NoMemory, Text};
use std::alloc::Global;

/// What was read of a file.
#[derive(Drop)]
pub enum Reading {
    /// All bytes of the file: no more than were allowed.
    Whole(Text),
    /// The first bytes of a file that has more than were allowed: one more than that.
    Long(Text),
    /// The file could not be opened, or a read failed.
    Failed,
}

/// How many bytes a read asks for at most.
const PIECE: usize = 4096;

/// Reads the file `name` to its end, or until `most + 1` bytes were read, so that no further byte is taken.
///
/// `Failed` comes only where the count of faults rose, at the last call. Where the content of the files is
/// told, `Whole` comes for a file of at most `most` bytes and `Long` for a longer one. The file is opened once, and
/// no other is.
#[tactic(auto, using(crate::proofs::Answer::reading_is))]
pub fn read_file<F: Files>(
    alloc: Global,
    files: &mut F,
    name: Text,
    most: u32,
) -> Result<Reading, NoMemory>
    ensures tells { F.tells files.new ≡ F.tells files.old }
    ensures kept { (other : List ℕ) → F.bytes_of files.new other ≡ F.bytes_of files.old other }
    ensures openings { F.openings files.new ≡ counted (F.openings files.old) }
    ensures begun { F.begun files.new ≡ name }
    ensures later { F.faults files.old ≤ F.faults files.new }
    ensures failed { IfOk result (λ reading. F.failed files.new ≡ is_failed reading) }
    ensures unfailed { OnErr result (F.failed files.new ≡ false) }
    ensures cause { IfOk result (λ reading. reading ≡ Reading.Failed → Rose (F.faults files.old) (F.faults files.new)) }
    ensures within { IfOk result (IsWithin most) }
    ensures told { IsTrue (F.tells files.old) → IfOk result (Reads (F.bytes_of files.old name) (F.left files.new)) }
    ensures exact { (whole : List ℕ) → IsTrue (F.tells files.old) → F.bytes_of files.old name ≡ Some whole → IfOk result (λ reading. reading ≢ Reading.Failed → reading ≡ reading_of most whole) }
    ensures taken { IsTrue (F.tells files.old) → F.failed files.new ≡ false → LeavesAtMost (most + 1) (F.bytes_of files.old name) (F.left files.new) }
{
    match files.begin(name) {
        Began::Ready => read_open(alloc, files, most),
        Began::Failed => Ok(Reading::Failed),
    }
}

/// Reads the open file, which is at its front.
fn read_open<F: Files>(alloc: Global, files: &mut F, most: u32) -> Result<Reading, NoMemory>
    requires ready { F.ready files.old ≡ true }
    requires unfailed { F.failed files.old ≡ false }
    ensures tells { F.tells files.new ≡ F.tells files.old }
    ensures kept { (other : List ℕ) → F.bytes_of files.new other ≡ F.bytes_of files.old other }
    ensures openings { F.openings files.new ≡ F.openings files.old }
    ensures begun { F.begun files.new ≡ F.begun files.old }
    ensures later { F.faults files.old ≤ F.faults files.new }
    ensures failed { IfOk result (λ reading. F.failed files.new ≡ is_failed reading) }
    ensures unfailed { OnErr result (F.failed files.new ≡ false) }
    ensures cause { IfOk result (λ reading. reading ≡ Reading.Failed → Rose (F.faults files.old) (F.faults files.new)) }
    ensures within { IfOk result (IsWithin most) }
    ensures told { IsTrue (F.tells files.old) → IfOk result (Reads (Some (F.left files.old)) (F.left files.new)) }
    ensures taken { IsTrue (F.tells files.old) → F.failed files.new ≡ false → LeavesAtMost (most + 1) (Some (F.left files.old)) (F.left files.new) }
{
    let limit = most as usize + 1;
    let mut buffer = [0u8; PIECE];
    let mut bytes = Vec::new(alloc);
    'pieces: while bytes.len() < limit {
        let wanted = (limit - bytes.len()).min(PIECE);
        match files.take(&mut buffer[..wanted]) {
            Taken::Bytes(count) => bytes.extend_from_slice(&buffer[..count])?,
            Taken::End => return Ok(Reading::Whole(Text::from_vec(bytes))),
            Taken::Failed => return Ok(Reading::Failed),
        }
    }
    Ok(Reading::Long(Text::from_vec(bytes)))
}
