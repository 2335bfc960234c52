ghost use Rattle.std.specs.Prelude.{◌≡◌, ◌^◌, ◌<◌, ◌≤◌, ℕ, true, false, None, IfSome, is_some, [], length};
ghost use Rattle.outside.specs.Faults.{Rose};
ghost use Rattle.outside.specs.Files.{Takes, is_failed};
ghost use Rattle.outside.specs.Known.{TakesFrom};

use crate::faults::{counted, faults_after};
use crate::files::{Began, Files, Taken};
use cbase::Text;
use std::io::{ErrorKind, Read};
use std::{fs, rt, str};

/// How often a call that was interrupted is tried again.
pub(crate) const MOST_TRIES: u32 = 64;

/// The files of the operating system.
///
/// Their content is not told. An error of the system counts as a fault and is answered by `Failed`, and so
/// is a name that is not UTF-8, which cannot be opened. A call that is interrupted is tried again, up to
/// 64 tries, and is one opening or one read all the same. The counts of faults and of openings stand still at
/// 2^64 - 1.
#[derive(Drop)]
pub struct OsFiles<'a, R: rt::Files> {
    runtime: &'a R,
    file: Option<R::File>,
    begun: Option<Text>,
    failed: bool,
    faults: u64,
    openings: u64,
}

impl<'a, R: rt::Files> OsFiles<'a, R> {
    /// The files that `runtime` reaches. None is open. It takes no memory.
    pub fn new(runtime: &'a R) -> OsFiles<'a, R>
        ensures tells { ⟦<OsFiles<'a, R> as Files>⟧.tells result ≡ false }
        ensures begun { ⟦<OsFiles<'a, R> as Files>⟧.begun result ≡ [] }
        ensures ready { ⟦<OsFiles<'a, R> as Files>⟧.ready result ≡ false }
        ensures failed { ⟦<OsFiles<'a, R> as Files>⟧.failed result ≡ false }
        ensures faults { ⟦<OsFiles<'a, R> as Files>⟧.faults result ≡ 0 }
        ensures openings { ⟦<OsFiles<'a, R> as Files>⟧.openings result ≡ 0 }
    {
        OsFiles {
            runtime,
            file: None,
            begun: None,
            failed: false,
            faults: 0,
            openings: 0,
        }
    }
}

impl<'a, R: rt::Files> Files for OsFiles<'a, R> {
    ghost use Rattle.std.specs.Prelude.{is_some, unwrap_or};

    ghost tells = { λ _. false };

    ghost bytes_of = { λ _ _. None };

    ghost left = { λ _. [] };

    ghost faults = { λ s. s.faults };

    ghost openings = { λ s. s.openings };

    ghost begun = { λ s. unwrap_or s.begun [] };

    ghost ready = { λ s. is_some s.file };

    ghost failed = { λ s. s.failed };

    fn begin(&mut self, name: Text) -> Began {
        self.file = open(self.runtime, name.as_slice());
        self.begun = Some(name);
        self.openings = counted(self.openings);
        self.failed = self.file.is_none();
        self.faults = faults_after(self.faults, self.failed);
        if self.failed {
            Began::Failed
        } else {
            Began::Ready
        }
    }

    fn take(&mut self, into: &mut [u8]) -> Taken
        requires room { 0 < length into.old }
        requires ready { is_some self.old.file ≡ true }
        ensures openings { self.new.openings ≡ self.old.openings }
        ensures begun { self.new.begun ≡ self.old.begun }
        ensures ready { is_some self.new.file ≡ true }
        ensures failed { self.new.failed ≡ is_failed result }
        ensures counted { self.new.faults < 2 ^ 64 }
        ensures later { self.old.faults ≤ self.new.faults }
        ensures cause { result ≡ Taken.Failed → Rose self.old.faults self.new.faults }
        ensures bytes { Takes false [] [] into.new result }
        ensures known { IfSome self.old.file (λ before. IfSome self.new.file (λ after. TakesFrom (R.File.remaining before) (R.File.remaining after) into.new result)) }
    {
        let Some(file) = &mut self.file else {
            unreachable!();
        };
        let taken = read_some(file, into);
        self.failed = taken == Taken::Failed;
        self.faults = faults_after(self.faults, self.failed);
        taken
    }
}

/// Opens the file `name`, or says nothing where the system does not open it or `name` is not UTF-8.
fn open<R: rt::Files>(runtime: &R, name: &[u8]) -> Option<R::File> {
    let path = str::from_utf8(name).ok()?;
    for _ in 0..MOST_TRIES {
        match fs::open(runtime, path) {
            Ok(file) => return Some(file),
            Err(error) => {
                if error.kind() != ErrorKind::Interrupted {
                    return None;
                }
            }
        }
    }
    None
}

/// Reads the next bytes of `file` into the front of `into`.
#[tactic(auto, using(crate::proofs::Known::keeps_same, crate::proofs::Known::keeps_again, crate::proofs::Known::keeps_taken, crate::proofs::Known::taken_nothing))]
fn read_some<F: Read>(file: &mut F, into: &mut [u8]) -> Taken
    requires { 0 < length into.old }
    ensures bytes { Takes false [] [] into.new result }
    ensures known { TakesFrom (F.remaining file.old) (F.remaining file.new) into.new result }
{
    for _ in 0..MOST_TRIES {
        match file.read(into) {
            Ok(0) => return Taken::End,
            Ok(count) => return Taken::Bytes(count),
            Err(error) => {
                if error.kind() != ErrorKind::Interrupted {
                    return Taken::Failed;
                }
            }
        }
    }
    Taken::Failed
}
