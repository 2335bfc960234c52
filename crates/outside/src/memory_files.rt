ghost use Rattle.std.specs.Prelude.{◌≡◌, ◌+◌, ◌^◌, ◌<◌, ◌≤◌, ◌==◌, if◌then◌else◌, [], None, true, false, length};
ghost use Rattle.std.specs.List.{list_any, position_from};
ghost use Rattle.std.specs.Option.{option_map};
ghost use Rattle.outside.specs.Files.{Takes};
ghost use Rattle.outside.specs.MemoryFiles.{after_begin, after_take, began_of, buffer_after, bytes_at, content_of, is_named, left_at, taken_of};

use crate::copying::copy_front;
use crate::faults::{counted, faults_after, stands_in};
use crate::files::{Began, Files, Taken};
use cbase::{List, Text};
use std::alloc::Global;
use std::marker::Model;

/// A file in memory.
#[derive(Drop)]
pub struct NamedFile {
    /// The name that it is opened by.
    pub name: Text,
    /// Its bytes.
    pub bytes: Text,
}

/// Files in memory, which tell their content and fail where they were told to.
///
/// Where two files have one name the first counts. A call of `take` gives at most `step` bytes. The calls of
/// `begin` and `take` are numbered together from 1, and those whose numbers stand in `failing` fail, as does
/// the opening of a name that no file has. After a `begin` that failed no file is open. After a `take` that
/// failed, what is left stays as it was. The counts of calls, of openings and of faults stand still at 2^64 - 1.
/// No call takes memory.
#[derive(Drop)]
pub struct MemoryFiles {
    files: List<NamedFile>,
    step: u32,
    failing: List<u32>,
    begun: Text,
    place: Option<usize>,
    position: usize,
    failed: bool,
    calls: u64,
    openings: u64,
    faults: u64,
}

impl Model for MemoryFiles {
    ghost use Rattle.std.specs.Prelude.{◌≤◌, is_some};
    ghost use Rattle.outside.specs.MemoryFiles.{FilesMemory, left_at};

    ghost Value = { FilesMemory };

    ghost view = { λ s. record { files = s.files; step = s.step; failing = s.failing; begun = s.begun; ready = is_some s.place; left = left_at s.files s.place s.position; failed = s.failed; calls = s.calls; openings = s.openings; faults = s.faults } };

    ghost invariant = { λ s. 1 ≤ s.step };
}

impl MemoryFiles {
    /// The files, of which none is open. It takes no memory.
    pub fn new(alloc: Global, files: List<NamedFile>, step: u32, failing: List<u32>) -> MemoryFiles
        requires { 1 ≤ step }
        ensures { result ≡ record { files = files; step = step; failing = failing; begun = []; ready = false; left = []; failed = false; calls = 0; openings = 0; faults = 0 } }
    {
        MemoryFiles {
            files,
            step,
            failing,
            begun: Text::new(alloc),
            place: None,
            position: 0,
            failed: false,
            calls: 0,
            openings: 0,
            faults: 0,
        }
    }
}

impl Files for MemoryFiles {
    ghost use Rattle.std.specs.Prelude.{true};
    ghost use Rattle.outside.specs.MemoryFiles.{content_of};

    ghost tells = { λ _. true };

    ghost bytes_of = { λ s name. content_of s.files name };

    ghost left = { λ s. s.left };

    ghost faults = { λ s. s.faults };

    ghost openings = { λ s. s.openings };

    ghost begun = { λ s. s.begun };

    ghost ready = { λ s. s.ready };

    ghost failed = { λ s. s.failed };

    fn begin(&mut self, name: Text) -> Began
        ensures answer { result ≡ began_of self.old name }
        ensures after { self.new ≡ after_begin self.old name }
        ensures counted { self.new.faults < 2 ^ 64 }
        ensures later { self.old.faults ≤ self.new.faults }
    {
        self.calls = counted(self.calls);
        self.openings = counted(self.openings);
        self.place = place_to_open(
            self.files.as_slice(),
            name.as_slice(),
            self.failing.as_slice(),
            self.calls,
        );
        self.position = 0;
        self.begun = name;
        self.failed = self.place.is_none();
        self.faults = faults_after(self.faults, self.failed);
        if self.failed {
            Began::Failed
        } else {
            Began::Ready
        }
    }

    fn take(&mut self, into: &mut [u8]) -> Taken
        requires room { 0 < length into.old }
        requires ready { self.old.ready ≡ true }
        ensures answer { result ≡ taken_of self.old into.old }
        ensures after { self.new ≡ after_take self.old into.old }
        ensures buffer { into.new ≡ buffer_after self.old into.old }
        ensures counted { self.new.faults < 2 ^ 64 }
        ensures later { self.old.faults ≤ self.new.faults }
        ensures bytes { Takes true self.old.left self.new.left into.new result }
    {
        self.calls = counted(self.calls);
        self.failed = stands_in(self.calls, self.failing.as_slice());
        if self.failed {
            self.faults = counted(self.faults);
            return Taken::Failed;
        }
        let rest = rest_of(self.files.as_slice(), self.place, self.position);
        if rest.is_empty() {
            return Taken::End;
        }
        let count = rest.len().min(into.len()).min(self.step as usize);
        copy_front(rest, into, count);
        self.position += count;
        Taken::Bytes(count)
    }
}

/// Where the file of the name stands that the call number `call` opens, unless it fails by its number.
#[tactic(auto, using(crate::proofs::Places::bytes_found))]
fn place_to_open(files: &[NamedFile], name: &[u8], failing: &[u32], call: u64) -> Option<usize>
    ensures { option_map (bytes_at files.now) result ≡ (if list_any (λ number. number == call) failing.now then None else content_of files.now name.now) }
{
    if stands_in(call, failing) {
        return None;
    }
    place_of(files, name)
}

/// Where the first file of the name stands.
fn place_of(files: &[NamedFile], name: &[u8]) -> Option<usize>
    ensures { result ≡ position_from (is_named name.now) 0 files.now }
{
    files.iter().position(|file| file.name.as_slice() == name)
}

/// What is left of the file that stands at `place`, behind its first `position` bytes.
fn rest_of(files: &[NamedFile], place: Option<usize>, position: usize) -> &[u8]
    ensures left { result.now ≡ left_at files.now place position }
    ensures fits { position + length result.now < 2 ^ 64 }
{
    let Some(at) = place else {
        return &[];
    };
    bytes_of_file(files, at).get(position..).unwrap_or(&[])
}

/// The bytes of the file that stands at `at`, and none where no file does.
fn bytes_of_file(files: &[NamedFile], at: usize) -> &[u8]
    ensures { result.now ≡ bytes_at files.now at }
{
    match files.get(at) {
        Some(file) => file.bytes.as_slice(),
        None => &[],
    }
}
