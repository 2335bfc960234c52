ghost use Rattle.std.specs.Prelude.{◌≡◌, if◌then◌else◌};
ghost use Rattle.outside.specs.Faults.{counted};

use cbase::{NoMemory, Text};
use outside::{Began, Files, Given, OsFiles, OsSink, Reading, Sink, Taken, read_file, send};
use std::alloc::Global;
use std::test::Fail;
use std::{fs, io};

/// What is wanted of a reading.
#[derive(Clone, Copy)]
enum Wanted {
    Whole(&'static [u8]),
    Long(&'static [u8]),
    Failed,
}

/// Whether a reading is the one that is wanted.
fn is_wanted(reading: &Reading, want: Wanted) -> bool {
    match (reading, want) {
        (Reading::Whole(bytes), Wanted::Whole(want)) => bytes.as_slice() == want,
        (Reading::Long(bytes), Wanted::Long(want)) => bytes.as_slice() == want,
        (Reading::Failed, Wanted::Failed) => true,
        _ => false,
    }
}

/// Whether a file is read as it is wanted.
fn reads<F: Files>(
    alloc: Global,
    files: &mut F,
    name: &[u8],
    most: u32,
    want: Wanted,
) -> Result<bool, NoMemory> {
    let name = Text::from_slice(alloc, name)?;
    let reading = read_file(alloc, files, name, most)?;
    Ok(is_wanted(&reading, want))
}

/// Whether the system's file of that name is read as it is wanted.
fn system_reads(rt: &HostRuntime, name: &[u8], want: Wanted) -> Result<bool, NoMemory> {
    let mut files = OsFiles::new(rt);
    reads(rt.alloc(), &mut files, name, 1000, want)
}

/// Names of files of the system, of which the first alone is there and can be read, and what is wanted of each.
static OF_THE_SYSTEM: [(&[u8], Wanted); 5] = [
    (
        b"given.txt",
        Wanted::Whole(b"int main(void)\n{ return 0; }\n"),
    ),
    (b"missing.txt", Wanted::Failed),
    (b"\xff.txt", Wanted::Failed),
    (b".", Wanted::Failed),
    (b"", Wanted::Failed),
];

/// Whether each of these files of the system is read as it is wanted.
fn all_are_read(rt: &HostRuntime, rows: &[(&[u8], Wanted)]) -> Result<bool, NoMemory> {
    let mut all = true;
    for (name, want) in rows {
        all = system_reads(rt, name, *want)? && all;
    }
    Ok(all)
}

#[test]
fn the_system_gives_a_file_that_is_there_and_no_other(rt: HostRuntime) -> Result<(), Fail> {
    fs::write(&rt, "given.txt", "int main(void)\n{ return 0; }\n")?;
    let seen = all_are_read(&rt, &OF_THE_SYSTEM);
    fs::remove_file(&rt, "given.txt")?;
    assert!(rt; seen?);
    Ok(())
}

/// Whether the system's file has these bytes.
fn holds(rt: &HostRuntime, name: &str, want: &[u8]) -> Result<bool, Fail> {
    let bytes = fs::read(rt, name)?;
    Ok(bytes.as_slice() == want)
}

/// Whether all is sent to a new file of the system.
fn is_sent_to(rt: &HostRuntime, name: &str, text: &[u8]) -> Result<bool, Fail> {
    let mut out = OsSink::new(fs::create(rt, name)?);
    Ok(send(&mut out, text))
}

#[test]
fn the_system_takes_what_is_sent(rt: HostRuntime) -> Result<(), Fail> {
    let sent = is_sent_to(&rt, "sent.txt", b"t.c: safe\n")?;
    let held = holds(&rt, "sent.txt", b"t.c: safe\n")?;
    fs::remove_file(&rt, "sent.txt")?;
    let mut standard = OsSink::new(io::writer(&rt));
    let shown = send(&mut standard, b"sent to the standard output\n");
    drop(standard);
    assert_eq!(rt; (sent, held, shown), (true, true, true));
    Ok(())
}

// The count of faults after a call, which `failed` or not.
fn faults_after(faults: u64, failed: bool) -> u64
    ensures { result ≡ (if failed then counted faults else faults) }
{
    if failed {
        faults.saturating_add(1)
    } else {
        faults
    }
}

// A file of which the second read fails.
#[derive(Drop)]
struct Torn {
    begun: Option<Text>,
    reads: u64,
    openings: u64,
    faults: u64,
    failed: bool,
}

impl Files for Torn {
    ghost use Rattle.std.specs.Prelude.{false, None, [], is_some, unwrap_or};

    ghost tells = { λ _. false };

    ghost bytes_of = { λ _ _. None };

    ghost left = { λ _. [] };

    ghost faults = { λ s. s.faults };

    ghost openings = { λ s. s.openings };

    ghost begun = { λ s. unwrap_or s.begun [] };

    ghost ready = { λ s. is_some s.begun };

    ghost failed = { λ s. s.failed };

    fn begin(&mut self, name: Text) -> Began {
        self.begun = Some(name);
        self.openings = self.openings.saturating_add(1);
        self.reads = 0;
        self.failed = false;
        let _faults = self.faults;
        Began::Ready
    }

    fn take(&mut self, into: &mut [u8]) -> Taken {
        self.reads = self.reads.saturating_add(1);
        self.faults = faults_after(self.faults, self.reads == 2);
        self.failed = self.reads == 2;
        if self.reads == 2 {
            return Taken::Failed;
        }
        into[0] = b'x';
        Taken::Bytes(1)
    }
}

/// Whether the file of which the second read fails is read as it is wanted, and opened once.
fn reads_torn(alloc: Global, most: u32, want: Wanted) -> Result<bool, NoMemory> {
    let mut files = Torn {
        begun: None,
        reads: 0,
        openings: 0,
        faults: 0,
        failed: false,
    };
    let is_read = reads(alloc, &mut files, b"t.c", most, want)?;
    Ok(is_read && files.openings == 1)
}

/// How many bytes are allowed of that file, and what is wanted.
static OF_TORN: [(u32, Wanted); 3] = [
    (0, Wanted::Long(b"x")),
    (1, Wanted::Failed),
    (100, Wanted::Failed),
];

/// Whether that file is read so in each of these rows.
fn all_are_torn(alloc: Global, rows: &[(u32, Wanted)]) -> Result<bool, NoMemory> {
    let mut all = true;
    for (most, want) in rows {
        all = reads_torn(alloc, *most, *want)? && all;
    }
    Ok(all)
}

#[test]
fn a_read_that_fails_in_the_middle_is_no_end(rt: HostRuntime) -> Result<(), Fail> {
    assert!(rt; all_are_torn(rt.alloc(), &OF_TORN)?);
    Ok(())
}

// A sink that takes one byte a call.
#[derive(Drop)]
struct Slow {
    bytes: Vec<u8>,
    faults: u64,
}

impl Sink for Slow {
    ghost use Rattle.std.specs.Prelude.{Some};

    ghost written = { λ s. Some s.bytes.items };

    ghost faults = { λ s. s.faults };

    fn give(&mut self, piece: &[u8]) -> Given {
        let failed = self.bytes.push(piece[0]).is_err();
        self.faults = faults_after(self.faults, failed);
        if failed {
            Given::Failed
        } else {
            Given::Bytes(1)
        }
    }
}

#[test]
fn a_text_is_sent_byte_after_byte(rt: HostRuntime) {
    let mut out = Slow {
        bytes: Vec::new(rt.alloc()),
        faults: 0,
    };
    let sent = send(&mut out, b"t.c: safe\n");
    let held = out.bytes.as_slice() == b"t.c: safe\n".as_slice();
    assert_eq!(rt; (sent, held), (true, true));
}
