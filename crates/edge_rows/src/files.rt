//! How files are read.
use crate::printing::{counted, push_row, push_text};
use crate::row::Row;
use cbase::{List, NoMemory, Text};
use outside::{Files, MemoryFiles, NamedFile, Reading, SteadyFiles, read_file};
use std::alloc::Global;

/// What is read: how many bytes, and 1 or 0 for whether a text begins with them.
fn show_bytes(word: &str, bytes: &[u8], text: &[u8], shown: &mut String) -> Result<(), NoMemory> {
    push_row(
        word,
        &[counted(bytes.len()), u32::from(text.starts_with(bytes))],
        shown,
    )
}

/// How a file is read, where no more than so many bytes are allowed, and whether a text begins with what is read.
fn show_reading<F: Files>(
    alloc: Global,
    files: &mut F,
    name: Text,
    most: u32,
    text: &[u8],
    shown: &mut String,
) -> Result<(), NoMemory> {
    match read_file(alloc, files, name, most) {
        Ok(Reading::Whole(bytes)) => show_bytes(" whole", bytes.as_slice(), text, shown),
        Ok(Reading::Long(bytes)) => show_bytes(" long", bytes.as_slice(), text, shown),
        Ok(Reading::Failed) => push_text(" failed", shown),
        Err(error) => Err(error),
    }
}

/// How a file is read that has the text, of which a call gives what it is asked for. The first number is how many bytes are allowed.
pub fn steady(
    alloc: Global,
    row: &Row<'_>,
    text: &[u8],
    shown: &mut String,
) -> Result<(), NoMemory> {
    let bytes = Text::from_slice(alloc, text)?;
    let mut files = SteadyFiles::new(Text::new(alloc), bytes);
    show_reading(
        alloc,
        &mut files,
        Text::new(alloc),
        row.numbers[0],
        text,
        shown,
    )
}

/// Puts a file of this name and these bytes behind the others.
pub fn put(
    alloc: Global,
    files: &mut List<NamedFile>,
    name: &[u8],
    bytes: &[u8],
) -> Result<(), NoMemory> {
    let name = Text::from_slice(alloc, name)?;
    let bytes = Text::from_slice(alloc, bytes)?;
    files.push(NamedFile { name, bytes })?;
    Ok(())
}

/// Puts two files of the name `a.c` and an empty one behind others; the first has the text.
fn put_three(alloc: Global, files: &mut List<NamedFile>, text: &[u8]) -> Result<(), NoMemory> {
    put(alloc, files, b"a.c", text)?;
    put(alloc, files, b"empty.c", b"")?;
    put(alloc, files, b"a.c", b"other")
}

/// How files in memory are read, one behind the other, whose names are the words. Two have the name `a.c`, of which the first has the text, and `empty.c` is empty. The first number is how many bytes are
/// allowed, the second how many a call gives at most, and the call of the third number fails, from 1.
pub fn files(
    alloc: Global,
    row: &Row<'_>,
    text: &[u8],
    shown: &mut String,
) -> Result<(), NoMemory> {
    let [most, step, failing, _] = row.numbers;
    let mut named = List::new(alloc);
    put_three(alloc, &mut named, text)?;
    let mut numbers = List::new(alloc);
    numbers.push(failing)?;
    let mut files = MemoryFiles::new(alloc, named, step.max(1), numbers);
    let told = show_readings(alloc, &mut files, row.words, most, text, shown);
    drop(files);
    told
}

/// How files of these names are read, one behind the other; `|` stands between two names.
fn show_readings(
    alloc: Global,
    files: &mut MemoryFiles,
    names: &str,
    most: u32,
    text: &[u8],
    shown: &mut String,
) -> Result<(), NoMemory> {
    for name in names.split('|') {
        let name = Text::from_slice(alloc, name.as_bytes())?;
        show_reading(alloc, files, name, most, text, shown)?;
    }
    Ok(())
}
