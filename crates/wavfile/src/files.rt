// Files by name: one read whole, and one written so that nobody ever sees a part of it.
ghost use Rattle.std.specs.Prelude.{◌≡◌, ◌+◌, ◌≤◌, length, IfOk};
ghost use Rattle.std.proofs.lemmas.List.Edits.{sets};
ghost use Rattle.wavfile.specs.Program.{most_name};
ghost use Rattle.wavfile.specs.Files.{Within, suffix, part_name};

use super::say::{say_error, say_too_long};
use intake::read_full;
use std::fs::{File, OpenFile, OpenOptions, remove_file, rename};
use std::io;
use std::io::{ErrorKind, Read, Write};
use std::rt::Files;

// What stands behind the name of a file that is not whole yet.
const SUFFIX_BYTES: usize = 5;

// The bytes of the longest name with it.
const NAME_BYTES: usize = 4_101;

// The bytes of the longest name that the system takes.
const SYSTEM_NAME_BYTES: usize = 4_095;

// The system's numbers for a name with a 0 in it, for one that is too long, and for one that is no text.
const EINVAL: i32 = 22;

const ENAMETOOLONG: i32 = 36;

const EILSEQ: i32 = 84;

// A name as the text that the library takes, or the system's error for one that cannot be taken.
fn text_of(name: &[u8]) -> io::Result<&str> {
    if SYSTEM_NAME_BYTES < name.len() {
        return Err(io::Error::from_raw_os_error(ENAMETOOLONG));
    }
    if name.contains(&0) {
        return Err(io::Error::from_raw_os_error(EINVAL));
    }
    str::from_utf8(name).map_err(|_| io::Error::from_raw_os_error(EILSEQ))
}

// Why a file was not read whole: a call failed, or it has more bytes than there is space for.
#[derive(Drop)]
enum Unread {
    Failed(io::Error),
    TooLong,
}

impl From<io::Error> for Unread {
    fn from(error: io::Error) -> Unread {
        Unread::Failed(error)
    }
}

// A file that does not end here is too long, which a further byte shows: a space that is full may have held all of
// it.
fn end_here<F: Read>(file: &mut F) -> Result<(), Unread> {
    let mut more = [0u8; 1];
    if file.read(&mut more)? == 0 {
        Ok(())
    } else {
        Err(Unread::TooLong)
    }
}

// Reads a file that is open to its end, to the start of the space.
fn load_open<F: Read>(file: &mut F, space: &mut [u8]) -> Result<usize, Unread>
    ensures { IfOk result (λ n. n ≤ length space.new) }
{
    let bytes = read_full(file, space)?;
    if bytes == space.len() {
        end_here(file)?;
    }
    Ok(bytes)
}

// Opens the file of this name and reads it to the start of `into`.
fn open_and_load<R: Files>(rt: &R, name: &[u8], into: &mut [u8]) -> Result<usize, Unread>
    ensures { IfOk result (λ n. n ≤ length into.new) }
{
    let mut file = File::open(rt, text_of(name)?)?;
    load_open(&mut file, into)
}

// Reads the file of this name to the start of `into` and gives how many bytes it has, or None and says why not.
pub fn load_file<R: Files, W: Write>(
    rt: &R,
    said: &mut W,
    name: &[u8],
    into: &mut [u8],
) -> Option<usize>
    ensures { Within result (length into.new) }
{
    match open_and_load(rt, name, into) {
        Ok(n) => Some(n),
        Err(Unread::Failed(error)) => {
            say_error(said, name, error);
            None
        }
        Err(Unread::TooLong) => {
            say_too_long(said);
            None
        }
    }
}

// Copies all bytes to the places from `at` on; the others stay.
fn copy_to(bytes: &[u8], to: &mut [u8], at: usize)
    requires { at + length bytes.now ≤ length to.old }
    ensures { to.new ≡ sets to.old at bytes.now }
{
    to[at..at + bytes.len()].copy_from_slice(bytes);
}

// Writes the name of the file that is not whole yet, `.part` behind that of the whole one, and gives its length.
fn part_name(name: &[u8], part: &mut [u8]) -> usize
    requires { length name.now + length suffix ≤ length part.old }
    ensures { (result ≡ length name.now + length suffix)
        × (part.new ≡ sets part.old 0 (part_name name.now)) }
{
    copy_to(name, part, 0);
    copy_to(b".part", part, name.len());
    name.len() + SUFFIX_BYTES
}

// Writes all bytes to a file that is open and sees them stored.
fn store<F: Write + OpenFile>(file: &mut F, bytes: &[u8]) -> io::Result<()> {
    file.write_all(bytes)?;
    file.sync_all()
}

// Writes all bytes to a file that was made, and closes it.
fn fill<F: Write + OpenFile + Drop>(mut file: F, bytes: &[u8]) -> io::Result<()> {
    store(&mut file, bytes)
}

// Makes a new file of this name with these bytes. Where it was made and anything fails, it is removed.
fn make<R: Files>(rt: &R, name: &[u8], bytes: &[u8]) -> io::Result<()> {
    let path = text_of(name)?;
    let file = OpenOptions::new()
        .write(true)
        .create_new(true)
        .open(rt, path)?;
    let filled = fill(file, bytes);
    if filled.is_err() {
        let _ = remove_file(rt, path);
    }
    filled
}

// Whether a file may take this name, or why not: no file has it, or one that may be written and that can be stored. A
// folder cannot be opened so, and a device, as that which swallows all, cannot be stored: neither is replaced.
fn may_take<R: Files>(rt: &R, name: &[u8]) -> io::Result<()> {
    let opened = OpenOptions::new()
        .read(true)
        .write(true)
        .open(rt, text_of(name)?);
    match opened {
        Ok(file) => file.sync_all(),
        Err(error) if error.kind() == ErrorKind::NotFound => Ok(()),
        Err(error) => Err(error),
    }
}

// Gives a file that was made the other name. Where that fails, it is removed.
fn take_name<R: Files>(rt: &R, part: &[u8], name: &[u8]) -> io::Result<()> {
    let part = text_of(part)?;
    let taken = text_of(name).and_then(|name| rename(rt, part, name));
    if taken.is_err() {
        let _ = remove_file(rt, part);
    }
    taken
}

// Why a file was not saved: which of its two names a call failed on, and by which error.
#[derive(Drop)]
struct Unsaved<'a> {
    name: &'a [u8],
    error: io::Error,
}

// Makes a new file of the one name with these bytes, which then takes the other. Where it was made and anything
// fails, it is removed.
fn save_as<'a, R: Files>(
    rt: &R,
    part: &'a [u8],
    name: &'a [u8],
    bytes: &[u8],
) -> Result<(), Unsaved<'a>> {
    may_take(rt, name).map_err(|error| Unsaved { name, error })?;
    make(rt, part, bytes).map_err(|error| Unsaved { name: part, error })?;
    take_name(rt, part, name).map_err(|error| Unsaved { name, error })
}

// Saves a file whole under its name: it is written beside it first, and takes the name once all of it is stored,
// so that a file of that name stays where anything fails. Gives whether it was saved, and else says why not.
pub fn save_file<R: Files, W: Write>(rt: &R, said: &mut W, name: &[u8], bytes: &[u8]) -> bool
    requires { length name.now ≤ most_name }
{
    let mut part = [0u8; NAME_BYTES];
    let n = part_name(name, &mut part);
    match save_as(rt, &part[..n], name, bytes) {
        Ok(()) => true,
        Err(Unsaved { name, error }) => {
            say_error(said, name, error);
            false
        }
    }
}
