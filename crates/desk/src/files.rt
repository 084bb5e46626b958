// Images in files. No contract can say what a file holds: these functions only pass bytes on between a file and a buffer, and tell what failed. They are
// trusted, and tested by runs; what the bytes are is decided in proved functions.
//
// A file is named by a word behind the program's name, which is fetched by its place. The name stands behind `desk: ` in a buffer of its own, so that a
// message begins with both.
ghost use Rattle.std.specs.Prelude.{◌≡◌, ◌≤◌, length, IfOk};
ghost use Rattle.desk.specs.Files.{Within};

use crate::lines::Text;
use crate::names::{folder_length, put_beside, put_letters};
use crate::told::{NO_TEXT, TAKEN, Told, failed, tell, word_failed};
use std::env::Env;
use std::fs::{File, OpenOptions, remove_file, rename};
use std::io::{Error, ErrorKind, Read, Write};
use std::os::unix::fs::OpenOptionsExt;
use std::random::RandomSource;
use std::str::from_utf8;

// `desk: ` and a name of up to 4096 bytes.
const NAME: usize = 4102;

// The same with something behind it.
const LINE: usize = 4160;

// Puts `desk: ` and the name at the front of text, and answers where the name ends. One that is too long for the system is reported with what there is
// of it.
fn put_name(rt: &HostRuntime, word: usize, text: &mut [u8; NAME]) -> Result<usize, Told>
    ensures { IfOk result (λ end. (6 ≤ end) × (end ≤ length text.new)) }
{
    text[..6].copy_from_slice(b"desk: ");
    match rt.arg(word, &mut text[6..]) {
        Ok(n) => Ok(6 + n),
        Err(error) => Err(failed(rt, text, word_failed(error))),
    }
}

// How many bytes one read of a file or of the input gives; none at its end.
pub(crate) fn read_some<R: Read>(
    rt: &HostRuntime,
    from: &mut R,
    message: &[u8],
    bytes: &mut [u8],
) -> Result<usize, Told>
    ensures { Within result bytes.new }
{
    from.read(bytes).map_err(|error| failed(rt, message, error))
}

// The bytes of a file up to its end, or as many as there is room for.
// A loop, since `read_to_end` wants a Vec and `read_exact` fails on a shorter file.
fn read_all(
    rt: &HostRuntime,
    file: &mut File,
    message: &[u8],
    bytes: &mut [u8],
) -> Result<usize, Told>
    ensures { Within result bytes.new }
{
    let mut have = 0;
    while have < bytes.len() {
        let got = read_some(rt, file, message, &mut bytes[have..])?;
        if got == 0 {
            break;
        }
        have += got;
    }
    Ok(have)
}

// A path is text to the library, so that a name which is no UTF-8 opens no file: it fails as the system fails on bytes that are no text.
fn path(name: &[u8]) -> Result<&str, Error> {
    from_utf8(name).map_err(|_| Error::from_raw_os_error(NO_TEXT))
}

fn open_read(rt: &HostRuntime, name: &[u8]) -> Result<File, Error> {
    File::open(rt, path(name)?)
}

// What the file of that name holds, up to the buffer's end.
pub(crate) fn read_image(rt: &HostRuntime, word: usize, image: &mut [u8]) -> Result<usize, Told>
    ensures { Within result image.new }
{
    let mut text = [0; NAME];
    let end = put_name(rt, word, &mut text)?;
    let message = &text[..end];
    let mut file = open_read(rt, &message[6..]).map_err(|error| failed(rt, message, error))?;
    read_all(rt, &mut file, message, image)
}

// One line: `desk: IMAGE: refused 15`.
pub(crate) fn tell_refused(rt: &HostRuntime, word: usize, number: u8) -> Told {
    let mut text = [0; NAME];
    let Ok(end) = put_name(rt, word, &mut text) else {
        return Told;
    };
    let mut room = [0; LINE];
    let mut line = Text {
        out: &mut room,
        end: 0,
    };
    line.append(&text[..end]);
    line.refused(number);
    let n = line.end;
    tell(rt, &room[..n])
}

// A new file of that name, which only its owner may open.
fn create(rt: &HostRuntime, name: &[u8]) -> Result<File, Error> {
    OpenOptions::new()
        .write(true)
        .create_new(true)
        .mode(0o600)
        .open(rt, path(name)?)
}

// A new file, with letters for the last six bytes of its name that no other file has there.
fn create_beside(rt: &HostRuntime, beside: &mut [u8]) -> Result<File, Error> {
    for _ in 0..1000 {
        let mut random = [0u8; 6];
        rt.fill_bytes(&mut random)?;
        put_letters(random, beside);
        match create(rt, beside) {
            Ok(file) => return Ok(file),
            Err(error) if error.kind() == ErrorKind::AlreadyExists => {}
            Err(error) => return Err(error),
        }
    }
    Err(Error::from_raw_os_error(TAKEN))
}

// Writes the bytes to a new file and has them flushed to the disk. The file is closed in any case.
fn fill(mut file: File, bytes: &[u8]) -> Result<(), Error> {
    file.write_all(bytes)?;
    file.sync_all()
}

fn fill_and_rename(
    rt: &HostRuntime,
    file: File,
    beside: &[u8],
    name: &[u8],
    bytes: &[u8],
) -> Result<(), Error> {
    fill(file, bytes)?;
    rename(rt, path(beside)?, path(name)?)
}

fn remove(rt: &HostRuntime, name: &[u8]) -> Result<(), Error> {
    remove_file(rt, path(name)?)
}

fn flush(rt: &HostRuntime, folder: &[u8]) -> Result<(), Error> {
    open_read(rt, folder)?.sync_all()
}

// The new name is on the disk once its folder is flushed. Where that fails (some folders may not be read, and some file systems flush none) nothing is
// reported: the name has the new image already, and after a crash it has the old one or the new one, whole.
fn flush_folder(rt: &HostRuntime, name: &[u8]) {
    let n = folder_length(name);
    let _ = if n == 0 {
        flush(rt, b".")
    } else {
        flush(rt, &name[..n])
    };
}

// A new file beside the named one is filled and flushed, and then takes its name, so that whoever looks finds the old bytes or the new ones, whole. Where
// that fails the new file goes again, and the old one stays; what failed is reported.
fn replace(rt: &HostRuntime, beside: &mut [u8], message: &[u8], bytes: &[u8]) -> Result<(), Told>
    requires { 6 ≤ length message.now }
{
    let name = &message[6..];
    let file = create_beside(rt, beside).map_err(|error| failed(rt, message, error))?;
    if let Err(error) = fill_and_rename(rt, file, beside, name, bytes) {
        let told = failed(rt, message, error);
        let _ = remove(rt, beside);
        return Err(told);
    }
    flush_folder(rt, name);
    Ok(())
}

// The file of that name holds these bytes; or it is as it was, and what failed is reported.
pub(crate) fn write_image(rt: &HostRuntime, word: usize, bytes: &[u8]) -> Result<(), Told> {
    let mut text = [0; NAME];
    let end = put_name(rt, word, &mut text)?;
    let message = &text[..end];
    let mut beside = [0; LINE];
    let n = put_beside(&message[6..], &mut beside);
    replace(rt, &mut beside[..n], message, bytes)
}
