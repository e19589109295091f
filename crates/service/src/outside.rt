// Where the program meets the system beside `files`, which reads files and says messages, and `stream::outside`, which has the
// lines and the output: where it writes files. No contract can say what is in a file, so these lines are to be believed: each
// call is made once, on the name that is handed in, and its answer is kept as it is. Nothing else can make a `Made`, and nothing takes a
// `StoreError`.
ghost use Rattle.std.specs.Prelude.{◌≡◌, true, false, T, pos};
ghost use Rattle.std.specs.Int.Signed.{le_z, lt_z};
ghost use Rattle.area.specs.Layout.{good_bytes};

use super::Names;
use files::outside::path_of;
use std::fs;
use std::fs::{File, OpenOptions};
use std::io::{Error, Write};
use std::os::fd::AsRawFd;

// The descriptor of standard error, the last of the three that lines, answers and messages go by.
const LAST_STANDARD: i32 = 2;

// The system's number for a call on no open file.
const NO_FILE: i32 = 9;

// The new file, while it is open, and its descriptor, which is none of the three that lines, answers and messages go by. It is closed
// before it is renamed, and `remove` takes the same `Made` after that, so the file is an Option.
#[derive(Drop)]
pub struct Made {
    file: Option<File>,
    fd: i32,
    ghost apart: { lt_z (pos 2) fd ≡ true },
}

// A new file that got the number of standard input, output or error, as that one is closed. It stays open until that is told:
// closed before, a standard error that it stands for would be gone for the message.
#[derive(Drop)]
pub struct Closed {
    _file: File,
    fd: i32,
    ghost made: { le_z (pos 0) fd ≡ true },
    ghost closed: { lt_z (pos 2) fd ≡ false },
}

// Why there is no new file: the system refused; or standard input, output or error is closed, so that the new file got its
// number, and what is read or written there.
#[derive(Drop)]
pub enum MakeError {
    Refused(Error),
    StandardClosed(Closed),
}

// A new file, where none of that name is.
pub fn make(rt: &HostRuntime, new: &[u8]) -> Result<Made, MakeError> {
    let file = create(rt, new).map_err(MakeError::Refused)?;
    let fd = file.as_raw_fd();
    // No system gives a number below 0, so there is no file then.
    if fd < 0 {
        return Err(MakeError::Refused(Error::from_raw_os_error(NO_FILE)));
    }
    if fd <= LAST_STANDARD {
        return Err(MakeError::StandardClosed(Closed { _file: file, fd }));
    }
    Ok(Made {
        file: Some(file),
        fd,
    })
}

fn create(rt: &HostRuntime, new: &[u8]) -> std::io::Result<File> {
    let path = path_of(new)?;
    OpenOptions::new()
        .write(true)
        .create_new(true)
        .open(rt, path)
}

// What making gives where there is a new file.
pub trait NewFile {}

impl NewFile for Made {}

impl NewFile for Closed {}

// The new file is taken away again.
pub fn remove<F: NewFile>(rt: &HostRuntime, _file: &F, new: &[u8]) {
    if let Ok(path) = path_of(new) {
        let _ = fs::remove_file(rt, path);
    }
}

// Why an area is not stored: the new file does not have all of it, or not the old one's place.
#[derive(Clone, Copy)]
pub enum StoreError {
    Write(Error),
    Rename(Error),
}

// All of a good area in the new file, and on the disk; the file is then closed.
fn write_new(made: &mut Made, area: &[u8]) -> std::io::Result<()>
    requires { T (good_bytes area.now) }
{
    let Some(mut file) = made.file.take() else {
        return Err(Error::from_raw_os_error(NO_FILE));
    };
    file.write_all(area)?;
    file.sync_all()
}

fn rename(rt: &HostRuntime, new: &[u8], name: &[u8]) -> std::io::Result<()> {
    fs::rename(rt, path_of(new)?, path_of(name)?)
}

// A good area in the place of the old one: written to the new file first, and then that renamed.
pub fn store(rt: &HostRuntime, made: &mut Made, area: &[u8], names: Names) -> Result<(), StoreError>
    requires { T (good_bytes area.now) }
{
    write_new(made, area).map_err(StoreError::Write)?;
    rename(rt, names.new.bytes, names.area.told.bytes).map_err(StoreError::Rename)
}
