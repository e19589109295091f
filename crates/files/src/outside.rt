// Where a program for people meets the system: arguments, messages, files and standard input read. No contract can say what is in
// a file, so these lines are to be believed: each call is made once, on the name that is handed in, and its answer is kept as it
// is. Nothing else can make a `Loaded`, and no function but `why` takes a `LoadError`.
ghost use Rattle.std.specs.Prelude.{◌≡◌, length, Some, pos, IsUtf8, MatchResult};
ghost use Rattle.std.specs.IoError.{raw_os_error};
ghost use Rattle.io.specs.Counts.{IsPrefixLen};
ghost use Rattle.files.specs.Loading.{ReadInto, LoadedInto, reason_of};

use std::env::FillError;
use std::fmt::InlineText;
use std::fs::File;
use std::io::{Error, ErrorKind, Read};
use std::rt::{Env, Files};

// How many arguments there are, the program's own name among them. `find` would be no plainer: each step asks the system.
pub fn argument_count<E: Env>(env: &E) -> usize {
    for i in 0..usize::MAX {
        match env.arg(i, &mut []) {
            Err(FillError::NotPresent) => return i,
            _ => {}
        }
    }
    usize::MAX
}

// The argument of a number, at the start of the buffer, and its length; 0 where it is longer than the buffer: no
// word, name, number or set is empty, so each user refuses that in the case that it has for an empty one.
pub fn argument<E: Env>(env: &E, i: usize, buf: &mut [u8]) -> usize
    ensures { IsPrefixLen result buf.new }
{
    env.arg(i, buf).unwrap_or(0)
}

// A line to standard error.
pub fn say<P: Print>(errors: &P, line: &[u8]) {
    let _ = errors.write_all(line);
}

// A line to standard error: what was refused, and why.
pub fn say_why<P: Print>(errors: &P, what: &[u8], why: Error) {
    let told: InlineText<128> = InlineText::of(why);
    say(errors, what);
    say(errors, b": ");
    say(errors, reason(told.as_str()).as_bytes());
    say(errors, b"\n");
}

// Behind the system's own words std has a number.
fn reason(told: &str) -> &str {
    match told.split_once(" (os error ") {
        Some((words, _)) => words,
        None => told,
    }
}

// The system's number for bytes that are no text.
const NO_TEXT: i32 = 84;

// A name as the system is asked for it: std takes text alone, so other bytes name nothing that could be opened.
pub fn path_of(name: &[u8]) -> std::io::Result<&str>
    ensures { MatchResult result (λ path. (path.now ≡ name.now) × IsUtf8 name.now) (λ e. ¬ (IsUtf8 name.now) × (raw_os_error e ≡ Some (pos 84))) }
{
    match std::str::from_utf8(name) {
        Ok(path) => Ok(path),
        Err(_) => Err(Error::from_raw_os_error(NO_TEXT)),
    }
}

// How many bytes of a file stand at the start of the buffer that was lent for it.
#[derive(Clone, Copy)]
pub struct Loaded {
    bytes: usize,
}

impl Loaded {
    pub fn bytes(self) -> usize
        ensures { result ≡ self.bytes }
    {
        self.bytes
    }
}

// Why a file is not loaded: there is none of that name, or the system refused to open or to read it.
#[derive(Clone, Copy)]
pub enum LoadError {
    Missing(Error),
    Refused(Error),
}

impl LoadError {
    pub fn why(self) -> Error
        ensures { result ≡ reason_of self }
    {
        match self {
            LoadError::Missing(why) => why,
            LoadError::Refused(why) => why,
        }
    }
}

// Reads until the buffer is full, the file ends or a read fails. A read gives any number of bytes, so no index is counted.
fn read_all<F: Read>(file: &mut F, buf: &mut [u8]) -> std::io::Result<Loaded>
    ensures { ReadInto buf.old result buf.new }
{
    let mut bytes = 0;
    while bytes < buf.len() {
        let got = file.read(&mut buf[bytes..])?;
        if got == 0 {
            break;
        }
        bytes += got;
    }
    Ok(Loaded { bytes })
}

// Standard input, as far as the buffer takes it.
pub fn read_input<F: Read>(input: &mut F, buf: &mut [u8]) -> std::io::Result<Loaded>
    ensures { ReadInto buf.old result buf.new }
{
    read_all(input, buf)
}

// The file of a name, as far as the buffer takes it.
pub fn load<R: Files>(files: &R, name: &[u8], buf: &mut [u8]) -> Result<Loaded, LoadError>
    ensures { LoadedInto buf.old result buf.new }
{
    match open_read(files, name) {
        Ok(mut file) => read_all(&mut file, buf).map_err(LoadError::Refused),
        Err(why) if why.kind() == ErrorKind::NotFound => Err(LoadError::Missing(why)),
        Err(why) => Err(LoadError::Refused(why)),
    }
}

fn open_read<R: Files>(files: &R, name: &[u8]) -> std::io::Result<R::File> {
    File::open(files, path_of(name)?)
}
