// Input bytes as lines: the line so far, and where a line ends.
#![tactic(auto)]

ghost use Rattle.std.specs.Prelude.{◌≡◌, ◌+◌, drop};
ghost use Rattle.split.specs.Split.{none, is_none, held_all, said, held_in};

use requests::{MOST_BYTES, Request, read_request};
pub use text::line_end;

// The line so far: the first `len` of `bytes`. A `len` above MOST_BYTES says that it is too long: any `len` can stand here, and no
// Option beside it would say what one above MOST_BYTES means.
#[derive(Clone, Copy)]
pub struct Splitter {
    pub bytes: [u8; MOST_BYTES],
    pub len: usize,
}

impl Splitter {
    // No byte yet.
    pub fn new() -> Splitter
        ensures { held_in result ≡ none }
    {
        Splitter {
            bytes: [0u8; MOST_BYTES],
            len: 0,
        }
    }

    pub fn is_empty(self) -> bool
        ensures { result ≡ is_none (held_in self) }
    {
        self.len == 0
    }

    // With more bytes of the line.
    pub fn then(self, piece: &[u8]) -> Splitter
        ensures { held_in result ≡ held_all (held_in self) piece.now }
    {
        let at = self.len;
        if MOST_BYTES < at {
            return self;
        }
        let mut bytes = self.bytes;
        if MOST_BYTES - at < piece.len() {
            return Splitter {
                bytes,
                len: MOST_BYTES + 1,
            };
        }
        let len = at + piece.len();
        bytes[at..len].copy_from_slice(piece);
        Splitter { bytes, len }
    }

    // The request that the line says, at its end.
    pub fn said(self) -> Request
        ensures { result ≡ said (held_in self) }
    {
        let Some(line) = self.bytes.get(..self.len) else {
            return Request::Unreadable;
        };
        read_request(line)
    }
}

// The request that a whole line says. Its bytes are read where they stand.
fn said_whole(line: &[u8]) -> Request
    ensures { result ≡ said (held_all none line.now) }
{
    if MOST_BYTES < line.len() {
        return Request::Unreadable;
    }
    read_request(line)
}

// The request that a line says, where `rest` is what comes behind the line so far.
pub fn asked(line: Splitter, rest: &[u8]) -> Request
    ensures { result ≡ said (held_all (held_in line) rest.now) }
{
    if line.is_empty() {
        return said_whole(rest);
    }
    line.then(rest).said()
}
