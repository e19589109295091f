// Where the loop reads and writes, and nowhere else. No contract can say what a read brings or where a write goes, so these
// lines are to be believed: a piece is read once and handed on as it was read, what `advance` wrote is written once, and the
// answer of each call is kept as it is. Nothing else, in this crate or another, can make a `Got` or a `Sent`.
ghost use Rattle.std.specs.Prelude.{◌≡◌, ◌≤◌, length};
ghost use Rattle.stream.specs.Turns.{Moved, Within, Busy, PieceRead, PieceAnswered, Turned};

use super::{Flow, after_read, after_write, close, is_idle};
use lines::advance;
use std::io::{Read, Result, Write};

// What a read of the input answered: how many bytes it put at the start of the piece, none at the end of the input.
#[derive(Clone, Copy)]
pub struct Got {
    answer: Result<usize>,
}

impl Got {
    pub fn answer(self) -> Result<usize>
        ensures { result ≡ self.answer }
    {
        self.answer
    }
}

fn read<R: Read>(input: &mut R, piece: &mut [u8]) -> Got
    ensures { Moved (length piece.old) result.answer }
{
    Got {
        answer: input.read(piece),
    }
}

// How many bytes were handed to the output, and what it answered: that it took them all, or why not.
#[derive(Clone, Copy)]
pub struct Sent {
    bytes: usize,
    taken: Result<()>,
}

impl Sent {
    pub fn bytes(self) -> usize
        ensures { result ≡ self.bytes }
    {
        self.bytes
    }

    pub fn taken(self) -> Result<()>
        ensures { result ≡ self.taken }
    {
        self.taken
    }
}

// The first n bytes of the buffer, handed to the output.
pub fn write_first<W: Write>(output: &mut W, n: usize, out: &[u8]) -> Sent
    requires { n ≤ length out.now }
    ensures { result.bytes ≡ n }
{
    let part = &out[..n];
    Sent {
        bytes: part.len(),
        taken: output.write_all(part),
    }
}

// The next piece of the input.
fn read_piece<R: Read>(input: &mut R, flow: Flow, piece: &mut [u8]) -> Flow
    requires { 1 ≤ length piece.old }
    ensures { PieceRead flow piece.old result piece.new }
{
    let got = read(input, piece);
    after_read(flow, piece, got)
}

// What is left of the piece answered, as far as the buffer has room, and what was written into the buffer handed to the output.
fn answer_piece<W: Write>(
    output: &mut W,
    flow: Flow,
    area: &mut [u8],
    piece: &[u8],
    out: &mut [u8],
) -> Flow
    requires { Within flow piece.now }
    ensures { PieceAnswered flow area.old piece.now out.old result area.new out.new }
{
    let run = flow.run;
    let from = flow.from;
    let to = flow.to;
    let p = advance(run, area, &piece[from..to], out);
    let sent = write_first(output, p.written, out);
    after_write(flow, p, sent)
}

// One turn: what is unread is answered; idle, the next piece is read; behind the end of the input none is.
pub fn turn<R: Read, W: Write>(
    input: &mut R,
    output: &mut W,
    flow: Flow,
    area: &mut [u8],
    piece: &mut [u8],
    out: &mut [u8],
) -> Flow
    requires { Busy flow piece.old }
    ensures { Turned flow area.old piece.old out.old result area.new piece.new out.new }
{
    if !is_idle(flow) {
        return answer_piece(output, flow, area, piece, out);
    }
    if flow.closed {
        return close(flow, piece);
    }
    read_piece(input, flow, piece)
}
