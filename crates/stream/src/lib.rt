// An input answered to an output, standard ones in the programs, on whatever area is lent. What is written for which input is proved in `lines`,
// and here that the loop writes it. To be believed is `outside`, where alone something is read or written, and the loop
// of `answer_input`: each turn takes the flow of the one before.
#![tactic(auto)]

pub mod outside;

ghost use Rattle.std.specs.Prelude.{◌≡◌, not, ◌&&◌, ◌+◌, ◌≤◌, leb, nat_lt, length};
ghost use Rattle.area.specs.Layout.{most_rows};
ghost use Rattle.answers.specs.Texts.{most_text};
ghost use Rattle.lines.specs.Run.{row_number};
ghost use Rattle.stream.specs.Turns.{Moved, fed, stopped, Closed, AfterRead, after_write};
ghost use Rattle.stream.specs.Moves.{Ran};

use lines::{Progress, Run, start};
use outside::{Got, Sent, turn};
use std::io::{Read, Write};

// Where the loop stands: it goes on; a read or a write failed, and nothing more is answered; all is answered.
#[derive(Clone, Copy, PartialEq, Eq)]
pub enum Stand {
    Running,
    Failed,
    Done,
}

// The run; the places of the piece from which and up to which it is to be read; whether a last line without LF has got one, beside
// which the loop may stand anywhere; where it stands.
#[derive(Clone, Copy)]
pub struct Flow {
    pub run: Run,
    pub from: usize,
    pub to: usize,
    pub closed: bool,
    pub stand: Stand,
}

// Whether all that came in is read, and all that is to be shown is shown.
fn is_idle(flow: Flow) -> bool
    ensures { result ≡ (not (nat_lt (row_number flow.run.row) most_rows) && leb flow.to flow.from) }
{
    !flow.run.is_showing() & (flow.to <= flow.from)
}

// The first n bytes of the piece are to be read.
fn feed(flow: Flow, n: usize, closed: bool) -> Flow
    ensures { result ≡ fed n closed flow }
{
    Flow {
        from: 0,
        to: n,
        closed,
        stand: Stand::Running,
        ..flow
    }
}

// The loop stops, with nothing left to be read.
fn stop(flow: Flow, stand: Stand) -> Flow
    ensures { result ≡ stopped stand flow }
{
    Flow {
        from: 0,
        to: 0,
        stand,
        ..flow
    }
}

// The input has ended: a last line without LF gets one, and where there is none, all is answered.
fn close(flow: Flow, piece: &mut [u8]) -> Flow
    requires { 1 ≤ length piece.old }
    ensures { Closed flow piece.old result piece.new }
{
    let run = flow.run;
    let line = run.line;
    if line.is_empty() {
        return stop(flow, Stand::Done);
    }
    piece[0] = b'\n';
    feed(flow, 1, true)
}

// By what a read answered: it failed, and what is held of a line need not be all of it, so it is not answered; the input has
// ended; or its bytes are the piece.
fn after_read(flow: Flow, piece: &mut [u8], got: Got) -> Flow
    requires { (1 ≤ length piece.old) × Moved (length piece.old) got.answer }
    ensures { AfterRead got.answer flow piece.old result piece.new }
{
    match got.answer() {
        Err(_) => stop(flow, Stand::Failed),
        Ok(0) => close(flow, piece),
        Ok(n) => feed(flow, n, false),
    }
}

// The piece is answered as far as p, and what p wrote was handed to the output.
fn after_write(flow: Flow, p: Progress, sent: Sent) -> Flow
    requires { (flow.from + p.read ≤ flow.to) × (sent.bytes ≡ p.written) }
    ensures { result ≡ after_write sent.taken flow p }
{
    let stand = match sent.taken() {
        Ok(()) => Stand::Running,
        Err(_) => Stand::Failed,
    };
    Flow {
        run: p.run,
        from: flow.from + p.read,
        stand,
        ..flow
    }
}

// Where the loop stopped, and how many turns it took.
#[derive(Clone, Copy)]
pub struct Ended {
    pub flow: Flow,
    pub turns: u64,
}

// All of the input, up to a failure. A proved loop has to end, so this one has as many turns as no run comes to. The area and the two
// buffers are lent one by one: each is said of alone, and a struct of the three would be made by each program for this call.
pub fn answer_input<R: Read, W: Write>(
    input: &mut R,
    output: &mut W,
    area: &mut [u8],
    piece: &mut [u8],
    out: &mut [u8],
) -> Ended
    requires { (1 ≤ length piece.old) × (most_text ≤ length out.old) }
    ensures { Ran area.old result.turns result.flow area.new piece.new }
{
    let mut flow = Flow {
        run: start(),
        from: 0,
        to: 0,
        closed: false,
        stand: Stand::Running,
    };
    for turns in 0..u64::MAX {
        if flow.stand != Stand::Running {
            return Ended { flow, turns };
        }
        flow = turn(input, output, flow, area, piece, out);
    }
    Ended {
        flow,
        turns: u64::MAX,
    }
}
