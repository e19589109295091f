// The line program, from a piece of its input to the bytes written for it.
#![tactic(auto)]

ghost use Rattle.std.specs.Prelude.{◌≡◌, ◌-◌, ◌≤◌, ◌&&◌, nat_le, nat_lt};
ghost use Rattle.area.specs.Layout.{most_rows};
ghost use Rattle.answers.specs.Texts.{most_text};
ghost use Rattle.lines.specs.Run.{row_number, before, Ready, Comes, RestShown, Advanced};
ghost use Rattle.lines.specs.Program.{Starts};

use answers::show::from_row;
use answers::{MOST_TEXT, answer};
use area::MOST_ROWS;
use split::{Splitter, asked};
use text::line_end;

// The line so far, its number, and the next row to be shown. No row has a number from MOST_ROWS on.
#[derive(Clone, Copy)]
pub struct Run {
    pub line: Splitter,
    pub number: u64,
    pub row: Option<usize>,
}

impl Run {
    // Whether rows may be left to be shown.
    pub fn is_showing(self) -> bool
        ensures { result ≡ nat_lt (row_number self.row) most_rows }
    {
        self.row.is_some_and(|row| row < MOST_ROWS)
    }
}

// Where a run has come to: how many bytes of the piece are read, and how many of the buffer written.
#[derive(Clone, Copy)]
pub struct Progress {
    pub run: Run,
    pub read: usize,
    pub written: usize,
}

impl Progress {
    fn before(run: Run) -> Progress
        ensures { result ≡ before run }
    {
        Progress {
            run,
            read: 0,
            written: 0,
        }
    }
}

// Before the first byte, on whatever area.
pub fn start() -> Run
    ensures { Starts result }
{
    Run {
        line: Splitter::new(),
        number: 1,
        row: None,
    }
}

// The rows left to be shown, by a walker that goes on at the number that the run kept.
fn show_rest(run: Run, area: &[u8], out: &mut [u8]) -> Progress
    ensures { RestShown run area.now out.old result out.new }
{
    let Some(row) = run.row else {
        return Progress::before(run);
    };
    let shown = from_row(area, row, out, 0);
    Progress {
        run: Run {
            row: shown.row,
            ..run
        },
        read: 0,
        written: shown.written,
    }
}

// The next line read and answered, and after an S the rows shown; where it does not end in the piece, its bytes are kept.
fn read_line(p: Progress, area: &mut [u8], piece: &[u8], out: &mut [u8]) -> Progress
    requires { Ready p piece.now out.old }
    ensures { Comes p area.old piece.now out.old result area.new out.new }
{
    let run = p.run;
    let end = line_end(piece, p.read);
    let part = &piece[p.read..end];
    if end == piece.len() {
        return Progress {
            run: Run {
                line: run.line.then(part),
                ..run
            },
            read: end,
            ..p
        };
    }
    let shown = answer(area, asked(run.line, part), run.number, out, p.written);
    Progress {
        run: Run {
            line: Splitter::new(),
            number: run.number.wrapping_add(1),
            row: shown.row,
        },
        read: end + 1,
        written: shown.written,
    }
}

// Whether a line is to be read, where the piece has so many bytes and the buffer so much room. Called at one place, so the three have
// no struct of their own.
fn goes_on(p: Progress, bytes: usize, room: usize) -> bool
    requires { p.written ≤ room }
    ensures { result ≡ (nat_le most_text (room - p.written) && nat_lt p.read bytes) }
{
    (MOST_TEXT <= room - p.written) & (p.read < bytes)
}

// Rows shown, and lines of the piece read and answered, as long as there is something to do and room for it. Each turn changes
// the place, the area and the buffer, so there is nothing for an iterator to yield.
pub fn advance(run: Run, area: &mut [u8], piece: &[u8], out: &mut [u8]) -> Progress
    ensures { Advanced run area.old piece.now out.old result area.new out.new }
{
    let room = out.len();
    if room < MOST_TEXT {
        return Progress::before(run);
    }
    let mut p = show_rest(run, area, out);
    while goes_on(p, piece.len(), room) {
        p = read_line(p, area, piece, out);
    }
    p
}
