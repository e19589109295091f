// An area as lines that the line program reads: one call writes the O line, another the lines of one row, into a lent
// buffer. `write` has the lines as text.
#![tactic(auto)]

mod write;

ghost use Rattle.written.specs.Print.{Prints};
ghost use Rattle.written.specs.Result.{written_of};
ghost use Rattle.print.specs.Print.{print_open_of, print_row_of};

use area::check::check;
use table::{policy_state, role_count};
use text::Page;
use walker::row_of;
use write::{write_open, write_row};
use written::Refusal;

// A buffer of so many bytes is asked for; no text of a call is longer.
const LEAST_ROOM: usize = 4096;

// The O line: how many bytes it has.
pub fn print_open(area: &[u8], out: &mut [u8]) -> Result<u32, Refusal>
    ensures { Prints (print_open_of area.now out.old) (written_of result) out.new }
{
    if !check(area) {
        return Err(Refusal::BadArea);
    }
    if out.len() < LEAST_ROOM {
        return Err(Refusal::ShortBuffer);
    }
    let mut page = Page::new(out, 0);
    write_open(&mut page, role_count(area), policy_state(area));
    Ok(page.at as u32)
}

// The lines of the row of a number, each with the area's policy state: how many bytes they have.
pub fn print_row(area: &[u8], row: u64, out: &mut [u8]) -> Result<u32, Refusal>
    ensures { Prints (print_row_of area.now row out.old) (written_of result) out.new }
{
    if !check(area) {
        return Err(Refusal::BadArea);
    }
    let Some(handed) = row_of(area, row as usize) else {
        return Err(Refusal::NoRow);
    };
    if out.len() < LEAST_ROOM {
        return Err(Refusal::ShortBuffer);
    }
    let mut page = Page::new(out, 0);
    write_row(&mut page, handed.permission, handed.row, policy_state(area));
    Ok(page.at as u32)
}
