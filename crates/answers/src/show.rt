// The rows of an area shown: one walker goes from row to row, as long as it has a row and the buffer has room for one.
ghost use Rattle.std.specs.Prelude.{◌+◌, ◌≤◌, length};
ghost use Rattle.meaning.specs.Rows.{bare};
ghost use Rattle.walker.specs.Walk.{Walkable, first_row, start_answer, go_on_at};
ghost use Rattle.answers.specs.Texts.{most_text};
ghost use Rattle.answers.specs.Show.{RowsShown, AnswerShown};

use super::write::{write_answer, write_row};
use super::{MOST_TEXT, write_only};
use area::MOST_ROWS;
use calls::{Kept, Numbered, Refusal};
use roles::MOST_ROLES;
use text::Page;
use walker::{BadArea, Walker, resume, start};

// Where showing rows has come to: the row to go on with, if one may be left, and how much of the buffer is written. The calls that give
// it take a buffer and a place: over a page each of `RowsShown`, `OnlyAnswer`, `AnswerShown` and `Answers`, of which the theorems of
// proofs/OneOutcome.antt speak, would need a second definition beside it.
#[derive(Clone, Copy)]
pub struct Shown {
    pub row: Option<usize>,
    pub written: usize,
}

// The rows from the walker's on, while there is one and room for it. No `for`: it asks for a row before the room is tested, and a row
// that was asked for is passed.
fn walk(mut walker: Walker<'_>, out: &mut [u8], at: usize) -> Shown
    requires { Walkable walker.area.now walker.next × (at ≤ length out.old) }
    ensures { RowsShown walker.entry.area.now walker.entry.next at out.old result out.new }
{
    let mut page = Page::new(out, at);
    while MOST_TEXT <= page.out.len() - page.at {
        let Some(handed) = walker.next() else {
            return Shown {
                row: None,
                written: page.at,
            };
        };
        write_row(&mut page, handed.permission, handed.row);
    }
    let row = walker.next;
    Shown {
        row: (row < MOST_ROWS).then_some(row),
        written: page.at,
    }
}

// The answer to S, which is that to the start of a walker, and the rows that the walker hands out.
pub fn from_start(area: &[u8], line: u64, out: &mut [u8], at: usize) -> Shown
    requires { at + most_text ≤ length out.old }
    ensures { AnswerShown line (bare (start_answer area.now)) area.now (first_row area.now) at out.old result out.new }
{
    match start(area) {
        Ok(walker) => {
            let mut page = Page::new(out, at);
            write_answer(&mut page, line, Kept::Recorded.number());
            let written = page.at;
            walk(walker, out, written)
        }
        Err(BadArea) => write_only(out, at, line, Refusal::BadArea.number(), MOST_ROLES),
    }
}

// The rows from a number on, by a walker that goes on there.
pub fn from_row(area: &[u8], row: usize, out: &mut [u8], at: usize) -> Shown
    requires { at ≤ length out.old }
    ensures { RowsShown area.now (go_on_at area.now row) at out.old result out.new }
{
    walk(resume(area, row), out, at)
}
