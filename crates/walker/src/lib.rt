// The walker: it keeps the lent area and the number of the next row, and hands out the rows one after another, as an
// iterator. What it does is thin; the work is in functions on the slice and the number.
#![tactic(auto)]

ghost use Rattle.std.specs.Prelude.{◌≡◌};
ghost use Rattle.walker.specs.Walk.{Walkable, begun, started, go_on_at, resumed, handed, Moves, rows_ahead};

use area::MOST_ROWS;
use area::check::check;
use rows::Row;
use table::{permission_at, row_at, rows_used};

// `Walkable` is no ghost field of it: `started`, `resumed` and `moved` say which walker there is, and would each need its proof inside.
#[derive(Clone, Copy)]
pub struct Walker<'a> {
    pub area: &'a [u8],
    pub next: usize,
}

// A row with its permission.
#[derive(Clone, Copy)]
pub struct Handed {
    pub permission: u32,
    pub row: Row,
}

// A bad area is not walked.
#[derive(Clone, Copy, Debug)]
pub struct BadArea;

// The number of the first row.
fn begin(a: &[u8]) -> Result<usize, BadArea>
    ensures { result ≡ begun a.now }
{
    if !check(a) {
        return Err(BadArea);
    }
    Ok(0)
}

// The number that a walk goes on with: of a bad area one that no row ever has.
fn go_on_at(a: &[u8], next: usize) -> usize
    ensures { result ≡ go_on_at a.now next }
{
    if !check(a) {
        return MOST_ROWS;
    }
    next
}

// The row of a number.
fn hand(a: &[u8], next: usize) -> Option<Handed>
    requires { Walkable a.now next }
    ensures { result ≡ handed a.now next }
{
    if next < MOST_ROWS && next < rows_used(a) {
        return Some(Handed {
            permission: permission_at(a, next) as u32,
            row: row_at(a, next),
        });
    }
    None
}

pub fn start(area: &[u8]) -> Result<Walker<'_>, BadArea>
    ensures { result ≡ started area.entry }
{
    let next = begin(area)?;
    Ok(Walker { area, next })
}

// A walker at a number that one had come to. The area is checked anew, since nobody kept it in between.
pub fn resume(area: &[u8], next: usize) -> Walker<'_>
    ensures { result ≡ resumed area.entry next }
{
    let at = go_on_at(area, next);
    Walker { area, next: at }
}

impl Iterator for Walker<'_> {
    type Item = Handed;

    ghost can_next = { λ w. Walkable w.area.now w.next };

    ghost next_gives = { Moves };

    ghost remaining = { rows_ahead };

    // After the last row there is none, and the number stays.
    fn next(&mut self) -> Option<Handed> {
        let handed = hand(self.area, self.next)?;
        self.next += 1;
        Some(handed)
    }
}

// The row of a number, by a walker that stands there.
pub fn row_of(area: &[u8], row: usize) -> Option<Handed>
    requires { Walkable area.now row }
    ensures { result ≡ handed area.now row }
{
    Walker { area, next: row }.next()
}
