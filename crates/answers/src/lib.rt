// Requests answered on the lent area, and their answers written. `show` has the rows after an S, `write` answers and rows as
// text.
#![tactic(auto)]

pub mod show;
pub mod write;

ghost use Rattle.std.specs.Prelude.{◌+◌, ◌≤◌, length};
ghost use Rattle.answers.specs.Answers.{Answers};
ghost use Rattle.answers.specs.Texts.{most_text, with_role};
ghost use Rattle.answers.specs.Show.{OnlyAnswer};

use calls::{Numbered, role};
use requests::Request;
use roles::MOST_ROLES;
use show::{Shown, from_start};
use text::Page;
use write::write_decided;

// No answer and no row is longer.
pub const MOST_TEXT: usize = 4096;

// What a line is answered that can't be read: Rules, Answers. A number, since no call gives it.
const UNREADABLE: u32 = 9;

// An answer written, with the role to ask about; no rows follow.
fn write_only(out: &mut [u8], at: usize, line: u64, answer: u32, role: u64) -> Shown
    requires { at + most_text ≤ length out.old }
    ensures { OnlyAnswer line (with_role answer role) at out.old result out.new }
{
    let mut page = Page::new(out, at);
    write_decided(&mut page, line, answer, role);
    Shown {
        row: None,
        written: page.at,
    }
}

// A request answered by its call and the answer written; after S the rows too, as far as there is room.
pub fn answer(area: &mut [u8], q: Request, line: u64, out: &mut [u8], at: usize) -> Shown
    requires { at + most_text ≤ length out.old }
    ensures { Answers area.old q line at out.old result area.new out.new }
{
    match q {
        Request::Open(n, g) => {
            let opened = cache::open(area, n, g);
            write_only(out, at, line, opened.number(), MOST_ROLES)
        }
        Request::Told(e) => {
            let kept = cache::tell(area, e);
            write_only(out, at, line, kept.number(), MOST_ROLES)
        }
        Request::Decide(p, s) => {
            let decided = cache::decide(area, p, s.bits);
            write_only(out, at, line, decided.number(), role(decided))
        }
        Request::Forget(p) => {
            let forgotten = cache::forget(area, p);
            write_only(out, at, line, forgotten.number(), MOST_ROLES)
        }
        Request::Show => from_start(area, line, out, at),
        Request::Unreadable => write_only(out, at, line, UNREADABLE, MOST_ROLES),
    }
}
