// What C calls: the calls of `cache`, `print` and `sheet`, with the answers as numbers. `include/wickthrush.h` declares them; each is
// a name of C's own, however alike they look.
#![tactic(auto)]

ghost use Rattle.std.specs.Prelude.{◌≡◌};
ghost use Rattle.calls.specs.Calls.{open_of, event_of, decide_of, forget_of};
ghost use Rattle.written.specs.Print.{Prints};
ghost use Rattle.print.specs.Print.{print_open_of, print_row_of};
ghost use Rattle.sheet.specs.Sheet.{sheet_of};
ghost use Rattle.wickthrush.specs.Numbers.{Returns, decided_of};

use calls::{Numbered, role};
use print::{print_open, print_row};
use sheet::sheet;
use written::Written;

#[unsafe(no_mangle)]
pub extern "C" fn wickthrush_open(area: &mut [u8], roles: u64, state: u32) -> u32
    ensures { Returns (open_of area.old roles state) result area.new }
{
    cache::open(area, roles, state).number()
}

#[unsafe(no_mangle)]
pub extern "C" fn wickthrush_event(
    area: &mut [u8],
    permission: u32,
    kind: u64,
    number: u64,
    state: u32,
) -> u32
    ensures { Returns (event_of area.old permission kind number state) result area.new }
{
    cache::event(area, permission, kind, number, state).number()
}

// `wickthrush_decided` of the header. C gets it by value, so that a caller who takes it for the answer does not compile.
#[repr(C)]
#[derive(Clone, Copy)]
pub struct Decided {
    pub answer: u32,
    pub role: u32,
}

#[unsafe(no_mangle)]
pub extern "C" fn wickthrush_decide(area: &[u8], permission: u32, set: u64) -> Decided
    ensures { decided_of result ≡ decide_of area.now permission set }
{
    let decided = cache::decide(area, permission, set);
    Decided {
        answer: decided.number(),
        role: role(decided) as u32,
    }
}

#[unsafe(no_mangle)]
pub extern "C" fn wickthrush_forget(area: &mut [u8], permission: u32) -> u32
    ensures { Returns (forget_of area.old permission) result area.new }
{
    cache::forget(area, permission).number()
}

#[unsafe(no_mangle)]
pub extern "C" fn wickthrush_print_open(area: &[u8], out: &mut [u8]) -> Written
    ensures { Prints (print_open_of area.now out.old) result out.new }
{
    Written::from(print_open(area, out))
}

#[unsafe(no_mangle)]
pub extern "C" fn wickthrush_print_row(area: &[u8], row: u64, out: &mut [u8]) -> Written
    ensures { Prints (print_row_of area.now row out.old) result out.new }
{
    Written::from(print_row(area, row, out))
}

// Both tables have one lifetime: a name is a part of one of them.
#[unsafe(no_mangle)]
pub extern "C" fn wickthrush_sheet<'a>(
    area: &[u8],
    works: &'a [u8],
    standard: &'a [u8],
    permission: u32,
    session: u64,
    out: &mut [u8],
) -> Written
    ensures { Prints (sheet_of area.now works.now standard.now permission session out.old) result out.new }
{
    Written::from(sheet(area, works, standard, permission, session, out))
}
