// The sheet for the wall: what is known of one permission, with the names of the roles. It knows the area by the cache's look alone.
#![tactic(auto)]

mod write;

ghost use Rattle.std.specs.Prelude.{◌≡◌, ◌↔◌, cond, eqb, IsTrue, Err};
ghost use Rattle.calls.specs.declared.Refusal.TheVariants.{BadArea};
ghost use Rattle.calls.specs.Answers.{refusal_number};
ghost use Rattle.written.specs.Print.{Prints};
ghost use Rattle.written.specs.Result.{number_of, written_of};
ghost use Rattle.sheet.specs.Sheet.{sheet_of};

use cache::{Looked, look};
use names::Names;
use text::Page;
use write::write_sheet;
use written::Refusal;

// A buffer of so many bytes is asked for; no sheet is longer.
const SHEET_BYTES: usize = 36864;

// The one refusal of a look that comes before that of the tables.
fn is_of_bad_area(looked: &Result<Looked, calls::Refusal>) -> bool
    ensures { IsTrue result ↔ (looked.now ≡ Err BadArea) }
{
    matches!(looked, Err(calls::Refusal::BadArea))
}

// Those that come behind it: no permission, and else an unknown role.
fn refused_behind(refusal: calls::Refusal) -> Refusal
    ensures { number_of result ≡ cond (eqb (refusal_number refusal) 3) 3 4 }
{
    match refusal {
        calls::Refusal::NoPermission => Refusal::NoPermission,
        _ => Refusal::UnknownRole,
    }
}

// The sheet of a permission for a session: how many bytes it has. Refusals in the order 1, 17, 3, 4, 16.
pub fn sheet<'a>(
    area: &[u8],
    works: &'a [u8],
    standard: &'a [u8],
    p: u32,
    s: u64,
    out: &mut [u8],
) -> Result<u32, Refusal>
    ensures { Prints (sheet_of area.now works.now standard.now p s out.old) (written_of result) out.new }
{
    let looked = look(area, p, s);
    if is_of_bad_area(&looked) {
        return Err(Refusal::BadArea);
    }
    let Some(names) = Names::new(works, standard) else {
        return Err(Refusal::BadNameTable);
    };
    let looked = match looked {
        Ok(looked) => looked,
        Err(refusal) => return Err(refused_behind(refusal)),
    };
    if out.len() < SHEET_BYTES {
        return Err(Refusal::ShortBuffer);
    }
    let mut page = Page::new(out, 0);
    write_sheet(&mut page, names, looked.row, looked.verdict);
    Ok(page.at as u32)
}
