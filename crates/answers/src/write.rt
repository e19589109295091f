// The texts that the program writes, on a page.
ghost use Rattle.meaning.specs.Rows.{most_opens, bare};
ghost use Rattle.rows.specs.Stored.{Tidy, row_of};
ghost use Rattle.area.specs.State.{entry};
ghost use Rattle.text.specs.Page.{Room, Adds};
ghost use Rattle.answers.specs.Texts.{with_role, role_text, answer_text, sets_text, row_text};

use roles::{MOST_ROLES, RoleSet};
use rows::Row;
use text::{Page, Text};

// A space and the role to ask about; nothing where there is none.
fn write_role(page: &mut Page<'_>, role: u64)
    requires { Room page.old (role_text role) }
    ensures { Adds page.old (role_text role) page.new }
{
    if role < MOST_ROLES {
        page.field(role);
    }
}

// The answer to a line: its number, a space, the answer, the role where there is one, LF.
#[tactic(auto, unfolding(crate::specs::Texts::answer_text))]
pub fn write_decided(page: &mut Page<'_>, number: u64, answer: u32, role: u64)
    requires { Room page.old (answer_text number (with_role answer role)) }
    ensures { Adds page.old (answer_text number (with_role answer role)) page.new }
{
    number.write(page);
    page.push(b' ');
    answer.write(page);
    write_role(page, role);
    page.push(b'\n');
}

// The same of an answer that has no role.
pub fn write_answer(page: &mut Page<'_>, number: u64, answer: u32)
    requires { Room page.old (answer_text number (bare answer)) }
    ensures { Adds page.old (answer_text number (bare answer)) page.new }
{
    write_decided(page, number, answer, MOST_ROLES);
}

// The sets of a row, a space before each. `print::write_opens` is a loop over sets too: as one function of a closure, which would need a
// contract of its own, they would be no plainer.
fn write_sets(page: &mut Page<'_>, sets: &[u64])
    requires { Room page.old (sets_text sets.now) }
    ensures { Adds page.old (sets_text sets.now) page.new }
{
    for bits in sets {
        page.field(RoleSet { bits: *bits });
    }
}

// A row: `= p denied open open ..`, LF.
#[tactic(auto, unfolding(crate::specs::Texts::row_text, crate::specs::Texts::sets_text))]
pub fn write_row(page: &mut Page<'_>, p: u32, w: Row)
    requires { Tidy most_opens w.opens × Room page.old (row_text (entry p (row_of w))) }
    ensures { Adds page.old (row_text (entry p (row_of w))) page.new }
{
    page.push(b'=');
    page.field(p);
    page.field(w.denied);
    write_sets(page, w.opens.held());
    page.push(b'\n');
}
