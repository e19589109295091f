// The sheet as text, on a page.
ghost use Rattle.std.specs.Prelude.{◌≡◌, false, [], ◌∷◌, ◌++◌, ◌+◌, ◌≤◌, ◌<◌, length};
ghost use Rattle.roles.specs.Sets.{most_roles, roles_of};
ghost use Rattle.meaning.specs.Lists.{keep};
ghost use Rattle.meaning.specs.Rows.{most_opens};
ghost use Rattle.rows.specs.Stored.{Tidy, row_of};
ghost use Rattle.text.specs.Ascii.{space, lf};
ghost use Rattle.text.specs.Page.{Room, Adds};
ghost use Rattle.calls.specs.Answers.{verdict_number};
ghost use Rattle.sheet.specs.Text.{alone, larger, roles_of_all, shown_by, names_text, parting, parted_text, answer_word, sheet_lines};

use names::Names;
use roles::RoleSet;
use rows::{Row, Verdict};
use text::Page;

// A role with a space before it: its name, or its number where no table names it.
fn write_role(page: &mut Page<'_>, names: Names, r: u64)
    requires { (r < most_roles) × Room page.old (space ∷ shown_by names r) }
    ensures { Adds page.old (space ∷ shown_by names.entry r) page.new }
{
    let name = names.of(r);
    if name.len() == 0 {
        page.field(r);
        return;
    }
    page.push(b' ');
    page.push_bytes(name);
}

// The roles of a set.
fn write_set(page: &mut Page<'_>, names: Names, s: RoleSet)
    requires { Room page.old (names_text (shown_by names) (roles_of s.bits)) }
    ensures { Adds page.old (names_text (shown_by names.entry) (roles_of s.bits)) page.new }
{
    for role in s.roles() {
        write_role(page, names, role);
    }
}

// Whether a set has one role.
fn is_alone(s: RoleSet) -> bool
    ensures { result ≡ alone s.bits }
{
    u64::count_ones(s.bits) == 1
}

// The open sets of one role, one behind the other. `write_open` goes over them too, but parts what it writes: as one function of
// two closures they would be no plainer.
fn write_proved(page: &mut Page<'_>, names: Names, sets: &[u64])
    requires { Room page.old (names_text (shown_by names) (roles_of_all (keep alone sets.now))) }
    ensures { Adds page.old (names_text (shown_by names.entry) (roles_of_all (keep alone sets.now))) page.new }
{
    for bits in sets {
        let s = RoleSet { bits: *bits };
        if is_alone(s) {
            write_set(page, names, s);
        }
    }
}

// A set, behind ` ;` where others stand before it.
fn write_parted(page: &mut Page<'_>, names: Names, s: RoleSet, later: bool)
    requires { Room page.old (parting later ++ names_text (shown_by names) (roles_of s.bits)) }
    ensures { Adds page.old (parting later ++ names_text (shown_by names.entry) (roles_of s.bits)) page.new }
{
    if later {
        page.push_bytes(b" ;");
    }
    write_set(page, names, s);
}

// The larger open sets, ` ;` between them.
fn write_open(page: &mut Page<'_>, names: Names, sets: &[u64])
    requires { Room page.old (parted_text (shown_by names) false (keep larger sets.now)) }
    ensures { Adds page.old (parted_text (shown_by names.entry) false (keep larger sets.now)) page.new }
{
    let mut later = false;
    for bits in sets {
        let s = RoleSet { bits: *bits };
        if !is_alone(s) {
            write_parted(page, names, s, later);
            later = true;
        }
    }
}

// The word of a verdict on a session, with a space before it, and the end of the sheet.
fn write_answer(page: &mut Page<'_>, verdict: Verdict)
    requires { Room page.old ((space ∷ answer_word (verdict_number verdict)) ++ lf ∷ []) }
    ensures { Adds page.old ((space ∷ answer_word (verdict_number verdict)) ++ lf ∷ []) page.new }
{
    match verdict {
        Verdict::Deny => page.push_bytes(b" deny\n"),
        Verdict::Allow => page.push_bytes(b" allow\n"),
        Verdict::Undecided(_) => page.push_bytes(b" undecided\n"),
    }
}

// The sheet of a row and a verdict; the LF of a line comes with the word of the next.
pub fn write_sheet(page: &mut Page<'_>, names: Names, w: Row, verdict: Verdict)
    requires { Tidy most_opens w.opens × Room page.old (sheet_lines (shown_by names) (row_of w) (verdict_number verdict)) }
    ensures { Adds page.old (sheet_lines (shown_by names.entry) (row_of w) (verdict_number verdict)) page.new }
{
    let sets = w.opens.held();
    page.push_bytes(b"denied");
    write_set(page, names, w.denied);
    page.push_bytes(b"\nproved");
    write_proved(page, names, sets);
    page.push_bytes(b"\nopen");
    write_open(page, names, sets);
    page.push_bytes(b"\nverdict");
    write_answer(page, verdict);
}
