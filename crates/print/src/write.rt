// The lines of an area, written on a page.
ghost use Rattle.meaning.specs.Rows.{most_opens};
ghost use Rattle.rows.specs.Stored.{Tidy, row_of};
ghost use Rattle.area.specs.State.{entry};
ghost use Rattle.text.specs.Page.{Room, Adds};
ghost use Rattle.requests.specs.declared.Request.TheVariants.{Open};
ghost use Rattle.print.specs.Printed.{denials, allows, tells, line_of, lines_text, row_lines};
ghost use Rattle.print.specs.Lines.{reply_line};

use roles::RoleSet;
use rows::Row;
use text::Page;

// `O n state`, LF.
#[tactic(auto, unfolding(crate::specs::Printed::line_of, requests::specs::Request::request_text))]
pub fn write_open(page: &mut Page<'_>, n: u64, g: u64)
    requires { Room page.old (line_of (Open n g)) }
    ensures { Adds page.old (line_of (Open n g)) page.new }
{
    page.push(b'O');
    page.field(n);
    page.field(g);
    page.push(b'\n');
}

// A reply: its letter, `p set state`, LF. A struct of permission and state would be made for these four functions alone.
fn write_reply(page: &mut Page<'_>, letter: u8, p: u32, s: RoleSet, g: u64)
    requires { Room page.old (reply_line letter p s.bits g) }
    ensures { Adds page.old (reply_line letter p s.bits g) page.new }
{
    page.push(letter);
    page.field(p);
    page.field(s);
    page.field(g);
    page.push(b'\n');
}

// A D line, if something is denied.
fn write_denied(page: &mut Page<'_>, p: u32, d: RoleSet, g: u64)
    requires { Room page.old (lines_text (tells p (denials d.bits) g)) }
    ensures { Adds page.old (lines_text (tells p (denials d.bits) g)) page.new }
{
    if !d.is_empty() {
        write_reply(page, b'D', p, d, g);
    }
}

// An A line for each open set, in order. `answers::write_sets` is a loop over sets too: as one function of a closure, which would need a
// contract of its own, they would be no plainer.
fn write_opens(page: &mut Page<'_>, p: u32, sets: &[u64], g: u64)
    requires { Room page.old (lines_text (tells p (allows sets.now) g)) }
    ensures { Adds page.old (lines_text (tells p (allows sets.now) g)) page.new }
{
    for bits in sets {
        write_reply(page, b'A', p, RoleSet { bits: *bits }, g);
    }
}

// The lines of a row in a policy state.
pub fn write_row(page: &mut Page<'_>, p: u32, w: Row, g: u64)
    requires { Tidy most_opens w.opens × Room page.old (row_lines g (entry p (row_of w))) }
    ensures { Adds page.old (row_lines g (entry p (row_of w))) page.new }
{
    write_denied(page, p, w.denied, g);
    write_opens(page, p, w.opens.held(), g);
}
