// A list of names, lines `number name`, made into a name table.
#![tactic(auto)]

ghost use Rattle.std.specs.Prelude.{◌≡◌, ◌&&◌, ◌+◌, ◌*◌, ◌≤◌, ◌<◌, eqb, leb, length, take, drop};
ghost use Rattle.std.proofs.lemmas.List.Edits.{sets};
ghost use Rattle.roles.specs.Sets.{most_roles};
ghost use Rattle.text.specs.Field.{number_field};
ghost use Rattle.text.specs.Write.{Wrote};
ghost use Rattle.names.specs.Names.{contents_bytes, most_name, length_of};
ghost use Rattle.listing.specs.Listing.{read_line, pair_bytes, named, no_names, most_table, listing, Lists};

use names::{CONTENTS_BYTES, MOST_NAME, PAIR_BYTES};
use roles::{LAST_ROLE, MOST_ROLES};
use text::{Page, byte_at, line_end, read_number};

// No table that is made has more bytes: the contents, and a longest name for each role.
pub const MOST_TABLE: usize = CONTENTS_BYTES + (MOST_ROLES as usize) * MOST_NAME;

// The number of the first line that is refused, from 1 on, and how many bytes the table of the lines before it has.
#[derive(Clone, Copy)]
pub struct Refused {
    pub line: u64,
    pub bytes: usize,
}

// Whether a name may have n bytes.
fn is_length(n: usize) -> bool
    ensures { result ≡ (leb 1 n && leb n most_name) }
{
    (1 <= n) & (n <= MOST_NAME)
}

// The role of a line, and the place at which its name starts.
fn read_line(line: &[u8]) -> Option<(u64, usize)>
    ensures { result ≡ number_field line.now (read_line line.now) }
{
    let (role, next) = read_number(line, 0, LAST_ROLE)?;
    if !byte_at(line, next, b' ') {
        return None;
    }
    let name = next + 1;
    if !is_length(line.len() - name) {
        return None;
    }
    Some((role, name))
}

// Whether a table has no name for role r.
fn is_free(table: &[u8], r: u64) -> bool
    requires { (contents_bytes ≤ length table.now) × (r < most_roles) }
    ensures { result ≡ eqb (length_of table.now r) 0 }
{
    let at = (r as usize) * PAIR_BYTES + 2;
    (table[at] == 0) & (table[at + 1] == 0)
}

// The pair of role r.
fn write_pair(out: &mut [u8], r: u64, start: usize, n: usize)
    requires { (contents_bytes ≤ length out.old) × (r < most_roles) × (start ≤ 65535) × (n ≤ 65535) }
    ensures { out.new ≡ sets out.old (r * 4) (pair_bytes start n) }
{
    let at = (r as usize) * PAIR_BYTES;
    out[at..at + 2].copy_from_slice(&(start as u16).to_le_bytes());
    out[at + 2..at + PAIR_BYTES].copy_from_slice(&(n as u16).to_le_bytes());
}

// One name more in the table of the first `bytes` bytes: how many it has then.
fn write_name(out: &mut [u8], bytes: usize, r: u64, name: &[u8]) -> usize
    requires { (contents_bytes ≤ bytes) × (r < most_roles) × (bytes + length name.now ≤ most_table) × (most_table ≤ length out.old) }
    ensures { Wrote out.old 0 (named (take bytes out.old) r name.now) out.new result }
{
    write_pair(out, r, bytes, name.len());
    let mut page = Page::new(out, bytes);
    page.push_bytes(name);
    page.at
}

// A table without names: how many bytes it has.
fn write_none(out: &mut [u8]) -> usize
    requires { contents_bytes ≤ length out.old }
    ensures { Wrote out.old 0 no_names out.new result }
{
    out[..CONTENTS_BYTES].fill(0);
    CONTENTS_BYTES
}

// The table of a list of names, and how many bytes it has, up to a line that is refused: one that does not read, or names a role
// that has a name. The lines are those between LFs: std's `split` would make one more of nothing behind the last LF, and
// `split_inclusive` leave each its LF.
pub fn make_table(list: &[u8], out: &mut [u8]) -> Result<usize, Refused>
    requires { most_table ≤ length out.old }
    ensures { Lists (listing list.now) result out.old out.new }
{
    let mut bytes = write_none(out);
    let mut line: u64 = 1;
    let mut at = 0;
    while at < list.len() {
        let end = line_end(list, at);
        let entry = &list[at..end];
        let Some((role, name)) = read_line(entry) else {
            return Err(Refused { line, bytes });
        };
        if !is_free(&out[..bytes], role) {
            return Err(Refused { line, bytes });
        }
        bytes = write_name(out, bytes, role, &entry[name..]);
        line += 1;
        at = end + 1;
    }
    Ok(bytes)
}
