// Numbers and role sets as text: what a field of a line reads as, and how it is written; so are bytes as they are. Where a line
// ends.
#![tactic(auto)]

ghost use Rattle.std.specs.Prelude.{◌≡◌, ◌∷◌, [], ◌+◌, ◌^◌, ◌≤◌, ◌<◌, List, ℕ, length, drop};
ghost use Rattle.roles.specs.Sets.{most_roles};
ghost use Rattle.text.specs.Ascii.{space};
ghost use Rattle.text.specs.Number.{number_text, digit_next, next_is, read_more, read_number};
ghost use Rattle.text.specs.Set.{role_text, set_text, read_roles, read_set};
ghost use Rattle.text.specs.Field.{number_field, set_field};
ghost use Rattle.text.specs.Lines.{before_lf};
ghost use Rattle.text.specs.Write.{Wrote};
ghost use Rattle.text.specs.Page.{Room, Adds};

use roles::{LAST_ROLE, RoleSet};

// Readers take the line and a place, and give the place behind what they read. A struct of the two that a reader moves on would be no
// plainer: where a field does not read there is no place behind it, and nothing has moved.

// Whether the byte b stands at the place `at`.
pub fn byte_at(line: &[u8], at: usize, b: u8) -> bool
    ensures { result ≡ next_is b (drop at line.now) }
{
    line.get(at) == Some(&b)
}

// Whether a digit stands at the place `at`.
fn digit_at(line: &[u8], at: usize) -> bool
    ensures { result ≡ digit_next (drop at line.now) }
{
    matches!(line.get(at), Some(b'0'..=b'9'))
}

// The digits from the place `at` on, as a number of at most the limit, and the place behind them.
fn read_more(line: &[u8], at: usize, limit: u64) -> Option<(u64, usize)>
    requires { (at ≤ length line.now) × (limit < 2 ^ 32) }
    ensures { result ≡ number_field line.now (read_more limit 0 (drop at line.now)) }
{
    let mut value = 0;
    for (i, c) in line[at..].iter().enumerate() {
        match c {
            b'0'..=b'9' => value = value * 10 + u64::from(c - b'0'),
            _ => return Some((value, at + i)),
        }
        if limit < value {
            return None;
        }
    }
    Some((value, line.len()))
}

// The number at the place `at`: decimal, without leading zeros, at most the limit; and the place behind it.
pub fn read_number(line: &[u8], at: usize, limit: u64) -> Option<(u64, usize)>
    requires { limit < 2 ^ 32 }
    ensures { result ≡ number_field line.now (read_number limit (drop at line.now)) }
{
    match line.get(at)? {
        b'0' => {
            if digit_at(line, at + 1) {
                None
            } else {
                Some((0, at + 1))
            }
        }
        b'1'..=b'9' => read_more(line, at, limit),
        _ => None,
    }
}

// The roles at the place `at`: strictly ascending, parted by commas; and the place behind them. Each turn goes on behind what the
// last one read, so no index is counted.
fn read_roles(line: &[u8], at: usize) -> Option<(RoleSet, usize)>
    ensures { result ≡ set_field line.now (read_roles most_roles 0 0 (drop at line.now)) }
{
    let mut set = RoleSet::EMPTY;
    let mut low: u64 = 0;
    let mut i = at;
    loop {
        let (role, next) = read_number(line, i, LAST_ROLE)?;
        if role < low {
            return None;
        }
        set = set.joined(RoleSet::single(role));
        low = role + 1;
        if !byte_at(line, next, b',') {
            return Some((set, next));
        }
        i = next + 1;
    }
}

// The set at the place `at`: `-` for the empty one, or roles; and the place behind it.
pub fn read_set(line: &[u8], at: usize) -> Option<(RoleSet, usize)>
    ensures { result ≡ set_field line.now (read_set (drop at line.now)) }
{
    if byte_at(line, at, b'-') {
        return Some((RoleSet::EMPTY, at + 1));
    }
    read_roles(line, at)
}

// The place of the first LF from the place `at` on, or the end.
pub fn line_end(line: &[u8], at: usize) -> usize
    ensures { result ≡ at + before_lf (drop at line.now) }
{
    let rest = line.get(at..).unwrap_or(&[]);
    at + rest.iter().position(|b| *b == b'\n').unwrap_or(rest.len())
}

// The text of v, from the place `at` on: the place behind it. Not a method of a page, whose place would stand in memory from digit to
// digit: `print_row` would take 4,523 instructions above the check in place of 3,389.
fn write_number(out: &mut [u8], at: usize, v: u64) -> usize
    requires { at + length (number_text v) ≤ length out.old }
    ensures { Wrote out.old at (number_text v) out.new result }
{
    if v < 10 {
        out[at] = b'0' + (v % 10) as u8;
        return at + 1;
    }
    let last = write_number(out, at, v / 10);
    out[last] = b'0' + (v % 10) as u8;
    last + 1
}

// A lent buffer, and the place up to which it is written.
#[derive(Drop)]
pub struct Page<'a> {
    pub out: &'a mut [u8],
    pub at: usize,
}

impl<'a> Page<'a> {
    pub fn new(out: &'a mut [u8], at: usize) -> Page<'a>
        ensures same_buffer { result.out.ghost_name ≡ out.entry.ghost_name }
        ensures bytes { result.out.now ≡ out.old }
        ensures start { result.at ≡ at }
    {
        Page { out, at }
    }

    pub fn push(&mut self, b: u8)
        requires { Room self.old (b ∷ []) }
        ensures { Adds self.old (b ∷ []) self.new }
    {
        self.out[self.at] = b;
        self.at += 1;
    }

    pub fn push_bytes(&mut self, t: &[u8])
        requires { Room self.old t.now }
        ensures { Adds self.old t.now self.new }
    {
        let next = self.at + t.len();
        self.out[self.at..next].copy_from_slice(t);
        self.at = next;
    }

    // The text of v.
    pub fn number(&mut self, v: u64)
        requires { Room self.old (number_text v) }
        ensures { Adds self.old (number_text v) self.new }
    {
        self.at = write_number(self.out, self.at, v);
    }

    // One role of a set, behind a comma where others stand before it.
    fn role(&mut self, r: u64, later: bool)
        requires { Room self.old (role_text later r) }
        ensures { Adds self.old (role_text later r) self.new }
    {
        if later {
            self.push(b',');
        }
        self.number(r);
    }

    // The text of a set.
    pub fn set(&mut self, s: RoleSet)
        requires { Room self.old (set_text s.bits) }
        ensures { Adds self.old (set_text s.bits) self.new }
    {
        if s.is_empty() {
            self.push(b'-');
            return;
        }
        let mut later = false;
        for role in s.roles() {
            self.role(role, later);
            later = true;
        }
    }

    // The text of a value, with a space before it.
    pub fn field<T: Text>(&mut self, value: T)
        requires { Room self.old (space ∷ T.text value) }
        ensures { Adds self.old (space ∷ T.text value) self.new }
    {
        self.push(b' ');
        value.write(self);
    }
}

// A value that is written as a text. Not by `Display` and `write!`: those promise the bytes only where they answer `Ok`, and not that
// they answer it where there is room.
pub trait Text {
    ghost text: { Self → List ℕ };

    // The text of this value.
    fn write(self, page: &mut Page<'_>)
        requires { Room page.old (text self) }
        ensures { Adds page.old (text self) page.new };
}

impl Text for u64 {
    ghost text = { number_text };

    fn write(self, page: &mut Page<'_>) {
        page.number(self);
    }
}

impl Text for u32 {
    ghost text = { number_text };

    fn write(self, page: &mut Page<'_>) {
        page.number(u64::from(self));
    }
}

impl Text for RoleSet {
    ghost text = { λ s. set_text s.bits };

    fn write(self, page: &mut Page<'_>) {
        page.set(self);
    }
}
