// One line of bytes, read as a request of the line program.
#![tactic(auto)]

ghost use Rattle.std.specs.Prelude.{◌≡◌, ◌^◌, ◌<◌, drop};
ghost use Rattle.text.specs.Number.{read_number};
ghost use Rattle.text.specs.Set.{read_set};
ghost use Rattle.text.specs.Field.{number_field, set_field};
ghost use Rattle.requests.specs.Fields.{field_of, last_number, permission_set_field, permission_role_field};
ghost use Rattle.requests.specs.Request.{letter_o, letter_q, letter_f, letter_s, by_letter, EventOf, request_of};

use meaning::{Event, Happening, LAST_PERMISSION, LAST_POLICY_STATE};
use roles::{LAST_ROLE, RoleSet};

// A line has at most so many bytes before its LF.
pub const MOST_BYTES: usize = 216;

// The largest role count that a line can say.
const LAST_COUNT: u64 = 255;

// What a line asks for. A line that asks for nothing is one of them, as it is answered too, with 9, and not the None of an Option.
#[derive(Clone, Copy)]
pub enum Request {
    Open(u64, u32),
    Told(Event),
    Decide(u32, RoleSet),
    Forget(u32),
    Show,
    Unreadable,
}

// The place of the field behind the space at the place `at`; without a space the line's end, where no field reads.
fn field_at(line: &[u8], at: usize) -> usize
    ensures { drop result line.now ≡ field_of (drop at line.now) }
{
    if text::byte_at(line, at, b' ') {
        at + 1
    } else {
        line.len()
    }
}

// A number of at most the limit, behind the space at the place `at`. `set_field` is its twin: of one line each, they would be no
// plainer as one.
fn number_field(line: &[u8], at: usize, limit: u64) -> Option<(u64, usize)>
    requires { limit < 2 ^ 32 }
    ensures { result ≡ number_field line.now (read_number limit (field_of (drop at line.now))) }
{
    text::read_number(line, field_at(line, at), limit)
}

// A set, behind the space at the place `at`.
fn set_field(line: &[u8], at: usize) -> Option<(RoleSet, usize)>
    ensures { result ≡ set_field line.now (read_set (field_of (drop at line.now))) }
{
    text::read_set(line, field_at(line, at))
}

// A number of at most the limit, from the space at the place `at` to the end of the line.
fn last_number(line: &[u8], at: usize, limit: u64) -> Option<u64>
    requires { limit < 2 ^ 32 }
    ensures { result ≡ last_number None Some limit (drop at line.now) }
{
    let (value, next) = number_field(line, at, limit)?;
    if line.len() <= next {
        Some(value)
    } else {
        None
    }
}

// A permission and a set, behind the letter, and the place behind them.
fn permission_set(line: &[u8]) -> Option<(u32, RoleSet, usize)>
    ensures { result ≡ permission_set_field line.now (drop 1 line.now) }
{
    let (permission, next) = number_field(line, 1, LAST_PERMISSION)?;
    let (set, next) = set_field(line, next)?;
    Some((permission as u32, set, next))
}

// A permission and a role, behind the letter, and the place behind them. One function for both would take the second reader as a
// closure, and be no shorter.
fn permission_role(line: &[u8]) -> Option<(u32, u64, usize)>
    ensures { result ≡ permission_role_field line.now (drop 1 line.now) }
{
    let (permission, next) = number_field(line, 1, LAST_PERMISSION)?;
    let (role, next) = number_field(line, next, LAST_ROLE)?;
    Some((permission as u32, role, next))
}

// An event, if its fields were read: `happening` makes it of the second one. Its policy state stands behind them, at the end of
// the line.
fn event_of<T: Copy, F: FnOnce(T) -> Happening>(
    line: &[u8],
    fields: Option<(u32, T, usize)>,
    happening: F,
) -> Request
    requires { F.IsAlwaysCallable happening }
    ensures { EventOf (F.post happening) line.now fields result }
{
    let Some(fields) = fields else {
        return Request::Unreadable;
    };
    let (permission, field, next) = fields;
    let happening = happening(field);
    let Some(state) = last_number(line, next, LAST_POLICY_STATE) else {
        return Request::Unreadable;
    };
    Request::Told(Event {
        permission,
        happening,
        state: state as u32,
    })
}

// `O n state`
fn open_of(line: &[u8]) -> Request
    ensures { result ≡ by_letter letter_o (drop 1 line.now) }
{
    let Some((count, next)) = number_field(line, 1, LAST_COUNT) else {
        return Request::Unreadable;
    };
    let Some(state) = last_number(line, next, LAST_POLICY_STATE) else {
        return Request::Unreadable;
    };
    Request::Open(count, state as u32)
}

// `Q p set`
fn decide_of(line: &[u8]) -> Request
    ensures { result ≡ by_letter letter_q (drop 1 line.now) }
{
    let Some((permission, set, next)) = permission_set(line) else {
        return Request::Unreadable;
    };
    if next < line.len() {
        return Request::Unreadable;
    }
    Request::Decide(permission, set)
}

// `F p`
fn forget_of(line: &[u8]) -> Request
    ensures { result ≡ by_letter letter_f (drop 1 line.now) }
{
    let Some(permission) = last_number(line, 1, LAST_PERMISSION) else {
        return Request::Unreadable;
    };
    Request::Forget(permission as u32)
}

// `S`
fn show_of(line: &[u8]) -> Request
    ensures { result ≡ by_letter letter_s (drop 1 line.now) }
{
    if line.len() <= 1 {
        Request::Show
    } else {
        Request::Unreadable
    }
}

// The request that a line's bytes say.
pub fn read_request(line: &[u8]) -> Request
    ensures { result ≡ request_of line.now }
{
    let Some(letter) = line.first() else {
        return Request::Unreadable;
    };
    match letter {
        b'O' => open_of(line),
        b'A' => event_of(line, permission_set(line), Happening::Allow),
        b'D' => event_of(line, permission_set(line), Happening::Deny),
        b'G' => event_of(line, permission_role(line), Happening::Given),
        b'R' => event_of(line, permission_role(line), Happening::Withdrawn),
        b'Q' => decide_of(line),
        b'F' => forget_of(line),
        b'S' => show_of(line),
        _ => Request::Unreadable,
    }
}
