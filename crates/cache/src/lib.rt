// The calls on a lent area: open, event, decide, forget; and look, for the parts above that show what decide goes by.
#![tactic(auto)]

ghost use Rattle.std.specs.Prelude.{◌≡◌, true, ℕ, [], cond, ◌≤◌, T, Ok, Err};
ghost use Rattle.meaning.specs.Events.{known, is_reply, last_policy_state};
ghost use Rattle.meaning.specs.Rows.{blank, most_opens};
ghost use Rattle.meaning.specs.States.{due};
ghost use Rattle.meaning.specs.Kinds.{Told};
ghost use Rattle.rows.specs.Stored.{Tidy, row_of, stored_row};
ghost use Rattle.area.specs.Layout.{good_bytes};
ghost use Rattle.area.specs.State.{in_policy, is_blank, row_for, with_row, state_of, area_of};
ghost use Rattle.table.specs.Table.{rows_in, Sound, found_for};
ghost use Rattle.calls.specs.Calls.{valid, area_refusals, session_refusals, event_in, open_of, event_of, decide_of, look_of, forget_of};
ghost use Rattle.calls.specs.Answers.{kept_number, done_number, number_of, Gives, decided_of};
ghost use Rattle.cache.specs.First.{first, Asked};
ghost use Rattle.cache.specs.Fresh.{Fresh};
ghost use Rattle.cache.specs.Here.{event_here};
ghost use Rattle.cache.specs.Sees.{Sees};

use area::check::check;
use area::{AREA_BYTES, MOST_ROWS};
use calls::{Kept, Refusal};
use meaning::{Event, Happening};
use roles::{MOST_ROLES, RoleSet};
use rows::{Row, Settled, Verdict, blank, settle};
use table::{
    clear_all, find, insert_at, policy_state, put_at, put_policy_state, remove_at, role_count,
    row_at, rows_used,
};

// ---- the front of a call

// A good area, and a permission.
fn about(a: &[u8], p: u32) -> Result<(), Refusal>
    ensures { number_of done_number result ≡ first (area_refusals a.now p []) }
{
    if !check(a) {
        return Err(Refusal::BadArea);
    }
    if p == 0 {
        return Err(Refusal::NoPermission);
    }
    Ok(())
}

// A session of the roles that there are.
fn asked(a: &[u8], p: u32, s: u64) -> Result<RoleSet, Refusal>
    ensures { Asked (session_refusals a.now p s) s result }
{
    about(a, p)?;
    let session = RoleSet { bits: s };
    if !session.is_below(role_count(a)) {
        return Err(Refusal::UnknownRole);
    }
    Ok(session)
}

// Whether a row says nothing. Equality with a blank row would compare all its places.
fn is_blank(w: Row) -> bool
    requires { Tidy most_opens w.opens }
    ensures { result ≡ is_blank (row_of w) }
{
    let d = w.denied;
    let l = w.opens;
    l.count == 0 && d.is_empty()
}

// ---- a decision, and a look at what it goes by

// The row of p, or what a permission without one has.
fn row_for(a: &[u8], p: u32) -> Row
    requires { Sound a.now }
    ensures { result ≡ stored_row (row_for p (rows_in a.now)) }
{
    match find(a, p) {
        Ok(i) => row_at(a, i),
        Err(_) => blank(),
    }
}

// What decide gives, and the row that it goes by.
#[derive(Clone, Copy)]
pub struct Looked {
    pub verdict: Verdict,
    pub row: Row,
}

pub fn look(a: &[u8], p: u32, s: u64) -> Result<Looked, Refusal>
    ensures { Sees (look_of a.now p s) result }
{
    let session = asked(a, p, s)?;
    let row = row_for(a, p);
    Ok(Looked {
        verdict: rows::decide(row, session),
        row,
    })
}

// The first half of a look; not that look without its row, which the compiler then writes out though nobody reads it.
pub fn decide(a: &[u8], p: u32, s: u64) -> Result<Verdict, Refusal>
    ensures { decided_of result ≡ decide_of a.now p s }
{
    let session = asked(a, p, s)?;
    Ok(rows::decide(row_for(a, p), session))
}

// ---- an event

// Another row for the one of number i; a row that says nothing is taken out. The number and the permission are no struct: `table`
// takes the one alone, or both, and only here do they go on together.
fn put_over(a: &mut [u8], i: usize, p: u32, w: Row)
    requires { Sound a.old × (found_for p (rows_in a.old) ≡ Ok i) × Tidy most_opens w.opens }
    ensures { a.new ≡ area_of (with_row (state_of a.old) p (row_of w)) }
{
    if is_blank(w) {
        remove_at(a, i);
    } else {
        put_at(a, i, p, w);
    }
}

// An event about a permission with a row.
fn enter_over(a: &mut [u8], i: usize, p: u32, e: Happening) -> Result<Kept, Refusal>
    requires { Sound a.old × (found_for p (rows_in a.old) ≡ Ok i) × T (known (state_of a.old).roles e) }
    ensures { Gives (event_here a.old p e) (number_of kept_number result) a.new }
{
    match settle(row_at(a, i), e)? {
        Settled::Recorded(w) => {
            put_over(a, i, p, w);
            Ok(Kept::Recorded)
        }
        Settled::Forgotten => {
            remove_at(a, i);
            Ok(Kept::Forgotten)
        }
    }
}

// An event for whose new row there is no room.
fn no_room(e: Happening) -> Result<Kept, Refusal>
    ensures { number_of kept_number result ≡ cond (is_reply e) 7 8 }
{
    if e.is_reply() {
        Err(Refusal::Full)
    } else {
        Ok(Kept::Forgotten)
    }
}

// The first row of a permission, after the event e.
fn put_new(a: &mut [u8], i: usize, p: u32, e: Happening, w: Row) -> Result<Kept, Refusal>
    requires { Sound a.old × (found_for p (rows_in a.old) ≡ Err i) × Fresh e w }
    ensures { Gives (event_here a.old p e) (number_of kept_number result) a.new }
{
    if is_blank(w) {
        return Ok(Kept::Recorded);
    }
    if rows_used(a) == MOST_ROWS {
        return no_room(e);
    }
    insert_at(a, i, p, w);
    Ok(Kept::Recorded)
}

// An event about a permission without a row: where it is not recorded there is nothing to change.
fn enter_new(a: &mut [u8], i: usize, p: u32, e: Happening) -> Result<Kept, Refusal>
    requires { Sound a.old × (found_for p (rows_in a.old) ≡ Err i) × T (known (state_of a.old).roles e) }
    ensures { Gives (event_here a.old p e) (number_of kept_number result) a.new }
{
    match settle(blank(), e)? {
        Settled::Recorded(w) => put_new(a, i, p, e, w),
        Settled::Forgotten => Ok(Kept::Forgotten),
    }
}

// An event over its permission's row, or as its first one.
fn enter_row(a: &mut [u8], p: u32, e: Happening) -> Result<Kept, Refusal>
    requires { Sound a.old × T (known (state_of a.old).roles e) }
    ensures { Gives (event_here a.old p e) (number_of kept_number result) a.new }
{
    match find(a, p) {
        Ok(i) => enter_over(a, i, p, e),
        Err(i) => enter_new(a, i, p, e),
    }
}

// The policy state in which an event counts.
fn due(e: Happening, policy: u64) -> u64
    requires { policy ≤ last_policy_state }
    ensures { result ≡ due e policy }
{
    if e.is_reply() { policy } else { policy + 1 }
}

// The area in the state that an event names: an update moves it there, and a reply finds it there.
fn move_on(a: &mut [u8], e: Happening, g: u32)
    requires { Sound a.old × (g ≡ due e (state_of a.old).policy) }
    ensures { a.new ≡ area_of (in_policy g (state_of a.old)) }
{
    if e.is_reply() {
        return;
    }
    put_policy_state(a, g);
}

// An event of known roles that counts. No update is refused any more, so the area may go to its state first.
fn enter(a: &mut [u8], event: Event) -> Result<Kept, Refusal>
    requires { Sound a.old × T (known (state_of a.old).roles event.happening) × (event.state ≡ due event.happening (state_of a.old).policy) × (event.state ≤ last_policy_state) }
    ensures { Gives (event_in a.old event.permission event.happening event.state) (number_of kept_number result) a.new }
{
    let p = event.permission;
    let e = event.happening;
    move_on(a, e, event.state);
    enter_row(a, p, e)
}

// An event behind the refusals that every call begins with.
fn hear(a: &mut [u8], event: Event) -> Result<Kept, Refusal>
    requires { (good_bytes a.old ≡ true) × (valid event.permission ≡ true) }
    ensures { (k x : ℕ) → Told k x (Ok event.happening) → Gives (event_of a.old event.permission k x event.state) (number_of kept_number result) a.new }
{
    let e = event.happening;
    let state = event.state;
    if !e.is_known(role_count(a)) {
        return Err(Refusal::UnknownRole);
    }
    let due = due(e, policy_state(a));
    // one test in front of the work on the row, so that the compiler takes that for the usual way
    if state as u64 != due {
        if (state as u64) < due {
            return Err(Refusal::Late);
        }
        return Err(Refusal::Ahead);
    }
    enter(a, event)
}

// An event as C tells it, by a kind and the set or the role beside it. What they say is asked behind the check, as its refusal
// comes behind: before it the answer would have to be kept that long.
pub fn event(a: &mut [u8], p: u32, kind: u64, number: u64, state: u32) -> Result<Kept, Refusal>
    ensures { Gives (event_of a.old p kind number state) (number_of kept_number result) a.new }
{
    about(a, p)?;
    let happening = Happening::told(kind, number)?;
    hear(
        a,
        Event {
            permission: p,
            happening,
            state,
        },
    )
}

// The same event, whatever numbers would tell it.
pub fn tell(a: &mut [u8], event: Event) -> Result<Kept, Refusal>
    ensures { (k x : ℕ) → Told k x (Ok event.happening) → Gives (event_of a.old event.permission k x event.state) (number_of kept_number result) a.new }
{
    about(a, event.permission)?;
    hear(a, event)
}

// ---- opening and forgetting

fn forget_row(a: &mut [u8], p: u32)
    requires { Sound a.old }
    ensures { a.new ≡ area_of (with_row (state_of a.old) p blank) }
{
    match find(a, p) {
        Ok(i) => remove_at(a, i),
        Err(_) => {}
    }
}

pub fn forget(a: &mut [u8], p: u32) -> Result<(), Refusal>
    ensures { Gives (forget_of a.old p) (number_of done_number result) a.new }
{
    about(a, p)?;
    forget_row(a, p);
    Ok(())
}

pub fn open(a: &mut [u8], n: u64, state: u32) -> Result<(), Refusal>
    ensures { Gives (open_of a.old n state) (number_of done_number result) a.new }
{
    if a.len() != AREA_BYTES {
        return Err(Refusal::BadArea);
    }
    if (n < 1) | (MOST_ROLES < n) {
        return Err(Refusal::BadRoleCount);
    }
    clear_all(a, n, state);
    Ok(())
}
