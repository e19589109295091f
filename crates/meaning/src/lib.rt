// What the cache is told: an event is a permission with one of four happenings, and the policy state that it names.
#![tactic(auto)]

ghost use Rattle.std.specs.Prelude.{◌≡◌};
ghost use Rattle.meaning.specs.Events.{known, is_reply};
ghost use Rattle.meaning.specs.Kinds.{Told};

use roles::RoleSet;

// Permissions are 1 to this one.
pub const LAST_PERMISSION: u64 = 4294967295;

// Policy states are 0 to this one.
pub const LAST_POLICY_STATE: u64 = 4294967295;

// A row has at most so many open sets.
pub const MOST_OPENS: usize = 15;

#[derive(Clone, Copy)]
pub enum Happening {
    // The server's reply to a session with these roles.
    Allow(RoleSet),
    Deny(RoleSet),
    // A policy update: the permission was given to, or withdrawn from, this role.
    Given(u64),
    Withdrawn(u64),
}

// The kind of an event is told by none of the numbers that are one.
#[derive(Clone, Copy)]
pub struct UnknownKind;

impl Happening {
    // What C tells by two numbers, a kind and the set or the role beside it.
    #[tactic(auto, unfolding(crate::specs::Kinds::happened))]
    pub fn told(kind: u64, number: u64) -> Result<Happening, UnknownKind>
        ensures { Told kind number result }
    {
        match kind {
            0 => Ok(Happening::Deny(RoleSet { bits: number })),
            1 => Ok(Happening::Allow(RoleSet { bits: number })),
            2 => Ok(Happening::Withdrawn(number)),
            3 => Ok(Happening::Given(number)),
            _ => Err(UnknownKind),
        }
    }

    // A reply, and no update.
    pub fn is_reply(self) -> bool
        ensures { result ≡ is_reply self }
    {
        matches!(self, Happening::Allow(_) | Happening::Deny(_))
    }

    // Whether all roles that it names are below n. A role is compared as a number: the set of a role of 64 or more is empty,
    // and would count as known.
    pub fn is_known(self, n: u64) -> bool
        ensures { result ≡ known n self }
    {
        match self {
            Happening::Allow(s) | Happening::Deny(s) => s.is_below(n),
            Happening::Given(r) | Happening::Withdrawn(r) => r < n,
        }
    }
}

#[derive(Clone, Copy)]
pub struct Event {
    pub permission: u32,
    pub happening: Happening,
    pub state: u32,
}
