// Roles are numbers from 0 on. A set of them is a 64-bit number in which role r is the bit of weight 2^r.
#![tactic(auto)]

ghost use Rattle.std.specs.Prelude.{◌≡◌, List, ℕ, eqb};
ghost use Rattle.std.specs.Iterator.{YieldsFirst, item_count};
ghost use Rattle.roles.specs.Sets.{joined, without, shares, part_of, all_below, single, below64, outside, role_named, roles_of};

use std::marker::Model;

// So many roles there may be, and the last of them.
pub const MOST_ROLES: u64 = 64;

pub const LAST_ROLE: u64 = MOST_ROLES - 1;

#[derive(Clone, Copy, PartialEq, Eq)]
pub struct RoleSet {
    pub bits: u64,
}

impl RoleSet {
    // The set with no role.
    pub const EMPTY: RoleSet = RoleSet { bits: 0 };

    // The set of all roles below n; above 64 that is the set of all 64.
    pub fn all_below(n: u64) -> RoleSet
        ensures { result.bits ≡ below64 (all_below n) }
    {
        if MOST_ROLES <= n {
            return RoleSet {
                bits: 0xffff_ffff_ffff_ffff,
            };
        }
        RoleSet { bits: (1 << n) - 1 }
    }

    // The set of the role r alone; there is no role 64 or above, so that is the empty set.
    pub fn single(r: u64) -> RoleSet
        ensures { result.bits ≡ below64 (single r) }
    {
        if MOST_ROLES <= r {
            return RoleSet::EMPTY;
        }
        RoleSet { bits: 1 << r }
    }

    // Whether no role is in it.
    pub fn is_empty(self) -> bool
        ensures { result ≡ eqb self.bits 0 }
    {
        self.bits == 0
    }

    // Whether some role is in both.
    pub fn shares(self, o: RoleSet) -> bool
        ensures { result ≡ shares self.bits o.bits }
    {
        self.bits & o.bits != 0
    }

    // The roles of either.
    pub fn joined(self, o: RoleSet) -> RoleSet
        ensures { result.bits ≡ joined self.bits o.bits }
    {
        RoleSet {
            bits: self.bits | o.bits,
        }
    }

    // The roles of this set that are not in the other.
    pub fn without(self, o: RoleSet) -> RoleSet
        ensures { result.bits ≡ without self.bits o.bits }
    {
        RoleSet {
            bits: self.bits ^ (self.bits & o.bits),
        }
    }

    // Whether every role of this set is in the other.
    pub fn is_part_of(self, o: RoleSet) -> bool
        ensures { result ≡ part_of self.bits o.bits }
    {
        self.without(o).is_empty()
    }

    // Whether all roles of this set are below n.
    pub fn is_below(self, n: u64) -> bool
        ensures { result ≡ part_of self.bits (all_below n) }
    {
        self.is_part_of(RoleSet::all_below(n))
    }

    // The lowest role of this set that is not in the other; none where this set is part of the other.
    pub fn outside(self, o: RoleSet) -> Option<u64>
        ensures { result ≡ role_named (outside self.bits o.bits) }
    {
        let rest = self.without(o);
        if rest.is_empty() {
            return None;
        }
        Some(u64::trailing_zeros(rest.bits) as u64)
    }

    // The roles of this set, ascending.
    pub fn roles(self) -> Roles
        ensures { result ≡ roles_of self.bits }
    {
        Roles { rest: self }
    }
}

// The roles of a set that are still to come, ascending; a contract sees their list.
#[derive(Drop)]
pub struct Roles {
    rest: RoleSet,
}

impl Model for Roles {
    ghost Value = { List ℕ };

    ghost view = { λ s. roles_of s.rest.bits };
}

impl Iterator for Roles {
    type Item = u64;

    ghost next_gives = { YieldsFirst (λ rest. rest) };

    ghost remaining = { item_count (λ rest. rest) };

    fn next(&mut self) -> Option<u64> {
        // `outside` finds it empty too, but by this test the proof knows the number to be one of 64 bits
        if self.rest.bits == 0 {
            return None;
        }
        let role = self.rest.outside(RoleSet::EMPTY)?;
        self.rest = self.rest.without(RoleSet::single(role));
        Some(role)
    }
}
