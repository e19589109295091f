// Whether the open sets of a row, which stand in lent bytes, are good. Called with a number of open sets, not a variable, a
// function here becomes straight code. It is no const parameter: an instance is made straight code by itself, before it becomes
// part of the loop over the rows, and a check of 64 rows of three open sets took 5,535 instructions by it, not 5,153.
#![tactic(auto)]

ghost use Rattle.std.specs.Prelude.{◌≡◌, ◌||◌, ◌+◌, ◌≤◌, ◌<◌, ltb, leb, get_or, take, drop};
ghost use Rattle.words.specs.Words.{words, Spans};
ghost use Rattle.roles.specs.Sets.{part_of, joined};
ghost use Rattle.meaning.specs.Rows.{has_part, most_opens};
ghost use Rattle.opens.specs.Opens.{opens_good, body_good, few_opens};
ghost use Rattle.opens.specs.Parts.{stand_apart, opens_sure};

use meaning::MOST_OPENS;
use roles::RoleSet;
use words::{are_zero, get_word};

// From so many open sets on, two at a time are held against the earlier ones.
const PAIRED: usize = 7;

// From so many open sets on, one pass over them may spare the rest.
const SWEPT: usize = 13;

// The set that stands at word i.
fn set_at(a: &[u8], i: usize) -> RoleSet
    requires { Spans a.now (i + 1) }
    ensures { result.bits ≡ get_or (words a.now) i 0 }
{
    RoleSet {
        bits: get_word(a, i),
    }
}

// Whether one of the i words from number `at` on is part of s.
fn has_part(a: &[u8], at: usize, i: usize, s: RoleSet) -> bool
    requires { Spans a.now (at + i) }
    ensures { result ≡ has_part s.bits (take i (drop at (words a.now))) }
{
    for k in 0..i {
        if set_at(a, at + k).is_part_of(s) {
            return true;
        }
    }
    false
}

// Whether none of the c words from number `at` on is part of a later one.
fn stand_apart(a: &[u8], at: usize, c: usize) -> bool
    requires { Spans a.now (at + c) }
    ensures { result ≡ stand_apart (take c (drop at (words a.now))) }
{
    for i in 1..c {
        if has_part(a, at, i, set_at(a, at + i)) {
            return false;
        }
    }
    true
}

// Whether o is part of s or of t, which one test of their union mostly denies.
fn is_part_of_either(o: RoleSet, s: RoleSet, t: RoleSet, both: RoleSet) -> bool
    requires { both.bits ≡ joined s.bits t.bits }
    ensures { result ≡ (part_of o.bits s.bits || part_of o.bits t.bits) }
{
    if !o.is_part_of(both) {
        return false;
    }
    o.is_part_of(s) | o.is_part_of(t)
}

// Whether one of the i words from number `at` on is part of s, the next one, or of t, or s part of t.
fn has_part_of_two(a: &[u8], at: usize, i: usize, s: RoleSet, t: RoleSet) -> bool
    requires { Spans a.now (at + i + 1) × (s.bits ≡ get_or (words a.now) (at + i) 0) }
    ensures { result ≡ (has_part s.bits (take i (drop at (words a.now))) || has_part t.bits (take (i + 1) (drop at (words a.now)))) }
{
    if s.is_part_of(t) {
        return true;
    }
    let both = s.joined(t);
    for k in 0..i {
        if is_part_of_either(set_at(a, at + k), s, t, both) {
            return true;
        }
    }
    false
}

// `opens_good`, quick for few: one pass for order and union, then each is held against those before it.
fn opens_few(a: &[u8], at: usize, c: usize, d: RoleSet, all: RoleSet) -> bool
    requires { Spans a.now (at + c) × (0 < c) }
    ensures { result ≡ opens_good all.bits d.bits (take c (drop at (words a.now))) }
{
    let mut later = RoleSet::EMPTY;
    let mut next = all.bits;
    for j in (0..c).rev() {
        let o = set_at(a, at + j);
        if next < o.bits {
            return false;
        }
        later = o.joined(later);
        next = o.bits;
    }
    !later.shares(d) & (next != 0) & stand_apart(a, at, c)
}

// `opens_good`, quick for many: from the last pair to the first. The first set is left over if c is odd, else looked at once more.
fn opens_many(a: &[u8], at: usize, c: usize, d: RoleSet, all: RoleSet) -> bool
    requires { Spans a.now (at + c) × (0 < c) }
    ensures { result ≡ opens_good all.bits d.bits (take c (drop at (words a.now))) }
{
    let mut later = RoleSet::EMPTY;
    let mut next = all.bits;
    for pair in (0..c / 2).rev() {
        let i = c % 2 + 2 * pair;
        let s = set_at(a, at + i);
        let t = set_at(a, at + i + 1);
        if next < t.bits {
            return false;
        }
        if t.bits < s.bits {
            return false;
        }
        later = s.joined(t).joined(later);
        if has_part_of_two(a, at, i, s, t) {
            return false;
        }
        next = s.bits;
    }
    let o = set_at(a, at);
    (o.bits <= next) & !o.joined(later).shares(d) & !o.is_empty()
}

// Whether the c words from number `at` on are good open sets, each with a role outside `later`, the union of the later ones:
// so it is not empty and part of none of them.
fn opens_sure(a: &[u8], at: usize, c: usize, d: RoleSet, all: RoleSet) -> bool
    requires { Spans a.now (at + c) }
    ensures { result ≡ opens_sure all.bits d.bits (take c (drop at (words a.now))) }
{
    let mut later = RoleSet::EMPTY;
    let mut next = all.bits;
    for j in (0..c).rev() {
        let o = set_at(a, at + j);
        if next < o.bits {
            return false;
        }
        let both = o.joined(later);
        if both.bits == later.bits {
            return false;
        }
        later = both;
        next = o.bits;
    }
    !later.shares(d)
}

// Whether the c words from number `at` on, one or more, are good open sets beside the denied set d, where `all` is the set of
// all roles below n. These five are no struct with methods: by one a check of 128 rows of 15 open sets took 32,719 instructions,
// not 15,953.
fn opens_good(a: &[u8], at: usize, c: usize, d: RoleSet, all: RoleSet) -> bool
    requires { Spans a.now (at + c) × (0 < c) }
    ensures { result ≡ opens_good all.bits d.bits (take c (drop at (words a.now))) }
{
    if c < PAIRED {
        return opens_few(a, at, c, d, all);
    }
    if SWEPT <= c && opens_sure(a, at, c, d, all) {
        return true;
    }
    opens_many(a, at, c, d, all)
}

// Whether the body of the denied set d and the 15 places from word `at` on is good, if it has at most 10 open sets; true, if it
// has more, which `places_many` looks at. Both in one would be too long to become part of the loop over the rows.
pub fn places_few(a: &[u8], at: usize, c: usize, d: RoleSet, all: RoleSet) -> bool
    requires { Spans a.now (at + most_opens) }
    ensures { result ≡ (ltb few_opens c || body_good all.bits d.bits c (take most_opens (drop at (words a.now)))) }
{
    match c {
        0 => are_zero(a, at, MOST_OPENS) & !d.is_empty(),
        1 => are_zero(a, at + 1, MOST_OPENS - 1) & opens_good(a, at, 1, d, all),
        2 => are_zero(a, at + 2, MOST_OPENS - 2) & opens_good(a, at, 2, d, all),
        3 => are_zero(a, at + 3, MOST_OPENS - 3) & opens_good(a, at, 3, d, all),
        4 => are_zero(a, at + 4, MOST_OPENS - 4) & opens_good(a, at, 4, d, all),
        5 => are_zero(a, at + 5, MOST_OPENS - 5) & opens_good(a, at, 5, d, all),
        6 => are_zero(a, at + 6, MOST_OPENS - 6) & opens_good(a, at, 6, d, all),
        7 => are_zero(a, at + 7, MOST_OPENS - 7) & opens_good(a, at, 7, d, all),
        8 => are_zero(a, at + 8, MOST_OPENS - 8) & opens_good(a, at, 8, d, all),
        9 => are_zero(a, at + 9, MOST_OPENS - 9) & opens_good(a, at, 9, d, all),
        10 => are_zero(a, at + 10, MOST_OPENS - 10) & opens_good(a, at, 10, d, all),
        _ => true,
    }
}

// The same of 11 open sets or more; true, if there are fewer. Were an arm a call of one function with its number, 128 rows of 15
// open sets would take 31,810 instructions.
pub fn places_many(a: &[u8], at: usize, c: usize, d: RoleSet, all: RoleSet) -> bool
    requires { Spans a.now (at + most_opens) × (c ≤ most_opens) }
    ensures { result ≡ (leb c few_opens || body_good all.bits d.bits c (take most_opens (drop at (words a.now)))) }
{
    match c {
        11 => are_zero(a, at + 11, MOST_OPENS - 11) & opens_good(a, at, 11, d, all),
        12 => are_zero(a, at + 12, MOST_OPENS - 12) & opens_good(a, at, 12, d, all),
        13 => are_zero(a, at + 13, MOST_OPENS - 13) & opens_good(a, at, 13, d, all),
        14 => are_zero(a, at + 14, MOST_OPENS - 14) & opens_good(a, at, 14, d, all),
        15 => are_zero(a, at + 15, MOST_OPENS - 15) & opens_good(a, at, 15, d, all),
        _ => true,
    }
}
