// The check of a whole area, rule by rule.
ghost use Rattle.std.specs.Prelude.{◌≡◌, ◌+◌, ◌-◌, ◌≤◌, length};
ghost use Rattle.words.specs.Words.{words};
ghost use Rattle.roles.specs.Sets.{all_below};
ghost use Rattle.area.specs.Layout.{most_rows, area_bytes, role_count, each_below, good_row_at, good_bytes};
ghost use Rattle.area.specs.Parts.{zero_rows};

use crate::{
    AREA_BYTES, BODIES_AT, BODY_WORDS, CONTENT_WORDS, CONTENTS_AT, MOST_ROWS, POLICY_STATE_AT,
    ROLE_COUNT_AT, ROWS_USED_AT,
};
use meaning::{LAST_PERMISSION, LAST_POLICY_STATE, MOST_OPENS};
use opens::{places_few, places_many};
use roles::{MOST_ROLES, RoleSet};
use words::{are_zero, get_word};

// So many unused rows are looked at together, as straight code: a check of an area of one row took 4,186 instructions where all
// of them were looked at by one call of `are_unused`, 2,749 where its loops were chains of `all`, and takes 2,663.
const STRIDE: usize = 8;

// Whether the first `used` rows are good. Their permissions ascend, so the last one alone is tested for its width.
fn used_rows_good(a: &[u8], used: usize, all: RoleSet) -> bool
    requires { (length a.now ≡ area_bytes) × (used ≤ most_rows) × (all.bits ≡ all_below (role_count (words a.now))) }
    ensures { result ≡ each_below used (good_row_at (words a.now)) }
{
    let mut last: u64 = 0;
    for i in 0..used {
        let content = CONTENTS_AT + i * CONTENT_WORDS;
        let body = BODIES_AT + i * BODY_WORDS;
        let p = get_word(a, content);
        let count = get_word(a, content + 1);
        let d = RoleSet {
            bits: get_word(a, body),
        };
        let ok = (last < p) & (count <= MOST_OPENS as u64) & (d.bits <= all.bits);
        if !ok {
            return false;
        }
        // no `try_from`: it would ask for a second refusal where the test above has given the row's
        let c = count as usize;
        if !places_few(a, body + 1, c, d, all) {
            return false;
        }
        if !places_many(a, body + 1, c, d, all) {
            return false;
        }
        last = p;
    }
    last <= LAST_PERMISSION
}

// `used_rows_good`, without that long function where no row is used.
fn rows_good(a: &[u8], used: usize, all: RoleSet) -> bool
    requires { (length a.now ≡ area_bytes) × (used ≤ most_rows) × (all.bits ≡ all_below (role_count (words a.now))) }
    ensures { result ≡ each_below used (good_row_at (words a.now)) }
{
    if used == 0 {
        return true;
    }
    used_rows_good(a, used, all)
}

// Whether the n rows from row i on are zeros.
fn are_unused(a: &[u8], i: usize, n: usize) -> bool
    requires { (length a.now ≡ area_bytes) × (i + n ≤ most_rows) }
    ensures { result ≡ zero_rows (words a.now) i n }
{
    are_zero(a, CONTENTS_AT + i * CONTENT_WORDS, n * CONTENT_WORDS)
        & are_zero(a, BODIES_AT + i * BODY_WORDS, n * BODY_WORDS)
}

// Whether all rows from row `used` on are zeros: eight at a time, then one by one.
fn rest_unused(a: &[u8], used: usize) -> bool
    requires { (length a.now ≡ area_bytes) × (used ≤ most_rows) }
    ensures { result ≡ zero_rows (words a.now) used (most_rows - used) }
{
    let strides = (MOST_ROWS - used) / STRIDE;
    for k in 0..strides {
        if !are_unused(a, used + k * STRIDE, STRIDE) {
            return false;
        }
    }
    for i in used + strides * STRIDE..MOST_ROWS {
        if !are_unused(a, i, 1) {
            return false;
        }
    }
    true
}

// Whether the bytes are a good area.
pub fn check(a: &[u8]) -> bool
    ensures { result ≡ good_bytes a.now }
{
    if a.len() != AREA_BYTES {
        return false;
    }
    let n = get_word(a, ROLE_COUNT_AT);
    let used = get_word(a, ROWS_USED_AT);
    let policy = get_word(a, POLICY_STATE_AT);
    if n < 1 {
        return false;
    }
    if MOST_ROLES < n {
        return false;
    }
    if (MOST_ROWS as u64) < used {
        return false;
    }
    if LAST_POLICY_STATE < policy {
        return false;
    }
    // no `try_from`, as above: more than 128 rows are refused already
    let rows = used as usize;
    rows_good(a, rows, RoleSet::all_below(n)) & rest_unused(a, rows)
}
