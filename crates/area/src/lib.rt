// The lent area: its numbers, and the check of it.
#![tactic(auto)]

pub mod check;

use meaning::MOST_OPENS;

pub const MOST_ROWS: usize = 128;

// In words: where the role count, the number of rows used and the policy state stand, an entry of the contents, a body,
// where the contents and the bodies start, the area.
pub const ROLE_COUNT_AT: usize = 0;

pub const ROWS_USED_AT: usize = 1;

pub const POLICY_STATE_AT: usize = 2;

pub const CONTENT_WORDS: usize = 2;

pub const BODY_WORDS: usize = 1 + MOST_OPENS;

pub const CONTENTS_AT: usize = 3;

pub const BODIES_AT: usize = CONTENTS_AT + MOST_ROWS * CONTENT_WORDS;

pub const AREA_WORDS: usize = BODIES_AT + MOST_ROWS * BODY_WORDS;

pub const AREA_BYTES: usize = AREA_WORDS * 8;
