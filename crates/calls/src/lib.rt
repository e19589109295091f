// What the calls answer, and the numbers of their answers; `specs/Calls.antt` defines the calls themselves.
#![tactic(auto)]

ghost use Rattle.std.specs.Prelude.{◌≡◌, ℕ};
ghost use Rattle.rows.specs.Stored as rows;
ghost use Rattle.calls.specs.declared.Refusal.TheVariants.{BadVerdict};
ghost use Rattle.calls.specs.Answers.{refusal_number, kept_number, done_number, verdict_number, number_of, decided_of};

use meaning::UnknownKind;
use roles::MOST_ROLES;
use rows::Verdict;

// Why a call is refused; the area stays as it came.
#[derive(Clone, Copy)]
pub enum Refusal {
    BadArea,
    BadRoleCount,
    NoPermission,
    UnknownRole,
    BadVerdict,
    Contradiction,
    Full,
    Late,
    Ahead,
}

impl From<rows::Refusal> for Refusal {
    ghost from_gives = { λ r e. refusal_number e ≡ rows.refusal_number r };

    fn from(refusal: rows::Refusal) -> Refusal {
        match refusal {
            rows::Refusal::Contradiction => Refusal::Contradiction,
            rows::Refusal::Full => Refusal::Full,
        }
    }
}

impl From<UnknownKind> for Refusal {
    ghost from_gives = { λ _ e. e ≡ BadVerdict };

    fn from(_kind: UnknownKind) -> Refusal {
        Self::BadVerdict
    }
}

// What became of an event that was not refused.
#[derive(Clone, Copy)]
pub enum Kept {
    Recorded,
    Forgotten,
}

// What is told as a number: Rules, Answers.
pub trait Numbered {
    ghost says: { Self → ℕ };

    fn number(self) -> u32
        ensures { result ≡ says self };
}

impl Numbered for Refusal {
    ghost says = { refusal_number };

    fn number(self) -> u32 {
        match self {
            Refusal::BadArea => 1,
            Refusal::BadRoleCount => 2,
            Refusal::NoPermission => 3,
            Refusal::UnknownRole => 4,
            Refusal::BadVerdict => 5,
            Refusal::Contradiction => 6,
            Refusal::Full => 7,
            Refusal::Late => 13,
            Refusal::Ahead => 14,
        }
    }
}

// A call that gives nothing more.
impl Numbered for () {
    ghost says = { done_number };

    fn number(self) -> u32 {
        0
    }
}

impl Numbered for Kept {
    ghost says = { kept_number };

    fn number(self) -> u32 {
        match self {
            Kept::Recorded => 0,
            Kept::Forgotten => 8,
        }
    }
}

impl Numbered for Verdict {
    ghost says = { verdict_number };

    fn number(self) -> u32 {
        match self {
            Verdict::Deny => 10,
            Verdict::Allow => 11,
            Verdict::Undecided(_) => 12,
        }
    }
}

impl<T: Numbered> Numbered for Result<T, Refusal> {
    ghost says = { number_of T.says };

    fn number(self) -> u32 {
        match self {
            Ok(given) => given.number(),
            Err(refusal) => refusal.number(),
        }
    }
}

// The role to ask about; where a decision names none it is MOST_ROLES, in C and in an answer line too.
pub fn role(decided: Result<Verdict, Refusal>) -> u64
    ensures { result ≡ (decided_of decided).role }
{
    match decided {
        Ok(Verdict::Undecided(role)) => role,
        _ => MOST_ROLES,
    }
}
