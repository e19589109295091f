// What a call that writes a text into a lent buffer gives.
#![tactic(auto)]

ghost use Rattle.std.specs.Prelude.{◌≡◌};
ghost use Rattle.written.specs.Result.{number_of, written_of};

// Why nothing is written; `number_of` has the numbers.
#[derive(Clone, Copy)]
pub enum Refusal {
    BadArea,
    NoPermission,
    UnknownRole,
    ShortBuffer,
    BadNameTable,
    NoRow,
}

// The number of a refusal: Rules, Answers.
impl From<Refusal> for u32 {
    ghost from_gives = { λ refusal n. n ≡ number_of refusal };

    fn from(refusal: Refusal) -> u32 {
        match refusal {
            Refusal::BadArea => 1,
            Refusal::NoPermission => 3,
            Refusal::UnknownRole => 4,
            Refusal::ShortBuffer => 16,
            Refusal::BadNameTable => 17,
            Refusal::NoRow => 18,
        }
    }
}

// `wickthrush_written` of the header: the answer's number, and how many bytes were written.
#[repr(C)]
#[derive(Clone, Copy)]
pub struct Written {
    pub answer: u32,
    pub bytes: u32,
}

// The number of bytes written, or why none were, as C gets it.
impl From<Result<u32, Refusal>> for Written {
    ghost from_gives = { λ ended written. written ≡ written_of ended };

    fn from(ended: Result<u32, Refusal>) -> Written {
        match ended {
            Ok(bytes) => Written { answer: 0, bytes },
            Err(refusal) => Written {
                answer: u32::from(refusal),
                bytes: 0,
            },
        }
    }
}
