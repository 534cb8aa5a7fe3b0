// By which number a call is refused.
ghost use Rattle.std.specs.Prelude.{◌≡◌, ◌<◌, ◌≤◌, MatchResult};
ghost use Rattle.c_answers.specs.Refusals.{refusal_number, number_in};
ghost use Rattle.c_answers.specs.declared.refusal.Refusal.TheVariants.{Short, NoMeaning};

use bitalloc::UnknownTable;
use header::{UnknownExtension, UnknownMode};

// Why a call writes nothing.
#[derive(Clone, Copy, Debug, PartialEq, Eq)]
pub enum Refusal {
    // One of its slices is too short.
    Short,
    // One of its numbers means nothing.
    NoMeaning,
    // There is nothing at the place asked for.
    Nothing,
}

impl Refusal {
    // The number that the call answers.
    // Kept: the C interface answers by these numbers, which follow no order of the variants.
    pub fn number(self) -> u32
        ensures { result ≡ refusal_number self }
    {
        match self {
            Refusal::Short => 98,
            Refusal::NoMeaning => 14,
            Refusal::Nothing => 97,
        }
    }
}

impl From<UnknownMode> for Refusal {
    ghost from_gives = { λ number refusal. refusal ≡ NoMeaning };

    fn from(_: UnknownMode) -> Refusal {
        Refusal::NoMeaning
    }
}

impl From<UnknownExtension> for Refusal {
    ghost from_gives = { λ number refusal. refusal ≡ NoMeaning };

    fn from(_: UnknownExtension) -> Refusal {
        Refusal::NoMeaning
    }
}

impl From<UnknownTable> for Refusal {
    ghost from_gives = { λ number refusal. refusal ≡ NoMeaning };

    fn from(_: UnknownTable) -> Refusal {
        Refusal::NoMeaning
    }
}

// Whether a slice of `len` elements has room for `wanted`, or as many to read.
pub fn room(len: usize, wanted: usize) -> Result<(), Refusal>
    ensures { MatchResult result (λ done. wanted ≤ len) (λ refusal. (refusal ≡ Short) × (len < wanted)) }
{
    if len < wanted {
        return Err(Refusal::Short);
    }
    Ok(())
}

// The number that a call answers: its own, or that of its refusal.
pub fn number_of(answer: Result<u32, Refusal>) -> u32
    ensures { result ≡ number_in answer }
{
    answer.unwrap_or_else(|refusal| refusal.number())
}
