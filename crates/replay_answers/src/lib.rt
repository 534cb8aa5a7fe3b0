// The verdict on a line of the replay: the library's answers beside the numbers that the line expects.
#![tactic(auto)]

ghost use Rattle.std.specs.Prelude.{◌≡◌};
ghost use Rattle.replay_answers.specs.Verdicts.{verdict, both, verdict_on, pair_verdict, found_verdict};

// Whether the library answers what a line expects.
#[derive(Clone, Copy, Debug, PartialEq, Eq)]
pub enum Verdict {
    Agree,
    Differ,
}

impl From<bool> for Verdict {
    ghost from_gives = { λ agrees result. result ≡ verdict agrees };

    fn from(agrees: bool) -> Verdict {
        if agrees {
            Verdict::Agree
        } else {
            Verdict::Differ
        }
    }
}

impl Verdict {
    // The verdict on two parts of a line.
    pub fn and(self, other: Verdict) -> Verdict
        ensures { result ≡ both self other }
    {
        match self {
            Verdict::Agree => other,
            Verdict::Differ => Verdict::Differ,
        }
    }
}

// The verdict on the numbers that a line expects; none where it has another count of them than there are answers.
pub fn verdict_on(expected: &[u64], answers: &[u64]) -> Option<Verdict>
    ensures { result ≡ verdict_on expected.now answers.now }
{
    if expected.len() == answers.len() {
        Some(Verdict::from(expected == answers))
    } else {
        None
    }
}

// The verdict where the answer is two numbers.
pub fn pair_verdict(expected: &[u64], number: u64, value: u64) -> Option<Verdict>
    ensures { result ≡ pair_verdict expected.now number value }
{
    verdict_on(expected, &[number, value])
}

// The verdict where the answer is a number or nothing.
pub fn found_verdict(expected: &[u64], answer: Option<u32>) -> Option<Verdict>
    ensures { result ≡ found_verdict expected.now answer }
{
    match answer {
        Some(value) => pair_verdict(expected, 1, u64::from(value)),
        None => pair_verdict(expected, 0, 0),
    }
}
