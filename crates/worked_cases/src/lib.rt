// Worked cases: answers found by hand, which the definitions that the contracts cite are proved to give.
#![tactic(auto)]

ghost use Rattle.worked_cases.specs.Cases.{CasesHold};

// How many cases the table has. The contract says besides that every one holds.
pub fn count() -> usize
    ensures { CasesHold result }
{
    86
}
