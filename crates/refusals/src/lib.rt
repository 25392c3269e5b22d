// Why a call is refused. Each public call gives the number of the reason, and 0 where it is not refused.
#![tactic(auto)]

ghost use Rattle.std.specs.Prelude.{◌≡◌};
ghost use Rattle.refusals.specs.Refusals.{number_of, outcome_of};

/// A reason for a refusal. Where several apply, the one with the lowest number is given.
#[derive(Clone, Copy, Debug, PartialEq, Eq)]
pub enum Refusal {
    /// 1: a state that no calls can have led to, as one with a negative count or an id that stands twice.
    Unsound,
    /// 2: more than 64 boxes or ids on a side.
    TooMany,
    /// 3: lengths that do not fit one another.
    Misfit,
    /// 4: a box with no width or no height.
    EmptyBox,
    /// 5: a table that would hold more ids than it has places.
    FullTable,
    /// 6: a log or a lent run with too little room.
    NoRoom,
    /// 7: a counter that would pass 2,147,483,647.
    Overflow,
}

impl Refusal {
    /// The number that a public call gives for this reason.
    pub fn number(self) -> u32
        ensures { result ≡ number_of self }
    {
        match self {
            Refusal::Unsound => 1,
            Refusal::TooMany => 2,
            Refusal::Misfit => 3,
            Refusal::EmptyBox => 4,
            Refusal::FullTable => 5,
            Refusal::NoRoom => 6,
            Refusal::Overflow => 7,
        }
    }
}

/// The number of an outcome: that of its reason, or 0.
pub fn outcome(result_of: Result<(), Refusal>) -> u32
    ensures { result ≡ outcome_of result_of }
{
    match result_of {
        Ok(()) => 0,
        Err(refusal) => refusal.number(),
    }
}
