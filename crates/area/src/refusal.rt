// Why a call is refused: a named case for each number of 01 and 02, which is its discriminant. When each is given,
// specs/Refusals.antt says.
ghost use Rattle.std.specs.Prelude.{◌≡◌};
ghost use Rattle.area.specs.Refusals.{refusal_number, verdict_number};

#[derive(Clone, Copy, Debug, PartialEq, Eq)]
pub enum Refusal {
    // Of Paths, Plan and Read.
    Incomplete = 1,
    Trailing = 2,
    RouterCount = 3,
    UnknownRouter = 4,
    SelfLink = 5,
    Metric = 6,
    Repeated = 7,
    TableSize = 8,
    TooMany = 9,
    // Of Plan.
    NoChange = 10,
    SameMetric = 11,
    Mixed = 12,
    NoCommonRouter = 13,
    // Of Step, which has UnknownRouter too.
    Record = 20,
    Kind = 21,
    State = 23,
    Waiting = 24,
    NotDue = 25,
    Unwritten = 26,
    NotDone = 27,
    NotTold = 28,
    // Of Read: a link of a file that is not used.
    DeadLink = 30,
    // Of areas from IS-IS, which have those of Read too but for DeadLink, Repeated and TooMany.
    PastList = 31,
    LongSubTlvs = 32,
    UnknownIdentity = 33,
    // Of Step: the timers.
    TooEarly = 34,
    ClockEnd = 35,
    // Of Plan: the step time.
    NoStepTime = 36,
}

impl Refusal {
    // The paper's number.
    #[tactic(auto, unfolding(crate::specs::Refusals::refusal_number))]
    pub fn number(self) -> u8
        ensures number { result ≡ refusal_number self }
    {
        self as u8
    }
}

// The number of an answer: the refusal's, or 0 where nothing is refused.
pub fn number_of<T>(answer: &Result<T, Refusal>) -> u8
    ensures number { result ≡ verdict_number answer.now }
{
    match answer {
        Ok(_) => 0,
        Err(why) => why.number(),
    }
}
