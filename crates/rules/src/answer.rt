// What comes back from a start or a step.
ghost use Rattle.std.specs.Prelude.{◌≡◌};
ghost use Rattle.rules.specs.Answers.{number_of};

// What an operation has come to. A thread that goes on has stepped; a node was reclaimed on its way.
#[derive(Clone, Copy, PartialEq, Eq)]
pub enum Outcome {
    Stepped,
    Started,
    Done(u64),
    Retry(u64),
    Reclaimed(u64),
}

// Why a start or a step is refused.
#[derive(Clone, Copy, PartialEq, Eq)]
pub enum Refusal {
    TableSize = 16,
    Thread,
    ShutDown,
    StepLimit,
    Inside,
    Idle,
    Record,
    Source,
    Node,
    NotRetirable,
    NoRecords,
    InUse,
    NoOperation,
    OutOfRange,
}

impl Refusal {
    pub fn number(self) -> u32
        ensures { result ≡ number_of self }
    {
        self as u32
    }
}

// The same as a number and a value, which a replay's answer and C have.
#[derive(Clone, Copy)]
pub struct Answer {
    pub number: u32,
    pub value: u64,
}

impl From<Result<Outcome, Refusal>> for Answer {
    ghost use Rattle.rules.specs.Answers.{answer_of};

    ghost from_gives = { λ r a. a ≡ answer_of r };

    fn from(r: Result<Outcome, Refusal>) -> Answer {
        match r {
            Ok(Outcome::Stepped) => Answer {
                number: 0,
                value: 0,
            },
            Ok(Outcome::Started) => Answer {
                number: 1,
                value: 0,
            },
            Ok(Outcome::Done(value)) => Answer { number: 2, value },
            Ok(Outcome::Retry(value)) => Answer { number: 3, value },
            Ok(Outcome::Reclaimed(value)) => Answer { number: 4, value },
            Err(refusal) => Answer {
                number: refusal.number(),
                value: 0,
            },
        }
    }
}
