// The refusals of document 01, the number that the paper gives to each, and the place that goes with it.
ghost use Rattle.std.specs.Prelude.{◌≡◌};
ghost use Rattle.terms.specs.Refusals.{number_of, place_of, refused_at, refuse_if, verdict_number, verdict_place};

// A case for each line of the table, in its order, with the number that the paper gives to it.
#[derive(Clone, Copy, Debug, PartialEq, Eq)]
pub enum Refusal {
    WrongParameter = 1,
    WrongLength = 2,
    PositionsRunOut = 3,
    Malformed = 4,
    NoSuchRecord = 5,
    NotAscending = 6,
    UndeclaredRead = 7,
    UndeclaredWrite = 8,
    WrongMoment = 9,
    NoSuchParty = 10,
    PartitionDone = 11,
    WorkerBusyOrIdle = 12,
    NotUnprocessed = 13,
    StateOutOfRange = 14,
    BrokenTables = 15,
}

// Where a refusal lies: the index of a transaction in its batch.
#[derive(Clone, Copy, Debug, PartialEq, Eq)]
pub struct Place {
    pub transaction: usize,
}

// Why a call refuses, and where: the error of every call that can only accept or refuse.
#[derive(Clone, Copy, Debug, PartialEq, Eq)]
pub struct Refused {
    pub refusal: Refusal,
    pub place: Place,
}

// What a call that can only accept or refuse answers.
pub type Verdict = Result<(), Refused>;

impl Refusal {
    // The paper's number.
    pub fn number(self) -> u8
        ensures { result ≡ number_of self }
    {
        self as u8
    }

    // A refusal of the transaction at this index.
    pub fn at(self, transaction: usize) -> Refused
        ensures { result ≡ refused_at self transaction }
    {
        Refused {
            refusal: self,
            place: Place::of(self, transaction),
        }
    }
}

impl Place {
    // "transaction index for 4–8, else 0"
    pub fn of(refusal: Refusal, transaction: usize) -> Place
        ensures { result ≡ place_of refusal transaction }
    {
        if (4..=8).contains(&refusal.number()) {
            Place { transaction }
        } else {
            Place { transaction: 0 }
        }
    }
}

// A check of a chain: the transaction at this index is refused where the fault is there; `?` goes on where it is not.
// The fault is what a test answers, as for `then_some`, and no choice between two functions.
pub fn refuse_if(fault: bool, refusal: Refusal, transaction: usize) -> Verdict
    ensures { result ≡ refuse_if fault refusal transaction (Ok tt) }
{
    if fault {
        Err(refusal.at(transaction))
    } else {
        Ok(())
    }
}

// The refusal's number, and 0 where nothing is refused.
pub fn verdict_number(verdict: Verdict) -> u8
    ensures { result ≡ verdict_number verdict }
{
    match verdict {
        Ok(()) => 0,
        Err(refused) => refused.refusal.number(),
    }
}

// The refusal's place, and 0 where nothing is refused.
pub fn verdict_place(verdict: Verdict) -> usize
    ensures { result ≡ verdict_place verdict }
{
    match verdict {
        Ok(()) => 0,
        Err(refused) => refused.place.transaction,
    }
}
