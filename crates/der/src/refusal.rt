// Why something is refused, and where.
ghost use Rattle.std.specs.Prelude.{◌≡◌};
ghost use Rattle.der.specs.Refusals.{number_of};

// The closed list of reasons. Each has a fixed number, which users and other tools see.
#[derive(Clone, Copy, PartialEq, Eq)]
pub enum Reason {
    // Reading: what is wrong with the bytes.
    FileTooLong = 1,
    CutShort = 2,
    LengthForm = 3,
    WrongTag = 4,
    BytesLeft = 5,
    BadContent = 6,
    TextSize = 7,
    ListSize = 8,
    Repeated = 9,
    EntryMissing = 10,
    CriticalMark = 11,
    AlgorithmsDiffer = 12,
    Status = 13,
    OtherKind = 14,
    // Vouching, staging, booking and withdrawing: what is wrong with the call.
    NotVouched = 20,
    ClaimOut = 21,
    NotHead = 22,
    AlreadyFitted = 23,
    NotFitted = 24,
    TooManyKeys = 25,
    TooManyParts = 26,
    ClaimVoid = 27,
    NamedTwice = 28,
}

// The reason's number.
impl From<Reason> for u8 {
    ghost from_gives = { λ reason number. number ≡ number_of reason };

    fn from(reason: Reason) -> u8 {
        reason as u8
    }
}

impl Reason {
    // The refusal for this reason, at a place.
    pub fn at(self, place: usize) -> Refusal
        ensures { result ≡ record { reason = self; place = place } }
    {
        Refusal {
            reason: self,
            place,
        }
    }
}

// A refusal: the reason and the place it counts at. In a file the place is an offset;
// at a call it is the number of a field or of a change, or 0.
#[derive(Clone, Copy, PartialEq, Eq)]
pub struct Refusal {
    pub reason: Reason,
    pub place: usize,
}
