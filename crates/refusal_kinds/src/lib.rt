// Why a sample, a run or a call is turned away: a name for each number of the table.
#![tactic(auto)]

ghost use Rattle.refusal_kinds.specs.NumberLaws.{number_injective, number_of_injective};
ghost use Rattle.refusal_kinds.specs.Numbers.{code_of, number, number_of, of_number};
ghost use Rattle.std.specs.Prelude.{◌≡◌, ℕ};

#[derive(Clone, Copy, Debug, PartialEq, Eq)]
pub enum Refusal {
    UnknownPart = 1,
    // Of a memory, of a room for answers, or of what C lends for a state.
    WrongLength = 2,
    // One that no part comes to, two halves in different modes, or a part of a chain in the mode that a chain does not have.
    UnfitState = 3,
    // Of another length, or with a bit set that is to be zero.
    UnreadableRecord = 4,
    NoMasterReset = 5,
    // With LD LOW.
    SeveralEnables = 6,
    // Offsets by the other of the two methods.
    MethodNotSelected = 7,
    // An enable is LOW at the rise, or was at RT's fall or just before it.
    UncleanRetransmit = 8,
    // Words written since the reset.
    RetransmitTooFewOrMany = 9,
    WriteBeforeRetransmitSeen = 10,
    // Of the two records of a pair, which share them.
    PinsDiffer = 11,
    UnsettledData = 12,
    // In a row.
    WrongPartCount = 13,
    // A retransmit, offsets, or a Master Reset into Standard mode.
    NotInChain = 14,
}

impl Refusal {
    pub fn number(self) -> u8
        ensures { result ≡ number self }
    {
        self as u8
    }
}

// What may be turned away, told by its name or by its number alone. Where several are told, the one that counts is found by number, so
// that a number which the table has not is handed on like any other.
pub trait Told: Copy {
    ghost told: { Self → ℕ };

    fn to_number(self) -> u8
        ensures { result ≡ told self };

    fn of_refusal(refusal: Refusal) -> Self
        ensures { told result ≡ number refusal };

    ghost apart: { (one other : Self) → told one ≡ told other → one ≡ other };
}

impl Told for Refusal {
    ghost told = { number };

    ghost apart = { λ one other e. number_injective one other e };

    fn to_number(self) -> u8 {
        self.number()
    }

    fn of_refusal(refusal: Refusal) -> Refusal {
        refusal
    }
}

impl Told for Option<Refusal> {
    ghost told = { number_of };

    ghost apart = { λ one other e. number_of_injective one other e };

    fn to_number(self) -> u8 {
        number_of(self)
    }

    fn of_refusal(refusal: Refusal) -> Option<Refusal> {
        Some(refusal)
    }
}

impl Told for u8 {
    ghost told = { λ n. n };

    ghost apart = { λ one other e. e };

    fn to_number(self) -> u8 {
        self
    }

    fn of_refusal(refusal: Refusal) -> u8 {
        refusal.number()
    }
}

// 0 where nothing is turned away, in both.
pub fn number_of(refusal: Option<Refusal>) -> u8
    ensures { result ≡ number_of refusal }
{
    match refusal {
        None => 0,
        Some(refusal) => refusal.number(),
    }
}

pub fn code_of(done: Result<(), Refusal>) -> u8
    ensures { result ≡ code_of done }
{
    number_of(done.err())
}

// None for 0, and for a number that the table has not.
pub fn of_number(number: u8) -> Option<Refusal>
    ensures { result ≡ of_number number }
{
    let in_order = [
        None,
        Some(Refusal::UnknownPart),
        Some(Refusal::WrongLength),
        Some(Refusal::UnfitState),
        Some(Refusal::UnreadableRecord),
        Some(Refusal::NoMasterReset),
        Some(Refusal::SeveralEnables),
        Some(Refusal::MethodNotSelected),
        Some(Refusal::UncleanRetransmit),
        Some(Refusal::RetransmitTooFewOrMany),
        Some(Refusal::WriteBeforeRetransmitSeen),
        Some(Refusal::PinsDiffer),
        Some(Refusal::UnsettledData),
        Some(Refusal::WrongPartCount),
        Some(Refusal::NotInChain),
    ];
    let place = number as usize;
    if place < in_order.len() {
        in_order[place]
    } else {
        None
    }
}
