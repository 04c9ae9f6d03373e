// Refusals: each has a number, the layer of a text that gave it, and a byte place in that text.
ghost use Rattle.std.specs.Prelude.{◌≡◌, OnOk, IfErr};
ghost use Rattle.cam.specs.Refusals.{Refused, reason_number, layer_number};

use std::error::Error;
use std::fmt;

// Why a call refuses.
#[derive(Clone, Copy, Debug, PartialEq, Eq)]
pub enum Reason {
    // a text of more than 4,096 bytes
    TextTooLong = 11,
    // a byte that no text has
    ByteNotAllowed = 12,
    // a word of more than 16 letters and digits
    WordTooLong = 13,
    // a word, a bracket or a line feed that the grammar does not want there, or the end of the text
    NotWanted = 21,
    // a remark inside more than seven others
    RemarkTooDeep = 22,
    // a seventeenth element
    TooManyElements = 31,
    // a ninth operation of an element
    TooManyOperations = 32,
    // a write, a read or an erase in a columns element
    OnlyComparesInColumns = 33,
    // words or bits outside the limits of an array
    SizeOutsideLimits = 41,
    // a word or a column outside the array
    OutsideArray = 42,
    // a second storage defect of a cell, or the same defect again
    DefectRepeated = 43,
    // a run is in hand
    RunInHand = 51,
    // a word that the array does not have
    NoSuchWord = 52,
    // a pattern or a mask with bits past the width
    PatternTooWide = 53,
    // the tally would pass the bench's limit, or the starts would
    LimitPassed = 54,
    // no run is in hand, or the ticket is not that of the run
    TicketDoesNotFit = 55,
    // the run is not at its end
    RunNotAtEnd = 56,
    // a buffer that is too short
    BufferTooShort = 57,
    // a piece of a sheet that the buffer has no room for
    PieceDoesNotFit = 61,
    // an element without an operation, or a test without an element
    NothingInside = 62,
    // a name that is not 1 to 16 small letters and digits
    NameNotAllowed = 63,
    // a buffer with fewer bytes than a trial has outcomes
    OutcomesDoNotFit = 71,
    // a campaign on an array that is not of 1 to 16 words of 1 to 16 bits
    CampaignTooLarge = 81,
}

// Which layer of a text gave the refusal; `Call` for a call without a text.
#[derive(Clone, Copy, Debug, PartialEq, Eq)]
pub enum Layer {
    Call = 0,
    Words = 1,
    Forms = 2,
    Meaning = 3,
}

// A refusal. Without a text its layer is `Call` and its place 0.
#[derive(Clone, Copy, Debug, PartialEq, Eq)]
pub struct Fault {
    pub reason: Reason,
    pub layer: Layer,
    pub place: usize,
}

impl Fault {
    // The refusal of a call without a text.
    pub fn of_call(reason: Reason) -> Fault
        ensures refused_without_text { Refused (reason_number reason) result }
        ensures reason_given { result.reason ≡ reason }
    {
        Fault {
            reason,
            layer: Layer::Call,
            place: 0,
        }
    }

    pub fn number(self) -> u8
        ensures number_of_reason { result ≡ reason_number self.reason }
    {
        self.reason as u8
    }

    pub fn layer_number(self) -> u8
        ensures number_of_layer { result ≡ layer_number self.layer }
    {
        self.layer as u8
    }
}

// `refused NUMBER LAYER PLACE`
impl fmt::Display for Fault {
    fn fmt<W: fmt::Write>(&self, f: &mut fmt::Formatter<W>) -> fmt::Result {
        let number = self.number();
        let layer = self.layer_number();
        let place = self.place;
        write!(f, "refused {number} {layer} {place}")
    }
}

impl Error for Fault {}

// A refused call: what it was given, which its caller gets back, and why. It can be dropped where that can.
#[derive(Drop)]
pub struct Returned<T> {
    pub back: T,
    pub fault: Fault,
}

// For a caller that needs the refusal alone.
impl<T: Drop> From<Returned<T>> for Fault {
    ghost from_gives = { λ returned fault. fault ≡ returned.fault };

    fn from(returned: Returned<T>) -> Fault {
        returned.fault
    }
}

// Hands on what a call was given where each of its questions was answered yes, and else back with the refusal.
pub fn granted<T>(given: T, asked: Result<(), Fault>) -> Result<T, Returned<T>>
    ensures granted_where_yes { OnOk asked (result ≡ Ok given) }
    ensures refused_with_the_given { IfErr asked (λ fault. result ≡ Err (record { back = given; fault = fault })) }
{
    match asked {
        Ok(()) => Ok(given),
        Err(fault) => Err(Returned { back: given, fault }),
    }
}
