// The refusals of the calls by name: what is wrong and, where the papers tell one, the place of it.
// Their numbers are those of documents 01 and 02; a refusal without a place has place 0.
#![tactic(auto)]

ghost use Rattle.std.specs.Prelude.{◌≡◌};
ghost use Rattle.refusals.specs.Refusals.{number, place};

// Why a call is refused, in the order of the numbers from 1; the place is an index into the links or the ear that were lent.
#[derive(Clone, Copy, Debug, PartialEq, Eq)]
pub enum Refusal {
    WrongSize,
    LinkTooLarge(u16),
    SelfLink(u16),
    RepeatedLink(u16),
    WrongNames,
    MissingLink,
    WrongLength,
    SwitchTooLarge(u16),
    RepeatedSwitch(u16),
    NotJoined(u16),
    UsedAlready(u16),
    WrongCycle,
    UnbornEnd(u16),
    BornBetween(u16),
    LastMisplaced(u16),
    NoneUnborn(u16),
    Unknown,
    TooShort,
    SessionEmpty,
    SessionNotEmpty,
    SessionOpen,
    SessionClosed,
    UnusedLink(u16),
    WrongSizes,
    ReportFull,
    WrongPair,
}

impl Refusal {
    // The number of the refusal.
    pub fn number(self) -> u8
        ensures { result ≡ number self }
    {
        match self {
            Refusal::WrongSize => 1,
            Refusal::LinkTooLarge(_) => 2,
            Refusal::SelfLink(_) => 3,
            Refusal::RepeatedLink(_) => 4,
            Refusal::WrongNames => 5,
            Refusal::MissingLink => 6,
            Refusal::WrongLength => 7,
            Refusal::SwitchTooLarge(_) => 8,
            Refusal::RepeatedSwitch(_) => 9,
            Refusal::NotJoined(_) => 10,
            Refusal::UsedAlready(_) => 11,
            Refusal::WrongCycle => 12,
            Refusal::UnbornEnd(_) => 13,
            Refusal::BornBetween(_) => 14,
            Refusal::LastMisplaced(_) => 15,
            Refusal::NoneUnborn(_) => 16,
            Refusal::Unknown => 17,
            Refusal::TooShort => 18,
            Refusal::SessionEmpty => 19,
            Refusal::SessionNotEmpty => 20,
            Refusal::SessionOpen => 21,
            Refusal::SessionClosed => 22,
            Refusal::UnusedLink(_) => 23,
            Refusal::WrongSizes => 24,
            Refusal::ReportFull => 25,
            Refusal::WrongPair => 26,
        }
    }

    // Its place: the index of a link or of a number of the ear, or 0.
    pub fn place(self) -> u16
        ensures { result ≡ place self }
    {
        match self {
            Refusal::LinkTooLarge(link) => link,
            Refusal::SelfLink(link) => link,
            Refusal::RepeatedLink(link) => link,
            Refusal::SwitchTooLarge(index) => index,
            Refusal::RepeatedSwitch(index) => index,
            Refusal::NotJoined(index) => index,
            Refusal::UsedAlready(index) => index,
            Refusal::UnbornEnd(index) => index,
            Refusal::BornBetween(index) => index,
            Refusal::LastMisplaced(index) => index,
            Refusal::NoneUnborn(index) => index,
            Refusal::UnusedLink(link) => link,
            _ => 0,
        }
    }
}
