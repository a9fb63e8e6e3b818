ghost use Rattle.std.specs.Prelude.{◌≡◌, Some, codes};
ghost use Rattle.rows.specs.Refusals.{number, word};

use std::error::Error;
use std::fmt;

// Why a call declines. Each ground has a number and a word, which are what a technician sees.
#[derive(Clone, Copy, Debug, PartialEq, Eq, Hash)]
pub enum Refusal {
    Stub,
    Contents,
    Count,
    Position,
    Price,
    Name,
    BadFile,
    NoSpace,
    Used,
    Idle,
    Torn,
    ShortBuffer,
    Full,
    Misfit,
    Long,
    Known,
}

impl Refusal {
    pub fn number(self) -> u8
        ensures { result ≡ number self }
    {
        match self {
            Refusal::Stub => 1,
            Refusal::Contents => 2,
            Refusal::Count => 3,
            Refusal::Position => 4,
            Refusal::Price => 5,
            Refusal::Name => 6,
            Refusal::BadFile => 7,
            Refusal::NoSpace => 8,
            Refusal::Used => 9,
            Refusal::Idle => 10,
            Refusal::Torn => 11,
            Refusal::ShortBuffer => 12,
            Refusal::Full => 13,
            Refusal::Misfit => 14,
            Refusal::Long => 15,
            Refusal::Known => 16,
        }
    }

    pub fn word(self) -> &'static str
        ensures { result.now ≡ word self }
    {
        match self {
            Refusal::Stub => "Stub",
            Refusal::Contents => "Contents",
            Refusal::Count => "Count",
            Refusal::Position => "Position",
            Refusal::Price => "Price",
            Refusal::Name => "Name",
            Refusal::BadFile => "Bad file",
            Refusal::NoSpace => "No space",
            Refusal::Used => "Used",
            Refusal::Idle => "Idle",
            Refusal::Torn => "Torn",
            Refusal::ShortBuffer => "Short buffer",
            Refusal::Full => "Full",
            Refusal::Misfit => "Misfit",
            Refusal::Long => "Long",
            Refusal::Known => "Known",
        }
    }
}

impl fmt::Display for Refusal {
    ghost output = { λ refusal. Some (word refusal) };

    fn fmt<W: fmt::Write>(&self, f: &mut fmt::Formatter<W>) -> fmt::Result {
        f.write_str(self.word())
    }
}

impl Error for Refusal {}

impl From<Refusal> for u8 {
    ghost from_gives = { λ refusal n. n ≡ number refusal };

    fn from(refusal: Refusal) -> u8 {
        refusal.number()
    }
}
