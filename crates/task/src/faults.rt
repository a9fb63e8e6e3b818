ghost use Rattle.std.specs.Prelude.{◌≡◌, Some};
ghost use Rattle.rows.specs.Refusals.{word};
ghost use Rattle.task.specs.Answers.{refusal_of};

use rows::refusals::Refusal;
use std::error::Error;
use std::fmt;

// Why the reader refuses a file, in the order in which it looks.
#[derive(Clone, Copy, Debug, PartialEq, Eq, Hash)]
pub enum Fault {
    Stub,
    Contents,
    Count,
    Position,
    Price,
    Name,
}

impl Fault {
    // The refusal of the same name, which has the number and the word.
    pub fn refusal(self) -> Refusal
        ensures { result ≡ refusal_of self }
    {
        match self {
            Fault::Stub => Refusal::Stub,
            Fault::Contents => Refusal::Contents,
            Fault::Count => Refusal::Count,
            Fault::Position => Refusal::Position,
            Fault::Price => Refusal::Price,
            Fault::Name => Refusal::Name,
        }
    }
}

impl fmt::Display for Fault {
    ghost output = { λ fault. Some (word (refusal_of fault)) };

    fn fmt<W: fmt::Write>(&self, f: &mut fmt::Formatter<W>) -> fmt::Result {
        f.write_str(self.refusal().word())
    }
}

impl Error for Fault {}

impl From<Fault> for Refusal {
    ghost from_gives = { λ fault refusal. refusal ≡ refusal_of fault };

    fn from(fault: Fault) -> Refusal {
        fault.refusal()
    }
}
