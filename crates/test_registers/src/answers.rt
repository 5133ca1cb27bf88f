// The answer of a filing, with a refusal in plain numbers.
use refusals::Refusal;
use updates::Entered;

// A refusal's number and its place.
#[derive(Clone, Copy, Debug, PartialEq, Eq)]
pub struct Refused {
    pub number: u64,
    pub place: u64,
}

impl From<Refusal> for Refused {
    fn from(r: Refusal) -> Refused {
        Refused {
            number: r.number() as u64,
            place: r.place() as u64,
        }
    }
}

// The answer.
pub type Told = Result<Entered, Refused>;

// The word for an answer in a line.
pub fn name(told: Told) -> &'static [u8] {
    match told {
        Ok(Entered::New(..)) => b"new",
        Ok(Entered::Present(..)) => b"old",
        Err(_) => b"refused",
    }
}

// The number of the entry or of the refusal.
pub fn number(told: Told) -> u64 {
    match told {
        Ok(Entered::New(n, _) | Entered::Present(n, _)) => n as u64,
        Err(refused) => refused.number,
    }
}
