// The refusals of the calls, with the number and the place of each; the limit; the four kinds of counts.
#![tactic(auto)]

ghost use Rattle.std.specs.Prelude.{◌≡◌};
ghost use Rattle.group.specs.Limits.{limit as theLimit};
ghost use Rattle.refusals.specs.Refusals.{number_of, place_of};
ghost use Rattle.refusals.specs.declared.Failure.TheVariants.{Refused};

// The most letters of a word; also the highest index and the highest sum of exponents of a record.
pub const LIMIT: usize = 4096;

// k of a generator x_k.
#[derive(Clone, Copy)]
pub struct GeneratorIndex(pub u16);

// The number of a leaf of a tree, from the left.
#[derive(Clone, Copy)]
pub struct LeafNumber(pub u16);

// The number of a caret of a tree: caret k stands between the leaves k and k + 1.
#[derive(Clone, Copy)]
pub struct CaretNumber(pub u16);

// The number of a node of a shape, counted from 0 in the order in which the shape is written.
#[derive(Clone, Copy)]
pub struct NodeNumber(pub usize);

// Why a call refuses what it was given.
#[derive(Clone, Copy)]
pub enum Refusal {
    // More letters than the limit.
    TooManyLetters,
    // A byte that is no letter, with its offset.
    NotLetter(usize),
    // The two fields do not frame the record.
    BadFrame,
    // An entry that breaks a rule, with its offset.
    BadEntry(usize),
    // The form is not reduced: the smallest index that breaks the clause.
    NotReduced(GeneratorIndex),
    // A table that is too short.
    ShortTable,
    // An output buffer that is too short.
    ShortBuffer,
    // A spelling with more letters than the limit.
    LongSpelling,
    // A misspelled token of a text, or one whose index is above the limit, with its offset.
    Misspelled(usize),
    // Exponents of a text whose sizes sum above the limit.
    LargeExponents,
    // A text whose reduced form has an index above the limit.
    HighIndex,
    // No well-formed register, or one that is too long.
    BadRegister,
    // The holder has as many live entries as a holder may have.
    HolderFull,
    // The entry does not fit the register, or its number would pass the highest.
    RegisterFull,
    // A shape, packed or not, that is no tree within the bound or has a wrong summary, or a node or leaf it lacks.
    NotTree,
}

// Why a call that is lent tables or scratch of any size gives nothing: a refusal, or what was lent doesn't serve.
#[derive(Clone, Copy)]
pub enum Failure {
    Refused(Refusal),
    Unfit,
}

impl From<Refusal> for Failure {
    ghost from_gives = { λ r f. f ≡ Refused r };

    fn from(r: Refusal) -> Failure {
        Failure::Refused(r)
    }
}

// The constant is the limit of the definitions.
pub fn limit() -> usize
    ensures { result ≡ theLimit }
{
    LIMIT
}

impl Refusal {
    // The number of a refusal.
    pub fn number(self) -> u8
        ensures { result ≡ number_of self }
    {
        match self {
            Refusal::TooManyLetters => 1,
            Refusal::NotLetter(_) => 2,
            Refusal::BadFrame => 3,
            Refusal::BadEntry(_) => 4,
            Refusal::NotReduced(_) => 5,
            Refusal::ShortTable => 6,
            Refusal::ShortBuffer => 7,
            Refusal::LongSpelling => 8,
            Refusal::Misspelled(_) => 9,
            Refusal::LargeExponents => 10,
            Refusal::HighIndex => 11,
            Refusal::BadRegister => 12,
            Refusal::HolderFull => 13,
            Refusal::RegisterFull => 14,
            Refusal::NotTree => 15,
        }
    }

    // The place of a refusal; 0 where none is named.
    pub fn place(self) -> usize
        ensures { result ≡ place_of self }
    {
        match self {
            Refusal::TooManyLetters => LIMIT,
            Refusal::NotLetter(offset) => offset,
            Refusal::BadEntry(offset) => offset,
            Refusal::NotReduced(index) => index.0 as usize,
            Refusal::Misspelled(offset) => offset,
            _ => 0,
        }
    }
}
