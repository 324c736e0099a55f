// Why a text is refused, with the byte at which it is so.
ghost use Rattle.std.specs.Prelude.{◌≡◌};
ghost use Rattle.grammar.specs.Refusals.{number_of, place_of};

#[derive(Clone, Copy, PartialEq, Eq, Debug)]
pub enum Refusal {
    // no text goes on so
    Shape(usize),
    // a name that isn't there, or is there twice
    Unknown(usize),
    Twice(usize),
    // a number of 2^32 or more, a 65th own number, more than 16,384 cells
    Large(usize),
    ManyNames(usize),
    ManyCells(usize),
    // line 1,025, a line's 1,025th byte, lines in each other 17 deep
    ManyLines(usize),
    Long(usize),
    Deep(usize),
}

// The number that is told.
pub fn refusal_number(refusal: Refusal) -> u8
    ensures { result ≡ number_of refusal }
{
    match refusal {
        Refusal::Shape(_) => 1,
        Refusal::Unknown(_) | Refusal::Twice(_) => 2,
        Refusal::Large(_) | Refusal::ManyNames(_) | Refusal::ManyCells(_) => 3,
        Refusal::ManyLines(_) | Refusal::Long(_) | Refusal::Deep(_) => 4,
    }
}

// The byte at which it is so.
pub fn refusal_place(refusal: Refusal) -> usize
    ensures { result ≡ place_of refusal }
{
    match refusal {
        Refusal::Shape(p)
        | Refusal::Unknown(p)
        | Refusal::Twice(p)
        | Refusal::Large(p)
        | Refusal::ManyNames(p)
        | Refusal::ManyCells(p)
        | Refusal::ManyLines(p)
        | Refusal::Long(p)
        | Refusal::Deep(p) => p,
    }
}
