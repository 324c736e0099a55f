// Why a field's bytes or the lent slices are refused.
ghost use Rattle.std.specs.Prelude.{◌≡◌};
ghost use Rattle.formats.specs.Refused.{number_of, place_of};

// The lent slices, in the order of their places.
#[derive(Clone, Copy, PartialEq, Eq, Debug)]
pub enum Lent {
    Steps,
    Lanes,
    Cells,
    Touches,
    Printed,
}

#[derive(Clone, Copy, PartialEq, Eq, Debug)]
pub enum Refusal {
    // the first byte in fault of a field's bytes
    Field(usize),
    // a lent slice that is too short
    Short(Lent),
}

// The number that is printed of a refusal.
pub fn number_of(refusal: Refusal) -> u64
    ensures { result ≡ number_of refusal }
{
    match refusal {
        Refusal::Field(_) => 5,
        Refusal::Short(_) => 6,
    }
}

// The place that is printed of it.
pub fn place_of(refusal: Refusal) -> usize
    ensures { result ≡ place_of refusal }
{
    match refusal {
        Refusal::Field(at) => at,
        Refusal::Short(slice) => slice as usize,
    }
}
