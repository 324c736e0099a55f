// Text, field and lent slices are taken together, or refused before anything is changed.
ghost use Rattle.std.specs.Prelude.{◌≡◌, IfOk, Some};
ghost use Rattle.calls.specs.declared.plan.Refused.TheVariants.{Text, Rest};
ghost use Rattle.formats.specs.Field.{read_as};
ghost use Rattle.reader.specs.Texts.{read_at};
ghost use Rattle.calls.specs.Plan.{asked_by, Asks, refused_number, refused_place, refused_words, planned, Plans};

use formats::field::read_field;
use formats::sizes::{Room, check_sizes};
use formats::{refusal, sizes};
use grammar::refusals;
use grammar::refusals::{refusal_number, refusal_place};
use reader::texts::read;
use std::fmt;
use store::Sizes;

// How large everything is, and how many steps are granted.
#[derive(Clone, Copy)]
pub struct Plan {
    pub sizes: Sizes,
    pub granted: u64,
}

// Why a text, a field's bytes or the lent slices are refused.
#[derive(Clone, Copy, PartialEq, Eq, Debug)]
pub enum Refused {
    // the text
    Text(refusals::Refusal),
    // the field's bytes, or a lent slice
    Rest(refusal::Refusal),
}

impl From<refusals::Refusal> for Refused {
    ghost from_gives = { λ why refused. refused ≡ Text why };

    fn from(why: refusals::Refusal) -> Refused {
        Refused::Text(why)
    }
}

impl From<refusal::Refusal> for Refused {
    ghost from_gives = { λ why refused. refused ≡ Rest why };

    fn from(why: refusal::Refusal) -> Refused {
        Refused::Rest(why)
    }
}

impl Refused {
    // The number that is printed of a refusal.
    pub fn number(self) -> u64
        ensures { result ≡ refused_number self }
    {
        match self {
            Refused::Text(why) => refusal_number(why) as u64,
            Refused::Rest(why) => refusal::number_of(why),
        }
    }

    // The place that is printed of it.
    pub fn place(self) -> usize
        ensures { result ≡ refused_place self }
    {
        match self {
            Refused::Text(why) => refusal_place(why),
            Refused::Rest(why) => refusal::place_of(why),
        }
    }
}

impl fmt::Display for Refused {
    ghost output = { λ r. Some (refused_words r) };

    fn fmt<W: fmt::Write>(&self, f: &mut fmt::Formatter<W>) -> fmt::Result {
        let number = self.number();
        let place = self.place();
        write!(f, "refused {number} at {place}")
    }
}

// What a text and a field's bytes ask for.
#[derive(Clone, Copy)]
pub(crate) struct Asked {
    pub shape: sizes::Shape,
    pub granted: u64,
}

// What they ask for; the text is refused before the field's bytes.
pub(crate) fn ask(text: &[u8], bytes: &[u8]) -> Result<Asked, Refused>
    ensures is { result ≡ asked_by (read_at text.now) (read_as bytes.now) }
    ensures known { IfOk result (λ a. Asks text.now bytes.now a) }
{
    let shape = read(text)?;
    let header = read_field(bytes)?;
    Ok(Asked {
        shape: sizes::Shape {
            lines: shape.lines,
            groups: header.groups,
            lanes: header.lanes,
            owns: shape.owns,
            shared: shape.cells,
            field: header.cells,
        },
        granted: header.steps,
    })
}

// The plan for them in the lent slices, if these are long enough.
pub fn make_plan(text: &[u8], bytes: &[u8], room: Room) -> Result<Plan, Refused>
    ensures is { result ≡ planned text.now bytes.now room }
    ensures known { IfOk result (λ p. Plans text.now bytes.now room p) }
{
    let Asked { shape, granted } = ask(text, bytes)?;
    check_sizes(shape, room)?;
    // Field by field, as in told.rt: both types are of other crates.
    let sizes = Sizes {
        groups: shape.groups,
        lanes: shape.lanes,
        owns: shape.owns,
        shared: shape.shared,
        field: shape.field,
    };
    Ok(Plan { sizes, granted })
}
