// Conditions asked in order, each with the reason that it gives where it fails: one function a condition. They read the records and change nothing.
#![tactic(auto)]

mod numbers;
mod people;
mod sessions;
mod shared;
mod texts;

ghost use Rattle.std.specs.Prelude.{is_some, ◌≡◌, [], ◌∷◌, not};
ghost use Rattle.records.specs.Places.{only};
ghost use Rattle.reasons.specs.Reasons.{reason, decided, no_record, bare, kind_number};
ghost use Rattle.reasons.specs.Asking.{◌unless◌, ◌because◌, asked, told};
ghost use Rattle.reasons.specs.Shared.{label_lines};

use label::Parts;

// A function for each condition of the table of reasons, by its name, though several have one shape.
pub use numbers::{
    change_left, draft_room, first_has, id, level, number_left, plain, room_high, room_low, sort,
    yes_no,
};
pub use people::{
    administers, another_lead, enroller_exists, enrolls, freelancer, in_room, lead, leads, not_in,
    not_lead, not_staff, opens, room_exists, room_new, staff, user_exists, user_new,
};
pub use sessions::{
    as_script, covers, may_kill, seated, sees, session_exists, session_new, writes,
};
pub use shared::{draft_asked, draft_led, pair_led, pair_numbers};
pub use texts::{among, draft_exists, imports, not_among, of_origin, script_exists, script_new};

// The refusal's number, the kind and id of the record that decided (0 and 0 where none did), the value that it holds, the value wanted.
// A number, and no enum: 01 and the pages name a refusal by it alone, `lowest` compares numbers, and C reads it and the kind.
#[derive(Clone, Copy)]
pub struct Reason {
    pub number: u8,
    pub kind: u8,
    pub id: u32,
    pub held: u32,
    pub wanted: u32,
}

// A number alone: what is told of bytes that are no request, and, as 0, of a grant.
pub fn bare(number: u8) -> Reason
    ensures { result ≡ bare number }
{
    Reason {
        number,
        kind: 0,
        id: 0,
        held: 0,
        wanted: 0,
    }
}

// The reason; of a grant all zeros.
pub fn told(asked: Result<(), Reason>) -> Reason
    ensures { result ≡ told asked }
{
    match asked {
        Ok(()) => bare(0),
        Err(reason) => reason,
    }
}

// The kinds of records that a reason names, with their numbers.
#[derive(Clone, Copy)]
enum Kind {
    User = 0x41,
    Room = 0x42,
    Script = 0x43,
    Session = 0x44,
    Draft = 0x45,
}

// ---- one line: its number, its fact, and what decides where that fails
#[tactic(auto, unfolding(crate::specs::Asking::asked))]
fn line(number: u8, fact: bool, kind: u8, id: u32, held: u32, wanted: u32) -> Result<(), Reason>
    ensures { result ≡ asked (number unless fact because decided kind id held wanted ∷ []) }
{
    if fact {
        return Ok(());
    }
    Err(Reason {
        number,
        kind,
        id,
        held,
        wanted,
    })
}

// Where no record decides: the value asked for or reached, and its bound.
fn no_record(number: u8, fact: bool, value: u32, bound: u32) -> Result<(), Reason>
    ensures { result ≡ asked (number unless fact because no_record value bound ∷ []) }
{
    line(number, fact, 0, 0, value, bound)
}

fn of(kind: Kind, number: u8, fact: bool, id: u32, held: u32, wanted: u32) -> Result<(), Reason>
    ensures { result ≡ asked (number unless fact because decided (kind_number kind) id held wanted ∷ []) }
{
    line(number, fact, kind as u8, id, held, wanted)
}

// What must exist and does not.
fn missing(id: u32) -> Reason
    ensures { result ≡ reason 4 (no_record id 0) }
{
    Reason {
        held: id,
        ..bare(4)
    }
}

// A lookup that finds nothing is itself refusal 4.
#[tactic(auto, unfolding(crate::specs::Asking::asked))]
fn exists(found: Option<usize>, id: u8) -> Result<(), Reason>
    ensures { result ≡ asked (4 unless is_some found because no_record id 0 ∷ []) }
{
    let Some(_) = found else {
        return Err(missing(u32::from(id)));
    };
    Ok(())
}

// What must not be there: its id is told twice.
fn is_new(kind: Kind, there: bool, id: u8) -> Result<(), Reason>
    ensures { result ≡ asked (5 unless not there because decided (kind_number kind) id id id ∷ []) }
{
    let id = u32::from(id);
    of(kind, 5, !there, id, id, id)
}

// Two labels, of which these parts fail or differ: the record holds level and categories, and l and c are wanted. The place never counts.
#[tactic(auto, using(crate::proofs::Asking::first))]
fn labels(
    parts: Parts,
    kind: Kind,
    id: u8,
    level: u8,
    categories: u16,
    l: u8,
    c: u16,
) -> Result<(), Reason>
    ensures { result ≡ asked (label_lines parts (decided (kind_number kind) id) level categories l c) }
{
    let id = u32::from(id);
    of(kind, 9, !parts.level, id, u32::from(level), u32::from(l))?;
    of(
        kind,
        16,
        !parts.categories,
        id,
        u32::from(categories),
        u32::from(c),
    )
}

// The set of one place.
fn only(place: u8) -> u32
    ensures { result ≡ only place }
{
    records::with(0, place)
}
