// Conditions of numbers alone: those of a request's own fields (3, and 6 on a desk without users), and what is left (10, 11, 12).
ghost use Rattle.std.specs.Prelude.{◌≡◌, [], ◌∷◌};
ghost use Rattle.records.specs.House.{view};
ghost use Rattle.reasons.specs.Asking.{asked};
ghost use Rattle.reasons.specs.Lines.{an_id, room_high, room_low, a_level, a_sort, a_yes_no, plain, first_has, room_for_draft, number_left, change_left};

use crate::{Reason, no_record};
use records::Cells;

pub fn id(id: u8) -> Result<(), Reason>
    ensures { result ≡ asked (an_id id ∷ []) }
{
    no_record(3, fields::is_id(id), u32::from(id), 63)
}

pub fn room_high(room: u8) -> Result<(), Reason>
    ensures { result ≡ asked (room_high room ∷ []) }
{
    no_record(3, fields::to_sixteen(room), u32::from(room), 16)
}

pub fn room_low(room: u8) -> Result<(), Reason>
    ensures { result ≡ asked (room_low room ∷ []) }
{
    no_record(3, fields::from_one(room), u32::from(room), 1)
}

pub fn level(level: u8) -> Result<(), Reason>
    ensures { result ≡ asked (a_level level ∷ []) }
{
    no_record(3, fields::is_level(level), u32::from(level), 7)
}

// There is no bound to name.
pub fn sort(sort: u8) -> Result<(), Reason>
    ensures { result ≡ asked (a_sort sort ∷ []) }
{
    no_record(3, fields::is_sort(sort), u32::from(sort), 0)
}

pub fn yes_no(admin: u8) -> Result<(), Reason>
    ensures { result ≡ asked (a_yes_no admin ∷ []) }
{
    no_record(3, fields::is_yes_no(admin), u32::from(admin), 1)
}

// The field is an outsider's level, categories or admin.
pub fn plain(sort: u8, field: u16) -> Result<(), Reason>
    ensures { result ≡ asked (plain sort field ∷ []) }
{
    no_record(3, fields::is_plain(sort, field), u32::from(field), 0)
}

// Empty: there are no users.
pub fn first_has(empty: bool, field: u8, wanted: u8) -> Result<(), Reason>
    ensures { result ≡ asked (first_has empty field wanted ∷ []) }
{
    no_record(
        6,
        fields::is_first(empty, field, wanted),
        u32::from(field),
        u32::from(wanted),
    )
}

pub fn draft_room(records: &Cells) -> Result<(), Reason>
    ensures { result ≡ asked (room_for_draft (view records.now) ∷ []) }
{
    let count = records::draft_count(records);
    no_record(10, conditions::draft_room(records), count as u32, 256)
}

// Last is the last number issued.
pub fn number_left(last: u32) -> Result<(), Reason>
    ensures { result ≡ asked (number_left last ∷ []) }
{
    no_record(11, last != 4294967295, last, 4294967295)
}

// Kept is how many changes are kept.
pub fn change_left(kept: u32) -> Result<(), Reason>
    ensures { result ≡ asked (change_left kept ∷ []) }
{
    no_record(12, kept != 0, kept, 0)
}
