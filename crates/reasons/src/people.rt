// Conditions of users and rooms. A user's place is his id.
ghost use Rattle.std.specs.Prelude.{◌≡◌, [], ◌∷◌};
ghost use Rattle.records.specs.House.{view, user};
ghost use Rattle.records.specs.Places.{only};
ghost use Rattle.reasons.specs.Reasons.{a_user};
ghost use Rattle.reasons.specs.Asking.{◌unless◌, ◌because◌, asked};
ghost use Rattle.reasons.specs.Lines.{user_exists, room_exists, enroller_exists, user_new, room_new, enrolls, administers, leads_room, of_staff, not_of_staff, a_freelancer, not_yet_in, in_room, not_yet_lead, is_lead, another_lead};
ghost use Rattle.reasons.specs.Shared.{opens};

use crate::{Kind, Reason, exists, is_new, labels, no_record, of, only};
use records::Cells;

pub fn user_exists(records: &Cells, u: u8) -> Result<(), Reason>
    ensures { result ≡ asked (user_exists (view records.now) u ∷ []) }
{
    exists(records::find_user(records, u), u)
}

pub fn room_exists(records: &Cells, room: u8) -> Result<(), Reason>
    ensures { result ≡ asked (room_exists (view records.now) room ∷ []) }
{
    exists(records::find_room(records, room), room)
}

// Empty: there are no users.
pub fn enroller_exists(records: &Cells, empty: bool, u: u8) -> Result<(), Reason>
    ensures { result ≡ asked (enroller_exists (view records.now) empty u ∷ []) }
{
    let there = empty | conditions::is_user(records, usize::from(u));
    no_record(4, there, u32::from(u), 0)
}

pub fn user_new(records: &Cells, new: u8) -> Result<(), Reason>
    ensures { result ≡ asked (user_new (view records.now) new ∷ []) }
{
    is_new(Kind::User, records::find_user(records, new).is_some(), new)
}

pub fn room_new(records: &Cells, room: u8) -> Result<(), Reason>
    ensures { result ≡ asked (room_new (view records.now) room ∷ []) }
{
    is_new(
        Kind::Room,
        records::find_room(records, room).is_some(),
        room,
    )
}

pub fn enrolls(records: &Cells, empty: bool, u: u8) -> Result<(), Reason>
    ensures { result ≡ asked (enrolls (view records.now) empty u ∷ []) }
{
    let admin = records::user_at(records, usize::from(u)).admin;
    let fact = empty | admin;
    of(Kind::User, 6, fact, u32::from(u), u32::from(admin), 1)
}

pub fn administers(records: &Cells, u: u8) -> Result<(), Reason>
    ensures { result ≡ asked (administers (view records.now) u ∷ []) }
{
    enrolls(records, false, u)
}

// Of the rooms that w leads, and of those that w is in, this one is told.
fn of_leads(records: &Cells, number: u8, fact: bool, w: u8, room: u8) -> Result<(), Reason>
    ensures { result ≡ asked (number unless fact because a_user w (user (view records.now) w).leads (only room) ∷ []) }
{
    let held = records::user_at(records, usize::from(w)).leads;
    of(Kind::User, number, fact, u32::from(w), held, only(room))
}

fn of_rooms(records: &Cells, fact: bool, w: u8, room: u8) -> Result<(), Reason>
    ensures { result ≡ asked (8 unless fact because a_user w (user (view records.now) w).rooms (only room) ∷ []) }
{
    let held = records::user_at(records, usize::from(w)).rooms;
    of(Kind::User, 8, fact, u32::from(w), held, only(room))
}

fn of_sort(records: &Cells, fact: bool, w: u8, wanted: u32) -> Result<(), Reason>
    ensures { result ≡ asked (7 unless fact because a_user w (user (view records.now) w).sort wanted ∷ []) }
{
    let held = u32::from(records::user_at(records, usize::from(w)).sort);
    of(Kind::User, 7, fact, u32::from(w), held, wanted)
}

pub fn leads(records: &Cells, u: u8, room: u8) -> Result<(), Reason>
    ensures { result ≡ asked (leads_room (view records.now) u room ∷ []) }
{
    of_leads(
        records,
        6,
        conditions::leads(records, usize::from(u), room),
        u,
        room,
    )
}

pub fn staff(records: &Cells, w: u8) -> Result<(), Reason>
    ensures { result ≡ asked (of_staff (view records.now) w ∷ []) }
{
    of_sort(records, conditions::is_staff(records, usize::from(w)), w, 0)
}

pub fn not_staff(records: &Cells, w: u8) -> Result<(), Reason>
    ensures { result ≡ asked (not_of_staff (view records.now) w ∷ []) }
{
    of_sort(
        records,
        !conditions::is_staff(records, usize::from(w)),
        w,
        2,
    )
}

pub fn freelancer(records: &Cells, w: u8) -> Result<(), Reason>
    ensures { result ≡ asked (a_freelancer (view records.now) w ∷ []) }
{
    of_sort(
        records,
        conditions::is_freelancer(records, usize::from(w)),
        w,
        1,
    )
}

pub fn not_in(records: &Cells, w: u8, room: u8) -> Result<(), Reason>
    ensures { result ≡ asked (not_yet_in (view records.now) w room ∷ []) }
{
    of_rooms(
        records,
        !conditions::is_in(records, usize::from(w), room),
        w,
        room,
    )
}

pub fn in_room(records: &Cells, w: u8, room: u8) -> Result<(), Reason>
    ensures { result ≡ asked (in_room (view records.now) w room ∷ []) }
{
    of_rooms(
        records,
        conditions::is_in(records, usize::from(w), room),
        w,
        room,
    )
}

pub fn not_lead(records: &Cells, w: u8, room: u8) -> Result<(), Reason>
    ensures { result ≡ asked (not_yet_lead (view records.now) w room ∷ []) }
{
    of_leads(
        records,
        8,
        !conditions::leads(records, usize::from(w), room),
        w,
        room,
    )
}

pub fn lead(records: &Cells, w: u8, room: u8) -> Result<(), Reason>
    ensures { result ≡ asked (is_lead (view records.now) w room ∷ []) }
{
    of_leads(
        records,
        8,
        conditions::leads(records, usize::from(w), room),
        w,
        room,
    )
}

// Of a lead of the room: there is one more.
pub fn another_lead(records: &Cells, room: u8) -> Result<(), Reason>
    ensures { result ≡ asked (another_lead (view records.now) room ∷ []) }
{
    let n = leads::count_leads(records, room);
    of(Kind::Room, 8, 2 <= n, u32::from(room), n, 2)
}

// Of a session that is opened: its label is within the owner's.
#[tactic(auto, unfolding(crate::specs::Shared::opens))]
pub fn opens(records: &Cells, u: u8, level: u8, categories: u16) -> Result<(), Reason>
    ensures { result ≡ asked (opens (view records.now) u level categories) }
{
    let parts = conditions::opening(records, usize::from(u), level, categories);
    let owner = records::user_at(records, usize::from(u));
    labels(
        parts,
        Kind::User,
        u,
        owner.level,
        owner.categories,
        level,
        categories,
    )
}
