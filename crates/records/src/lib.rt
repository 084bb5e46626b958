// The records of one house: where they lie, how an element is read and stored, and what a lookup finds.
#![tactic(auto)]

mod people;
mod sessions;
mod sets;
mod texts;

ghost use Rattle.std.specs.Prelude.{◌≡◌};
ghost use Rattle.records.specs.House.{view, empty_house};

pub use people::{find_room, find_user, no_user, put_rooms, put_user, rooms, user_at};
pub use sessions::{find_session, no_session, put_session, session_at};
pub use sets::{has, with, without};
pub use texts::{
    add_draft, cut_drafts, draft_at, draft_count, find_draft, find_script, no_script, put_draft,
    put_script, script_at,
};

// The rooms that exist, the number of live drafts, then the tables: 64 users of 7 cells, 64 scripts of 4, 64 sessions of 6, 256 drafts of 3.
// An absent slot is all zeros, and the live drafts stand first, by ascending number. A field of one or two bytes is the low bytes of its cell.
// One array of numbers, and no Vec of elements: C lends it, and there is no heap.
pub type Cells = [u32; 1858];

const USERS: usize = 2;

const SCRIPTS: usize = 450;

const SESSIONS: usize = 706;

const DRAFTS: usize = 1090;

// Whether an element is there is a field, and no Option, and a sort is a number: `view` shows what the cells hold, and C lends any cells, so that an absent
// user may have a lead, which `lead_count` counts.
//
// Sort: 0 staff, 1 freelancer, 2 outsider. Rooms and leads are sets: the rooms joined, the rooms led.
#[derive(Clone, Copy, PartialEq, Eq, Default)]
pub struct User {
    pub here: bool,
    pub sort: u8,
    pub level: u8,
    pub categories: u16,
    pub rooms: u32,
    pub leads: u32,
    pub admin: bool,
}

#[derive(Clone, Copy, PartialEq, Eq, Default)]
pub struct Script {
    pub here: bool,
    pub level: u8,
    pub categories: u16,
    pub origin: u8,
}

// Writes: an RW session, at a place; an RO session has none, and 255 stands there.
#[derive(Clone, Copy, PartialEq, Eq, Default)]
pub struct Session {
    pub here: bool,
    pub owner: u8,
    pub level: u8,
    pub categories: u16,
    pub writes: bool,
    pub place: u8,
}

#[derive(Clone, Copy, PartialEq, Eq, Default)]
pub struct Draft {
    pub number: u32,
    pub script: u8,
    pub places: u32,
}

// The rule that a desk is opened under, for its whole life: what Import asks of the labels of two scripts.
#[derive(Clone, Copy, PartialEq, Eq)]
pub enum Rule {
    One,
    Two,
}

// No user, no room, no script, no session, no draft.
pub fn clear(records: &mut Cells)
    ensures { view records.new ≡ empty_house }
{
    *records = [0u32; 1858];
}
