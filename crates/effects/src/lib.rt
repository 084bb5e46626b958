// The effect of each granted request on the records: one function a kind of effect, and `apply` over all kinds.
#![tactic(auto)]

mod people;
mod texts;

ghost use Rattle.std.specs.Prelude.{◌≡◌};
ghost use Rattle.records.specs.House.{view};
ghost use Rattle.effects.specs.Effects.{change_of, applied};

pub use people::{disband, enrol, establish, join, join_outsider, leave};
use records::Cells;
use request::Request;
pub use texts::{add_place, create, new_draft, remove_place, update};

// A granted request with the draft number that it received, 0 where it received none. This is all that is kept of a grant.
#[derive(Clone, Copy)]
pub struct Change {
    pub request: Request,
    pub number: u32,
}

// The request and its number come apart: put together, a request would be copied for each change that is made again.
#[tactic(auto, unfolding(crate::specs::Effects::applied))]
pub fn apply(records: &mut Cells, request: Request, number: u32)
    ensures { view records.new ≡ applied (view records.old) (change_of request number) }
{
    match request {
        Request::Enrol {
            new,
            sort,
            level,
            categories,
            admin,
            ..
        } => enrol(records, new, sort, level, categories, admin),
        Request::Establish { u, room } => establish(records, u, room),
        Request::JoinStaff { w, room, .. } => join(records, w, room),
        Request::LeaveStaff { w, room, .. } => leave(records, w, room),
        Request::JoinOutsider {
            w,
            room,
            level,
            categories,
            ..
        } => join_outsider(records, w, room, level, categories),
        Request::LeaveOutsider { w, room, .. } => leave(records, w, room),
        Request::Add {
            script,
            number: v,
            room,
            ..
        } => add_place(records, script, v, room),
        Request::Remove {
            script,
            number: v,
            room,
            ..
        } => remove_place(records, script, v, room),
        Request::Import { script2, .. } => new_draft(records, number, script2, 0),
        Request::Merge {
            script,
            number: v,
            ..
        } => add_place(records, script, v, 0),
        Request::Disband { room, .. } => disband(records, room),
        Request::MakeLead { w, room, .. } => leads::make_lead(records, w, room),
        Request::EndLead { w, room, .. } => leads::end_lead(records, w, room),
        Request::OpenInRoom {
            u,
            session,
            room,
            level,
            categories,
        } => sessions::open_writing(records, u, session, level, categories, room),
        Request::OpenInHouse {
            u,
            session,
            level,
            categories,
        } => sessions::open_writing(records, u, session, level, categories, 0),
        Request::OpenReadOnly {
            u,
            session,
            level,
            categories,
        } => sessions::open_reading(records, u, session, level, categories),
        Request::Update {
            session,
            script,
            ..
        } => update(records, session, script, number),
        Request::Create { session, script } => create(records, session, script, number),
        Request::Kill { session, .. } => sessions::kill(records, session),
        Request::Read { .. } | Request::TakeBack { .. } => {}
    }
}
