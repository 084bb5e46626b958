// The judge: for each kind of request the grant, or the first condition that fails with its reason. It reads the records and changes nothing.
#![tactic(auto)]

#[tactic(auto, using(reasons::proofs::Asking::first, reasons::proofs::Asking::more), unfolding(crate::specs::Kinds::enrol_numbers, crate::specs::Kinds::establish_lines, crate::specs::Kinds::disband_lines, crate::specs::Kinds::take_back_lines))]
mod people;
#[tactic(auto, using(reasons::proofs::Asking::first, reasons::proofs::Asking::more, std::proofs::lemmas::List::get_or_past), unfolding(crate::specs::Kinds::create_lines, crate::specs::Kinds::kill_lines))]
mod sessions;
#[tactic(auto, using(reasons::proofs::Asking::first, reasons::proofs::Asking::more, std::proofs::lemmas::List::get_or_past), unfolding(crate::specs::Kinds::import_numbers, crate::specs::Kinds::import_exists))]
mod texts;

ghost use Rattle.std.specs.Prelude.{◌≡◌};
ghost use Rattle.records.specs.House.{view};
ghost use Rattle.judge.specs.Kinds.{ruling_of};

use people::{
    disband, end_lead, enrol, establish, join_outsider, join_staff, leave_outsider, leave_staff,
    make_lead, take_back,
};
use reasons::Reason;
use records::{Cells, Rule};
use request::Request;
use sessions::{create, kill, open_in_house, open_in_room, open_read_only, read, update};
use texts::{add, import, merge, remove};

// What is granted. Whoever keeps the changes still asks the counter for a number (refusal 11), and whether there is a change to take back (refusal 12).
#[derive(Clone, Copy, PartialEq, Eq)]
pub enum Grant {
    // nothing changes
    Pass,
    // the change is kept
    Keep,
    // it is kept with a number that is to be issued
    KeepNumbered,
    // the newest kept change may be taken back
    TakeBack,
}

// ---- every kind, on a desk under the rule. The grant stands in each arm, so that a kind's walk is compiled into it.
#[tactic(auto, unfolding(crate::specs::Kinds::ruling_of))]
pub fn judge(records: &Cells, rule: Rule, request: Request) -> Result<Grant, Reason>
    ensures { result ≡ ruling_of rule (view records.now) request }
{
    match request {
        Request::Enrol {
            u,
            new,
            sort,
            level,
            categories,
            admin,
        } => enrol(records, u, new, sort, level, categories, admin).and(Ok(Grant::Keep)),
        Request::Establish { u, room } => establish(records, u, room).and(Ok(Grant::Keep)),
        Request::JoinStaff { u, w, room } => join_staff(records, u, w, room).and(Ok(Grant::Keep)),
        Request::LeaveStaff { u, w, room } => leave_staff(records, u, w, room).and(Ok(Grant::Keep)),
        Request::JoinOutsider {
            u,
            w,
            room,
            level,
            categories: _,
        } => join_outsider(records, u, w, room, level).and(Ok(Grant::Keep)),
        Request::LeaveOutsider { u, w, room } => leave_outsider(records, u, w, room).and(Ok(
            Grant::Keep,
        )),
        Request::Add {
            u,
            script,
            number,
            room,
        } => add(records, u, script, number, room).and(Ok(Grant::Keep)),
        Request::Remove {
            u,
            script,
            number,
            room,
        } => remove(records, u, script, number, room).and(Ok(Grant::Keep)),
        Request::Import {
            u,
            script1,
            number,
            script2,
            room,
        } => import(records, rule, u, script1, number, script2, room).and(Ok(Grant::KeepNumbered)),
        Request::Merge {
            u,
            script,
            number,
            room,
        } => merge(records, u, script, number, room).and(Ok(Grant::Keep)),
        Request::Disband { u, room } => disband(records, u, room).and(Ok(Grant::Keep)),
        Request::MakeLead { u, w, room } => make_lead(records, u, w, room).and(Ok(Grant::Keep)),
        Request::EndLead { u, w, room } => end_lead(records, u, w, room).and(Ok(Grant::Keep)),
        Request::OpenInRoom {
            u,
            session,
            room,
            level,
            categories,
        } => open_in_room(records, u, session, room, level, categories).and(Ok(Grant::Keep)),
        Request::OpenInHouse {
            u,
            session,
            level,
            categories,
        } => open_in_house(records, u, session, level, categories).and(Ok(Grant::Keep)),
        Request::OpenReadOnly {
            u,
            session,
            level,
            categories,
        } => open_read_only(records, u, session, level, categories).and(Ok(Grant::Keep)),
        Request::Read {
            session,
            script,
            number,
        } => read(records, session, script, number).and(Ok(Grant::Pass)),
        Request::Update {
            session,
            script,
            number,
        } => update(records, session, script, number).and(Ok(Grant::KeepNumbered)),
        Request::Create { session, script } => create(records, session, script).and(Ok(
            Grant::KeepNumbered,
        )),
        Request::Kill { u, session } => kill(records, u, session).and(Ok(Grant::Keep)),
        Request::TakeBack { u } => take_back(records, u).and(Ok(Grant::TakeBack)),
    }
}
