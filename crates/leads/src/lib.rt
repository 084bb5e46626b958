// Who leads a room: a lead is made, a lead is ended, the leads are counted.
#![tactic(auto)]

ghost use Rattle.std.specs.Prelude.{◌≡◌};
ghost use Rattle.records.specs.House.{view, user, put_user};
ghost use Rattle.leads.specs.Leads.{leading, lead_ended, lead_count};

use records::Cells;

// Who is made a lead joins nothing. (Two functions, here and below: one that is passed `with` or `without` would be longer than both.)
pub fn make_lead(records: &mut Cells, w: u8, room: u8)
    ensures { view records.new ≡ put_user (view records.old) w (leading room (user (view records.old) w)) }
{
    let i = w as usize;
    let mut user = records::user_at(records, i);
    user.leads = records::with(user.leads, room);
    records::put_user(records, i, user);
}

// Whose lead ends stays a member, if he was one.
pub fn end_lead(records: &mut Cells, w: u8, room: u8)
    ensures { view records.new ≡ put_user (view records.old) w (lead_ended room (user (view records.old) w)) }
{
    let i = w as usize;
    let mut user = records::user_at(records, i);
    user.leads = records::without(user.leads, room);
    records::put_user(records, i, user);
}

pub fn count_leads(records: &Cells, room: u8) -> u32
    ensures { result ≡ lead_count (view records.now) room }
{
    (0..64)
        .filter(|i| records::has(records::user_at(records, *i).leads, room))
        .count() as u32
}
