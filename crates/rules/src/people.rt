// The rules of users and of the rooms that they lead.
ghost use Rattle.std.specs.Prelude.{◌≡◌};
ghost use Rattle.records.specs.Lists.{all};
ghost use Rattle.records.specs.House.{view};
ghost use Rattle.rules.specs.Rules.{user_fits, rooms_there, staff_if_trusted, bare_if_outsider, administered, is_led, all_led};
ghost use Rattle.rules.specs.Walks.{user_keeps};

use crate::label_fits;
use records::{Cells, User};

// ---- of one user
fn user_fits(user: User) -> bool
    ensures { result ≡ user_fits user }
{
    (user.sort <= 2)
        & label_fits(user.level, user.categories)
        & (user.here
            | ((user.sort == 0)
                & (user.level == 0)
                & (user.categories == 0)
                & (user.rooms == 0)
                & (user.leads == 0)
                & !user.admin))
}

fn rooms_there(records: &Cells, user: User) -> bool
    ensures { result ≡ rooms_there (view records.now) user }
{
    let rooms = records::rooms(records);
    ((rooms & user.rooms) == user.rooms) & ((rooms & user.leads) == user.leads)
}

fn staff_if_trusted(user: User) -> bool
    ensures { result ≡ staff_if_trusted user }
{
    !(user.admin | (user.leads != 0)) | (user.sort == 0)
}

fn bare_if_outsider(user: User) -> bool
    ensures { result ≡ bare_if_outsider user }
{
    !(user.sort == 2) | ((user.level == 0) & (user.categories == 0) & (user.rooms == 0))
}

fn user_keeps(records: &Cells, user: User) -> bool
    ensures { result ≡ user_keeps (view records.now) user }
{
    user_fits(user) & rooms_there(records, user) & staff_if_trusted(user) & bare_if_outsider(user)
}

// ---- of all of them
// One expression a table, here and for sessions.
pub(crate) fn users_keep(records: &Cells) -> bool
    ensures { result ≡ all (user_keeps (view records.now)) (view records.now).users }
{
    (0..64).all(|i| user_keeps(records, records::user_at(records, i)))
}

pub(crate) fn administered(records: &Cells) -> bool
    ensures { result ≡ administered (view records.now) }
{
    !(0..64).any(|i| records::user_at(records, i).here)
        | (0..64).any(|i| {
            let user = records::user_at(records, i);
            user.here & user.admin
        })
}

// ---- of each room
fn is_led(records: &Cells, room: u8) -> bool
    ensures { result ≡ is_led (view records.now) room }
{
    !records::has(records::rooms(records), room) | (1 <= leads::count_leads(records, room))
}

pub(crate) fn all_led(records: &Cells) -> bool
    ensures { result ≡ all_led (view records.now) }
{
    (1..17).all(|room| is_led(records, room))
}
