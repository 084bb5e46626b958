// Sessions: past the end the absent one is read and nothing is stored.
ghost use Rattle.std.specs.Prelude.{◌≡◌};
ghost use Rattle.records.specs.House.{no_session, view, session, put_session};
ghost use Rattle.records.specs.Lookups.{find_session};

use crate::{Cells, SESSIONS, Session};

pub fn no_session() -> Session
    ensures { result ≡ no_session }
{
    Session::default()
}

#[tactic(auto, using(crate::proofs::Tables::table_at, crate::proofs::Tables::table_past, crate::proofs::Views::session_laid), unfolding(crate::specs::House::view))]
pub fn session_at(records: &Cells, i: usize) -> Session
    ensures { result ≡ session (view records.now) i }
{
    if 63 < i {
        return no_session();
    }
    let at = SESSIONS + 6 * i;
    Session {
        here: records[at] != 0,
        owner: (records[at + 1] % 256) as u8,
        level: (records[at + 2] % 256) as u8,
        categories: (records[at + 3] % 65536) as u16,
        writes: records[at + 4] != 0,
        place: (records[at + 5] % 256) as u8,
    }
}

pub fn put_session(records: &mut Cells, i: usize, session: Session)
    ensures { view records.new ≡ put_session (view records.old) i session }
{
    if 63 < i {
        return;
    }
    let at = SESSIONS + 6 * i;
    records[at] = u32::from(session.here);
    records[at + 1] = session.owner as u32;
    records[at + 2] = session.level as u32;
    records[at + 3] = session.categories as u32;
    records[at + 4] = u32::from(session.writes);
    records[at + 5] = session.place as u32;
}

pub fn find_session(records: &Cells, session: u8) -> Option<usize>
    ensures { result ≡ find_session (view records.now) session }
{
    let i = session as usize;
    session_at(records, i).here.then_some(i)
}
