// What becomes of sessions: one is opened or ends, and some end together.
#![tactic(auto)]

ghost use Rattle.std.specs.Prelude.{◌≡◌, map};
ghost use Rattle.records.specs.House.{view, put_session, no_session, with_sessions};
ghost use Rattle.sessions.specs.Sessions.{writing, reading, ends, ended};

use records::{Cells, Session};

// Which sessions end: the RW sessions of a room; those of them that w owns; or all sessions of w that the label does not cover.
// An enum, and no closure: who calls a closure has to ask that it may be called, and a public function here asks nothing.
#[derive(Clone, Copy)]
pub enum Ending {
    OfRoom { room: u8 },
    OfMember { w: u8, room: u8 },
    Uncovered { w: u8, level: u8, categories: u16 },
}

// ---- one is opened or ends
// Two functions, here and below: one for both would be handed a flag, and a place that only an RW session has.
pub fn open_writing(records: &mut Cells, u: u8, s: u8, level: u8, categories: u16, place: u8)
    ensures { view records.new ≡ put_session (view records.old) s (writing u level categories place) }
{
    records::put_session(
        records,
        s as usize,
        Session {
            here: true,
            owner: u,
            level,
            categories,
            writes: true,
            place,
        },
    );
}

pub fn open_reading(records: &mut Cells, u: u8, s: u8, level: u8, categories: u16)
    ensures { view records.new ≡ put_session (view records.old) s (reading u level categories) }
{
    records::put_session(
        records,
        s as usize,
        Session {
            here: true,
            owner: u,
            level,
            categories,
            writes: false,
            place: 255,
        },
    );
}

pub fn kill(records: &mut Cells, s: u8)
    ensures { view records.new ≡ put_session (view records.old) s no_session }
{
    records::put_session(records, s as usize, records::no_session());
}

// ---- some end together
// What few sessions meet is asked first, so that most are passed at once.
fn ends(session: Session, ending: Ending) -> bool
    ensures { result ≡ ends ending session }
{
    match ending {
        Ending::OfRoom { room } => (session.place == room) & session.writes,
        Ending::OfMember { w, room } => {
            (session.owner == w) & session.writes & (session.place == room)
        }
        Ending::Uncovered {
            w,
            level,
            categories,
        } => {
            session.owner == w
                && !label::covers(level, categories, session.level, session.categories)
        }
    }
}

pub fn end_sessions(records: &mut Cells, ending: Ending)
    ensures { view records.new ≡ with_sessions (view records.old) (map (ended ending) (view records.old).sessions) }
{
    'sessions: for i in 0..64 {
        let session = records::session_at(records, i);
        if !ends(session, ending) {
            continue 'sessions;
        }
        records::put_session(records, i, records::no_session());
    }
}
