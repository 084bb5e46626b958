// The rules of sessions.
ghost use Rattle.std.specs.Prelude.{◌≡◌};
ghost use Rattle.records.specs.Lists.{all};
ghost use Rattle.records.specs.House.{view};
ghost use Rattle.rules.specs.Rules.{session_fits, session_there, owned_well, within};
ghost use Rattle.rules.specs.Walks.{session_keeps};

use crate::{is_place, label_fits};
use records::{Cells, Session, User};

// ---- of one session
fn session_fits(session: Session) -> bool
    ensures { result ≡ session_fits session }
{
    label_fits(session.level, session.categories)
        & (!session.here | (session.writes | (session.place == 255)))
        & (session.here
            | ((session.owner == 0)
                & (session.level == 0)
                & (session.categories == 0)
                & !session.writes
                & (session.place == 0)))
}

fn session_there(records: &Cells, session: Session) -> bool
    ensures { result ≡ session_there (view records.now) session }
{
    let owner = records::user_at(records, session.owner as usize);
    !session.here | (owner.here & (!session.writes | is_place(records, session.place)))
}

fn owned_well(owner: User, session: Session) -> bool
    ensures { result ≡ owned_well owner session }
{
    (!(session.place == 0) | (owner.sort == 0))
        & (!(session.place != 0) | records::has(owner.rooms, session.place))
}

fn within(owner: User, session: Session) -> bool
    ensures { result ≡ within owner session }
{
    label::covers(
        owner.level,
        owner.categories,
        session.level,
        session.categories,
    )
}

fn session_keeps(records: &Cells, session: Session) -> bool
    ensures { result ≡ session_keeps (view records.now) session }
{
    let owner = records::user_at(records, session.owner as usize);
    session_fits(session)
        & session_there(records, session)
        & (!session.writes | owned_well(owner, session))
        & within(owner, session)
}

// ---- of all of them
pub(crate) fn sessions_keep(records: &Cells) -> bool
    ensures { result ≡ all (session_keeps (view records.now)) (view records.now).sessions }
{
    (0..64).all(|i| session_keeps(records, records::session_at(records, i)))
}
