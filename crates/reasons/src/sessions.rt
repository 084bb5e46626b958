// Conditions of sessions, and of what they read and write.
ghost use Rattle.std.specs.Prelude.{◌≡◌, [], ◌∷◌};
ghost use Rattle.records.specs.House.{view, script, session, draft_at};
ghost use Rattle.reasons.specs.Reasons.{a_session};
ghost use Rattle.reasons.specs.Asking.{asked};
ghost use Rattle.reasons.specs.Lines.{session_exists, session_new, ends_session, writes_in, sees_draft, seated_at};
ghost use Rattle.reasons.specs.Shared.{label_lines, covers, as_script};

use crate::{Kind, Reason, exists, is_new, labels, of, only};
use label::Parts;
use records::Cells;

pub fn session_exists(records: &Cells, session: u8) -> Result<(), Reason>
    ensures { result ≡ asked (session_exists (view records.now) session ∷ []) }
{
    exists(records::find_session(records, session), session)
}

pub fn session_new(records: &Cells, session: u8) -> Result<(), Reason>
    ensures { result ≡ asked (session_new (view records.now) session ∷ []) }
{
    is_new(
        Kind::Session,
        records::find_session(records, session).is_some(),
        session,
    )
}

pub fn may_kill(records: &Cells, u: u8, session: u8) -> Result<(), Reason>
    ensures { result ≡ asked (ends_session (view records.now) u session ∷ []) }
{
    let i = usize::from(session);
    let found = records::session_at(records, i);
    let fact = conditions::may_kill(records, usize::from(u), u, i);
    of(
        Kind::Session,
        6,
        fact,
        u32::from(session),
        u32::from(found.owner),
        u32::from(u),
    )
}

pub fn writes(records: &Cells, session: u8) -> Result<(), Reason>
    ensures { result ≡ asked (writes_in (view records.now) session ∷ []) }
{
    let writes = records::session_at(records, usize::from(session)).writes;
    of(
        Kind::Session,
        7,
        writes,
        u32::from(session),
        u32::from(writes),
        1,
    )
}

// Of the draft in place d, whose number is the one asked for. Where it is seen, nothing more is read.
#[tactic(auto, unfolding(crate::specs::Asking::asked))]
pub fn sees(records: &Cells, session: u8, number: u32, d: usize) -> Result<(), Reason>
    ensures { result ≡ asked (sees_draft (view records.now) session number (draft_at (view records.now) d) ∷ []) }
{
    let i = usize::from(session);
    if conditions::sees(records, i, d) {
        return Ok(());
    }
    let draft = records::draft_at(records, d);
    of(
        Kind::Draft,
        8,
        false,
        number,
        draft.places,
        conditions::seen(records, i),
    )
}

pub fn seated(records: &Cells, session: u8, number: u32, d: usize) -> Result<(), Reason>
    ensures { result ≡ asked (seated_at (view records.now) session number (draft_at (view records.now) d) ∷ []) }
{
    let i = usize::from(session);
    let found = records::session_at(records, i);
    let draft = records::draft_at(records, d);
    let fact = conditions::is_seated(records, i, d);
    of(
        Kind::Draft,
        8,
        fact,
        number,
        draft.places,
        only(found.place),
    )
}

// Two labels, of which these parts fail or differ: the session holds its own, and the script's is wanted.
fn with_script(records: &Cells, parts: Parts, s: u8, k: u8) -> Result<(), Reason>
    ensures { result ≡ asked (label_lines parts (a_session s) (session (view records.now) s).level (session (view records.now) s).categories (script (view records.now) k).level (script (view records.now) k).categories) }
{
    let found = records::session_at(records, usize::from(s));
    let wanted = records::script_at(records, usize::from(k));
    labels(
        parts,
        Kind::Session,
        s,
        found.level,
        found.categories,
        wanted.level,
        wanted.categories,
    )
}

// Of Read: the session's label dominates the script's, but for the place.
#[tactic(auto, unfolding(crate::specs::Shared::covers))]
pub fn covers(records: &Cells, session: u8, script: u8) -> Result<(), Reason>
    ensures { result ≡ asked (covers (view records.now) session script) }
{
    let parts = conditions::reading(records, usize::from(session), usize::from(script));
    with_script(records, parts, session, script)
}

// Of Update: the session's label is the script's, but for the place.
#[tactic(auto, unfolding(crate::specs::Shared::as_script))]
pub fn as_script(records: &Cells, session: u8, script: u8) -> Result<(), Reason>
    ensures { result ≡ asked (as_script (view records.now) session script) }
{
    let parts = conditions::updating(records, usize::from(session), usize::from(script));
    with_script(records, parts, session, script)
}
