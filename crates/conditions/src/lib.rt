// The facts that 01's refusal table asks of the records. The judge asks them in their order, after those of a request's own fields.
#![tactic(auto)]

ghost use Rattle.std.specs.Prelude.{◌≡◌};
ghost use Rattle.records.specs.House.{view, user, script, session, draft_at};
ghost use Rattle.conditions.specs.Conditions.{no_users, leads, is_staff, is_freelancer, may_kill, is_in, is_at, is_seated, of_origin, sees, seen, session_label, script_label, opening, reading, updating, importing, draft_room};

use label::{Label, Parts};
use records::{Cells, Rule, User};

fn staff(user: User) -> bool
    ensures { result ≡ is_staff user }
{
    user.here & (user.sort == 0)
}

// ---- of the users: i is a user's place
pub fn no_users(records: &Cells) -> bool
    ensures { result ≡ no_users (view records.now) }
{
    !(0..64).any(|i| records::user_at(records, i).here)
}

pub fn is_user(records: &Cells, i: usize) -> bool
    ensures { result ≡ (user (view records.now) i).here }
{
    records::user_at(records, i).here
}

pub fn is_staff(records: &Cells, i: usize) -> bool
    ensures { result ≡ is_staff (user (view records.now) i) }
{
    staff(records::user_at(records, i))
}

pub fn is_freelancer(records: &Cells, i: usize) -> bool
    ensures { result ≡ is_freelancer (user (view records.now) i) }
{
    records::user_at(records, i).sort == 1
}

pub fn leads(records: &Cells, i: usize, room: u8) -> bool
    ensures { result ≡ leads (user (view records.now) i) room }
{
    records::has(records::user_at(records, i).leads, room)
}

pub fn is_in(records: &Cells, i: usize, room: u8) -> bool
    ensures { result ≡ is_in (user (view records.now) i) room }
{
    records::has(records::user_at(records, i).rooms, room)
}

// ---- of scripts, sessions and drafts: k, s and d are their places
pub fn of_origin(records: &Cells, k: usize, room: u8) -> bool
    ensures { result ≡ of_origin (script (view records.now) k) room }
{
    records::script_at(records, k).origin == room
}

pub fn is_at(records: &Cells, d: usize, place: u8) -> bool
    ensures { result ≡ is_at (draft_at (view records.now) d) place }
{
    records::has(records::draft_at(records, d).places, place)
}

// The session's place is one of the draft's.
pub fn is_seated(records: &Cells, s: usize, d: usize) -> bool
    ensures { result ≡ is_seated (session (view records.now) s) (draft_at (view records.now) d) }
{
    let session = records::session_at(records, s);
    let draft = records::draft_at(records, d);
    records::has(draft.places, session.place)
}

pub fn draft_room(records: &Cells) -> bool
    ensures { result ≡ draft_room (view records.now) }
{
    records::draft_count(records) < 256
}

// The owner, or the lead of the session's room. An RO session has no room, whatever stands for its missing place.
pub fn may_kill(records: &Cells, i: usize, u: u8, s: usize) -> bool
    ensures { result ≡ may_kill (user (view records.now) i) u (session (view records.now) s) }
{
    let user = records::user_at(records, i);
    let session = records::session_at(records, s);
    let led = records::has(user.leads, session.place);
    (session.owner == u) | session.writes & led
}

// An RW session sees by its own place alone; an RO session by its owner's rooms, and by the house where the owner is staff.
pub fn sees(records: &Cells, s: usize, d: usize) -> bool
    ensures { result ≡ sees (session (view records.now) s) (user (view records.now) (session (view records.now) s).owner) (draft_at (view records.now) d) }
{
    let session = records::session_at(records, s);
    let draft = records::draft_at(records, d);
    if session.writes {
        return records::has(draft.places, session.place);
    }
    let owner = records::user_at(records, session.owner as usize);
    let shares = draft.places & owner.rooms != 0;
    let at_home = records::has(draft.places, 0);
    shares | at_home & staff(owner)
}

// Where a session sees drafts: a set of places.
pub fn seen(records: &Cells, s: usize) -> u32
    ensures { result ≡ seen (session (view records.now) s) (user (view records.now) (session (view records.now) s).owner) }
{
    let session = records::session_at(records, s);
    if session.writes {
        return records::with(0, session.place);
    }
    let owner = records::user_at(records, session.owner as usize);
    if staff(owner) {
        return records::with(owner.rooms, 0);
    }
    owner.rooms
}

// ---- of labels: the parts that fail or differ. Whoever asks takes level and categories, never the place.
pub fn opening(records: &Cells, i: usize, level: u8, categories: u16) -> Parts
    ensures { result ≡ opening (user (view records.now) i) level categories }
{
    let owner = records::user_at(records, i);
    let over = Label::At {
        place: 0,
        level: owner.level,
        categories: owner.categories,
    };
    over.dominates(Label::At {
        place: 0,
        level,
        categories,
    })
}

pub fn reading(records: &Cells, s: usize, k: usize) -> Parts
    ensures { result ≡ reading (session (view records.now) s) (script (view records.now) k) }
{
    session_label(records, s).dominates(script_label(records, k))
}

pub fn updating(records: &Cells, s: usize, k: usize) -> Parts
    ensures { result ≡ updating (session (view records.now) s) (script (view records.now) k) }
{
    session_label(records, s).differs(script_label(records, k))
}

// Of script 2, the house's, and script 1: k2 and k1 are their places. Rule 1 wants one label, rule 2 that the house's covers the other.
pub fn importing(records: &Cells, rule: Rule, k2: usize, k1: usize) -> Parts
    ensures { result ≡ importing rule (script (view records.now) k2) (script (view records.now) k1) }
{
    let to = script_label(records, k2);
    let from = script_label(records, k1);
    match rule {
        Rule::One => to.differs(from),
        Rule::Two => to.dominates(from),
    }
}

// The label of a session, and of a script: they have no field in common by name, so that nothing is shared but the shape.
fn session_label(records: &Cells, s: usize) -> Label
    ensures { result ≡ session_label (session (view records.now) s) }
{
    let session = records::session_at(records, s);
    Label::At {
        place: session.place,
        level: session.level,
        categories: session.categories,
    }
}

fn script_label(records: &Cells, k: usize) -> Label
    ensures { result ≡ script_label (script (view records.now) k) }
{
    let script = records::script_at(records, k);
    Label::At {
        place: script.origin,
        level: script.level,
        categories: script.categories,
    }
}
