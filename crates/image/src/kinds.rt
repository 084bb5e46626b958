// The records of an image, one function a kind: the kind byte, then the fields, the most significant byte first.
ghost use Rattle.std.specs.Prelude.{◌≡◌};
ghost use Rattle.records.specs.House.{as_number};
ghost use Rattle.records.specs.declared.Rule.{Rule};
ghost use Rattle.image.specs.Forms.{written};
ghost use Rattle.image.specs.Image.{counter_form, rule_form, user_form, room_form, script_form, session_form, draft_form};

use records::{Draft, Script, Session, User};

pub(crate) fn counter_bytes(last: u32) -> [u8; 5]
    ensures { result ≡ written counter_form 0 last }
{
    let [a, b, c, d] = last.to_be_bytes();
    [0x40, a, b, c, d]
}

pub(crate) fn rule_bytes() -> [u8; 1]
    ensures { result ≡ written rule_form 0 Rule.Two }
{
    [0x46]
}

#[tactic(auto, using(crate::proofs::Spelt::high_byte))]
pub(crate) fn user_bytes(i: u8, user: User) -> [u8; 15]
    ensures { result ≡ written user_form i user }
{
    let [high, low] = user.categories.to_be_bytes();
    let [r1, r2, r3, r4] = user.rooms.to_be_bytes();
    let [l1, l2, l3, l4] = user.leads.to_be_bytes();
    [
        0x41,
        i,
        user.sort,
        user.level,
        high,
        low,
        r1,
        r2,
        r3,
        r4,
        l1,
        l2,
        l3,
        l4,
        u8::from(user.admin),
    ]
}

pub(crate) fn room_bytes(room: u8) -> [u8; 2]
    ensures { result ≡ written room_form 0 room }
{
    [0x42, room]
}

pub(crate) fn script_bytes(i: u8, script: Script) -> [u8; 6]
    ensures { result ≡ written script_form i script }
{
    let [high, low] = script.categories.to_be_bytes();
    [0x43, i, script.level, high, low, script.origin]
}

pub(crate) fn session_bytes(i: u8, session: Session) -> [u8; 8]
    ensures { result ≡ written session_form i session }
{
    let [high, low] = session.categories.to_be_bytes();
    [
        0x44,
        i,
        session.owner,
        session.level,
        high,
        low,
        u8::from(session.writes),
        session.place,
    ]
}

pub(crate) fn draft_bytes(draft: Draft) -> [u8; 10]
    ensures { result ≡ written draft_form 0 draft }
{
    let [n1, n2, n3, n4] = draft.number.to_be_bytes();
    let [p1, p2, p3, p4] = draft.places.to_be_bytes();
    [0x45, n1, n2, n3, n4, draft.script, p1, p2, p3, p4]
}
