// The fields of a record's body, and the element that they make. Past the end of the bytes there is 0.
ghost use Rattle.std.specs.Prelude.{◌≡◌};
ghost use Rattle.request.specs.Bytes.{◌#◌, pair_at, quad_at};
ghost use Rattle.image.specs.Forms.{fields_at};
ghost use Rattle.image.specs.Image.{user_form, script_form, session_form, draft_form};

use records::{Draft, Script, Session, User};
use request::byte_at;

fn pair_at(body: &[u8], at: u8) -> u16
    ensures { result ≡ pair_at body.now at }
{
    let i = at as usize;
    u16::from_be_bytes([byte_at(body, i), byte_at(body, i + 1)])
}

pub(crate) fn quad_at(body: &[u8], at: u8) -> u32
    ensures { result ≡ quad_at body.now at }
{
    let i = at as usize;
    u32::from_be_bytes([
        byte_at(body, i),
        byte_at(body, i + 1),
        byte_at(body, i + 2),
        byte_at(body, i + 3),
    ])
}

// ---- the elements: byte 0 is the id
pub(crate) fn user_of(body: &[u8]) -> User
    ensures { result ≡ user_form.of (λ k. fields_at user_form.widths body.now 0 # k) }
{
    User {
        here: true,
        sort: byte_at(body, 1),
        level: byte_at(body, 2),
        categories: pair_at(body, 3),
        rooms: quad_at(body, 5),
        leads: quad_at(body, 9),
        admin: byte_at(body, 13) != 0,
    }
}

pub(crate) fn script_of(body: &[u8]) -> Script
    ensures { result ≡ script_form.of (λ k. fields_at script_form.widths body.now 0 # k) }
{
    Script {
        here: true,
        level: byte_at(body, 1),
        categories: pair_at(body, 2),
        origin: byte_at(body, 4),
    }
}

pub(crate) fn session_of(body: &[u8]) -> Session
    ensures { result ≡ session_form.of (λ k. fields_at session_form.widths body.now 0 # k) }
{
    Session {
        here: true,
        owner: byte_at(body, 1),
        level: byte_at(body, 2),
        categories: pair_at(body, 3),
        writes: byte_at(body, 5) != 0,
        place: byte_at(body, 6),
    }
}

// A draft has its number for an id.
pub(crate) fn draft_of(body: &[u8]) -> Draft
    ensures { result ≡ draft_form.of (λ k. fields_at draft_form.widths body.now 0 # k) }
{
    Draft {
        number: quad_at(body, 0),
        script: byte_at(body, 4),
        places: quad_at(body, 5),
    }
}
