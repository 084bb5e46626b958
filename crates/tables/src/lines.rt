// The tables of a house, printed: a line for each element that is there.
ghost use Rattle.std.specs.Prelude.{◌<◌};

use records::Cells;
use std::io;
use std::io::Write;

fn room<W: Write>(out: &mut W, records: &Cells, place: u8) -> io::Result<()> {
    if records::has(records::rooms(records), place) {
        write!(out, " {place}")?;
    }
    Ok(())
}

fn user<W: Write>(out: &mut W, records: &Cells, u: usize) -> io::Result<()> {
    let user = records::user_at(records, u);
    if !user.here {
        return Ok(());
    }
    write!(out, "user {u} sort {} level {}", user.sort, user.level)?;
    write!(out, " categories {:04x}", user.categories)?;
    write!(out, " rooms {:08x} leads {:08x}", user.rooms, user.leads)?;
    writeln!(out, " admin {}", user.admin as u8)
}

fn script<W: Write>(out: &mut W, records: &Cells, s: usize) -> io::Result<()> {
    let script = records::script_at(records, s);
    if !script.here {
        return Ok(());
    }
    write!(out, "script {s} level {}", script.level)?;
    write!(out, " categories {:04x}", script.categories)?;
    writeln!(out, " origin {}", script.origin)
}

fn session<W: Write>(out: &mut W, records: &Cells, s: usize) -> io::Result<()> {
    let session = records::session_at(records, s);
    if !session.here {
        return Ok(());
    }
    let mode = if session.writes { "RW" } else { "RO" };
    write!(out, "session {s} owner {}", session.owner)?;
    write!(out, " level {}", session.level)?;
    write!(out, " categories {:04x}", session.categories)?;
    writeln!(out, " {mode} place {}", session.place)
}

// Whether draft i has the script and the places of the draft before it, and the next number. Past the end the number is 0.
fn follows(records: &Cells, i: usize) -> bool {
    if i == 0 {
        return false;
    }
    let draft = records::draft_at(records, i);
    if draft.number == 0 {
        return false;
    }
    let before = records::draft_at(records, i - 1);
    (draft.number - 1 == before.number)
        & (draft.script == before.script)
        & (draft.places == before.places)
}

// A run of drafts is one line, so that a full table stays readable: its first draft begins the line, its last ends it.
fn draft<W: Write>(out: &mut W, records: &Cells, i: usize) -> io::Result<()>
    requires { i < 256 }
{
    let draft = records::draft_at(records, i);
    if !follows(records, i) {
        write!(out, "draft {}", draft.number)?;
    }
    if follows(records, i + 1) {
        return Ok(());
    }
    if follows(records, i) {
        write!(out, " to {}", draft.number)?;
    }
    writeln!(out, " script {} places {:08x}", draft.script, draft.places)
}

pub fn tables<W: Write>(out: &mut W, records: &Cells) -> io::Result<()> {
    write!(out, "rooms")?;
    for place in 0..32 {
        room(out, records, place)?;
    }
    writeln!(out)?;
    for u in 0..64 {
        user(out, records, u)?;
    }
    for s in 0..64 {
        script(out, records, s)?;
    }
    for s in 0..64 {
        session(out, records, s)?;
    }
    let live = records::draft_count(records);
    for i in 0..live {
        draft(out, records, i)?;
    }
    writeln!(out, "drafts {live}")
}
