// What is asked of requests that open, use and end sessions, each condition in its order.
ghost use Rattle.std.specs.Prelude.{◌≡◌};
ghost use Rattle.records.specs.House.{view};
ghost use Rattle.reasons.specs.Asking.{asked};
ghost use Rattle.judge.specs.Kinds.{open_in_room_lines, open_in_house_lines, open_read_only_lines, read_lines, update_lines, create_lines, kill_lines};

use reasons::Reason;
use records::Cells;

// 10 Open RW in room
pub(crate) fn open_in_room(
    records: &Cells,
    u: u8,
    session: u8,
    room: u8,
    level: u8,
    categories: u16,
) -> Result<(), Reason>
    ensures { result ≡ asked (open_in_room_lines (view records.now) u session room level categories) }
{
    reasons::pair_numbers(u, session, room)?;
    reasons::level(level)?;
    reasons::user_exists(records, u)?;
    reasons::room_exists(records, room)?;
    reasons::session_new(records, session)?;
    reasons::in_room(records, u, room)?;
    reasons::opens(records, u, level, categories)
}

// 11 Open RW in house
pub(crate) fn open_in_house(
    records: &Cells,
    u: u8,
    session: u8,
    level: u8,
    categories: u16,
) -> Result<(), Reason>
    ensures { result ≡ asked (open_in_house_lines (view records.now) u session level categories) }
{
    reasons::id(u)?;
    reasons::id(session)?;
    reasons::level(level)?;
    reasons::user_exists(records, u)?;
    reasons::session_new(records, session)?;
    reasons::staff(records, u)?;
    reasons::opens(records, u, level, categories)
}

// 12 Open RO
pub(crate) fn open_read_only(
    records: &Cells,
    u: u8,
    session: u8,
    level: u8,
    categories: u16,
) -> Result<(), Reason>
    ensures { result ≡ asked (open_read_only_lines (view records.now) u session level categories) }
{
    reasons::id(u)?;
    reasons::id(session)?;
    reasons::level(level)?;
    reasons::user_exists(records, u)?;
    reasons::session_new(records, session)?;
    reasons::opens(records, u, level, categories)
}

// 13 Read
pub(crate) fn read(records: &Cells, session: u8, script: u8, number: u32) -> Result<(), Reason>
    ensures { result ≡ asked (read_lines (view records.now) session script number) }
{
    let at = reasons::draft_asked(records, session, script, number)?;
    reasons::sees(records, session, number, at)?;
    reasons::covers(records, session, script)
}

// 14 Update
pub(crate) fn update(records: &Cells, session: u8, script: u8, number: u32) -> Result<(), Reason>
    ensures { result ≡ asked (update_lines (view records.now) session script number) }
{
    let at = reasons::draft_asked(records, session, script, number)?;
    reasons::writes(records, session)?;
    reasons::seated(records, session, number, at)?;
    reasons::as_script(records, session, script)?;
    reasons::draft_room(records)
}

// 15 Create
pub(crate) fn create(records: &Cells, session: u8, script: u8) -> Result<(), Reason>
    ensures { result ≡ asked (create_lines (view records.now) session script) }
{
    reasons::id(script)?;
    reasons::id(session)?;
    reasons::session_exists(records, session)?;
    reasons::script_new(records, script)?;
    reasons::writes(records, session)?;
    reasons::draft_room(records)
}

// 16 Kill
pub(crate) fn kill(records: &Cells, u: u8, session: u8) -> Result<(), Reason>
    ensures { result ≡ asked (kill_lines (view records.now) u session) }
{
    reasons::id(u)?;
    reasons::id(session)?;
    reasons::user_exists(records, u)?;
    reasons::session_exists(records, session)?;
    reasons::may_kill(records, u, session)
}
