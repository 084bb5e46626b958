// What is asked of requests that move drafts between house and rooms, each condition in its order.
ghost use Rattle.std.specs.Prelude.{◌≡◌};
ghost use Rattle.records.specs.House.{view};
ghost use Rattle.reasons.specs.Asking.{asked};
ghost use Rattle.reasons.specs.Reach.{reached_by};
ghost use Rattle.judge.specs.Kinds.{add_lines, remove_lines, import_numbers, import_exists, import_lines, merge_lines};

use reasons::Reason;
use records::{Cells, Rule};

// 07 Add
pub(crate) fn add(records: &Cells, u: u8, script: u8, number: u32, room: u8) -> Result<(), Reason>
    ensures { result ≡ asked (add_lines (view records.now) u script number room) }
{
    let at = reasons::draft_led(records, u, script, number, room)?;
    reasons::among(records, number, at, 0)?;
    reasons::not_among(records, number, at, room)
}

// 08 Remove
pub(crate) fn remove(
    records: &Cells,
    u: u8,
    script: u8,
    number: u32,
    room: u8,
) -> Result<(), Reason>
    ensures { result ≡ asked (remove_lines (view records.now) u script number room) }
{
    let at = reasons::draft_led(records, u, script, number, room)?;
    reasons::among(records, number, at, room)
}

// 09 Import
fn import_numbers(u: u8, script1: u8, script2: u8, room: u8) -> Result<(), Reason>
    ensures { result ≡ asked (import_numbers u script1 script2 room) }
{
    reasons::id(u)?;
    reasons::id(script1)?;
    reasons::id(script2)?;
    reasons::room_high(room)?;
    reasons::room_low(room)
}

fn import_exists(
    records: &Cells,
    u: u8,
    script1: u8,
    number: u32,
    script2: u8,
    room: u8,
) -> Result<usize, Reason>
    ensures { result ≡ reached_by (view records.now) script1 number (asked (import_exists (view records.now) u script1 number script2 room)) }
{
    reasons::user_exists(records, u)?;
    reasons::room_exists(records, room)?;
    reasons::script_exists(records, script1)?;
    reasons::script_exists(records, script2)?;
    reasons::draft_exists(records, script1, number)
}

#[tactic(auto, using(reasons::proofs::Asking::first, reasons::proofs::Asking::more), unfolding(crate::specs::Kinds::import_lines))]
pub(crate) fn import(
    records: &Cells,
    rule: Rule,
    u: u8,
    script1: u8,
    number: u32,
    script2: u8,
    room: u8,
) -> Result<(), Reason>
    ensures { result ≡ asked (import_lines rule (view records.now) u script1 number script2 room) }
{
    import_numbers(u, script1, script2, room)?;
    import_exists(records, u, script1, number, script2, room)?;
    reasons::leads(records, u, room)?;
    reasons::of_origin(records, script1, room)?;
    reasons::of_origin(records, script2, 0)?;
    reasons::imports(records, rule, script1, script2)?;
    reasons::draft_room(records)
}

// 0A Merge
pub(crate) fn merge(records: &Cells, u: u8, script: u8, number: u32, room: u8) -> Result<(), Reason>
    ensures { result ≡ asked (merge_lines (view records.now) u script number room) }
{
    let at = reasons::draft_led(records, u, script, number, room)?;
    reasons::among(records, number, at, room)?;
    reasons::of_origin(records, script, 0)
}
