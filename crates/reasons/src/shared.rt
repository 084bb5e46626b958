// What several kinds of request ask in common, in their order.
ghost use Rattle.std.specs.Prelude.{◌≡◌};
ghost use Rattle.records.specs.House.{view};
ghost use Rattle.reasons.specs.Asking.{asked};
ghost use Rattle.reasons.specs.Shared.{pair_numbers, pair_led, draft_led, draft_asked};
ghost use Rattle.reasons.specs.Reach.{reached_by};

use crate::{
    Reason, draft_exists, id, leads, room_exists, room_high, room_low, script_exists,
    session_exists, user_exists,
};
use records::Cells;

#[tactic(auto, using(crate::proofs::Asking::first), unfolding(crate::specs::Shared::pair_numbers))]
pub fn pair_numbers(u: u8, w: u8, room: u8) -> Result<(), Reason>
    ensures { result ≡ asked (pair_numbers u w room) }
{
    id(u)?;
    id(w)?;
    room_high(room)?;
    room_low(room)
}

#[tactic(auto, using(crate::proofs::Asking::first), unfolding(crate::specs::Shared::pair_led))]
pub fn pair_led(records: &Cells, u: u8, w: u8, room: u8) -> Result<(), Reason>
    ensures { result ≡ asked (pair_led (view records.now) u w room) }
{
    user_exists(records, u)?;
    user_exists(records, w)?;
    room_exists(records, room)?;
    leads(records, u, room)
}

#[tactic(auto, using(crate::proofs::Asking::first, crate::proofs::Asking::more), unfolding(crate::specs::Shared::draft_led))]
pub fn draft_led(records: &Cells, u: u8, script: u8, number: u32, room: u8) -> Result<usize, Reason>
    ensures { result ≡ reached_by (view records.now) script number (asked (draft_led (view records.now) u script number room)) }
{
    pair_numbers(u, script, room)?;
    user_exists(records, u)?;
    room_exists(records, room)?;
    script_exists(records, script)?;
    let at = draft_exists(records, script, number)?;
    leads(records, u, room)?;
    Ok(at)
}

#[tactic(auto, using(crate::proofs::Asking::first), unfolding(crate::specs::Shared::draft_asked))]
pub fn draft_asked(records: &Cells, session: u8, script: u8, number: u32) -> Result<usize, Reason>
    ensures { result ≡ reached_by (view records.now) script number (asked (draft_asked (view records.now) session script number)) }
{
    id(script)?;
    id(session)?;
    script_exists(records, script)?;
    session_exists(records, session)?;
    draft_exists(records, script, number)
}
