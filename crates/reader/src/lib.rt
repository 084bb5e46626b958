// The reader of images: it walks the frames and takes each record in as it comes.
#![tactic(auto)]

mod bodies;

ghost use Rattle.std.specs.Prelude.{◌≡◌};
ghost use Rattle.records.specs.House.{view};
ghost use Rattle.reader.specs.Reading.{saved, blank, rows, find, length_at, taken_in, stopped, walked};

use bodies::{draft_of, quad_at, script_of, session_of, user_of};
use records::{Cells, Rule};
use request::{FrameError, byte_at};

// How long the body of a kind is, where it is known.
fn length_of(kind: u8) -> Option<usize>
    ensures { result ≡ length_at (find rows kind) }
{
    match kind {
        0x40 => Some(4),
        0x46 => Some(0),
        0x41 => Some(14),
        0x42 => Some(1),
        0x43 => Some(5),
        0x44 => Some(7),
        0x45 => Some(9),
        _ => None,
    }
}

// A record as it comes, whatever came before.
fn take_in(kind: u8, body: &[u8], records: &mut Cells, last: &mut u32, rule: &mut Rule)
    ensures { saved (view records.new) last.new rule.new ≡ taken_in (find rows kind) body.now (saved (view records.old) last.old rule.old) }
{
    match kind {
        0x40 => *last = quad_at(body, 0),
        0x46 => *rule = Rule::Two,
        0x41 => records::put_user(records, byte_at(body, 0) as usize, user_of(body)),
        0x42 => {
            let rooms = records::with(records::rooms(records), byte_at(body, 0));
            records::put_rooms(records, rooms);
        }
        0x43 => records::put_script(records, byte_at(body, 0) as usize, script_of(body)),
        0x44 => records::put_session(records, byte_at(body, 0) as usize, session_of(body)),
        0x45 => records::add_draft(records, draft_of(body)),
        _ => {}
    }
}

// The frames one after the other, into empty records under rule 1; a refusal leaves what was taken in before the frame that is none.
#[tactic(auto, using(crate::proofs::Walking::turns))]
pub fn take_all(
    image: &[u8],
    records: &mut Cells,
    last: &mut u32,
    rule: &mut Rule,
) -> Result<(), FrameError>
    ensures { stopped result (saved (view records.new) last.new rule.new) ≡ walked 0 blank image.now }
{
    records::clear(records);
    *last = 0;
    *rule = Rule::One;
    let mut left = image;
    'frames: while let Some((&kind, body)) = left.split_first() {
        let length = length_of(kind).ok_or(FrameError::Unknown)?;
        let behind = body.get(length..).ok_or(FrameError::Cut)?;
        take_in(kind, body, records, last, rule);
        left = behind;
    }
    Ok(())
}
