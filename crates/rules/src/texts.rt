// The rules of scripts and of their drafts.
ghost use Rattle.std.specs.Prelude.{◌≡◌, ◌&&◌, eqb, ltb, leb};
ghost use Rattle.records.specs.Lists.{any, all};
ghost use Rattle.records.specs.Places.{only, room_numbers};
ghost use Rattle.records.specs.House.{view};
ghost use Rattle.records.specs.Lookups.{of_script, placed};
ghost use Rattle.rules.specs.Rules.{script_fits, origin_there, has_draft, draft_there, in_its_room, at_home_or_one_room, each_drafted, numbers_rise};
ghost use Rattle.rules.specs.Walks.{script_keeps, draft_keeps};

use crate::{is_place, label_fits};
use records::{Cells, Draft, Script};

// ---- of one script
fn script_fits(script: Script) -> bool
    ensures { result ≡ script_fits script }
{
    label_fits(script.level, script.categories)
        & (script.here | ((script.level == 0) & (script.categories == 0) & (script.origin == 0)))
}

fn origin_there(records: &Cells, script: Script) -> bool
    ensures { result ≡ origin_there (view records.now) script }
{
    !script.here | is_place(records, script.origin)
}

fn script_keeps(records: &Cells, script: Script) -> bool
    ensures { result ≡ script_keeps (view records.now) script }
{
    script_fits(script) & origin_there(records, script)
}

// One of the drafts is of script i.
fn drafted(records: &Cells, i: usize) -> bool
    ensures { result ≡ any (of_script i) (view records.now).drafts }
{
    (0..records::draft_count(records)).any(|k| records::draft_at(records, k).script as usize == i)
}

fn has_draft(records: &Cells, i: usize, script: Script) -> bool
    ensures { result ≡ has_draft (view records.now) i script }
{
    !script.here | drafted(records, i)
}

// ---- of one draft
fn draft_there(records: &Cells, draft: Draft) -> bool
    ensures { result ≡ draft_there (view records.now) draft }
{
    let script = records::script_at(records, draft.script as usize);
    let places = records::with(records::rooms(records), 0);
    script.here & ((places & draft.places) == draft.places)
}

fn in_its_room(records: &Cells, draft: Draft) -> bool
    ensures { result ≡ in_its_room (view records.now) draft }
{
    let script = records::script_at(records, draft.script as usize);
    !(script.origin != 0) | (draft.places == records::with(0, script.origin))
}

// Exactly one room.
fn one_room(places: u32) -> bool
    ensures { result ≡ any (λ room. eqb places (only room)) room_numbers }
{
    (1..17).any(|room| places == records::with(0, room))
}

fn at_home_or_one_room(records: &Cells, draft: Draft) -> bool
    ensures { result ≡ at_home_or_one_room (view records.now) draft }
{
    let script = records::script_at(records, draft.script as usize);
    !(script.origin == 0) | (records::has(draft.places, 0) | one_room(draft.places))
}

fn placed(draft: Draft) -> bool
    ensures { result ≡ placed draft }
{
    draft.places != 0
}

fn draft_keeps(records: &Cells, draft: Draft) -> bool
    ensures { result ≡ draft_keeps (view records.now) draft }
{
    draft_there(records, draft)
        & in_its_room(records, draft)
        & at_home_or_one_room(records, draft)
        & placed(draft)
}

// The draft's number is above the one before, and not above the last.
fn follows(draft: Draft, above: u32, last: u32) -> bool
    ensures { result ≡ (ltb above draft.number && leb draft.number last) }
{
    (above < draft.number) & (draft.number <= last)
}

// ---- of all of them
pub(crate) fn scripts_keep(records: &Cells) -> bool
    ensures { result ≡ (all (script_keeps (view records.now)) (view records.now).scripts && each_drafted (view records.now)) }
{
    (0..64).all(|i| {
        let script = records::script_at(records, i);
        script_keeps(records, script) & has_draft(records, i, script)
    })
}

pub(crate) fn drafts_keep(records: &Cells, last: u32) -> bool
    ensures { result ≡ (all (draft_keeps (view records.now)) (view records.now).drafts && numbers_rise (view records.now) last) }
{
    let end = records::draft_count(records);
    let mut above = 0;
    'drafts: for i in 0..end {
        let draft = records::draft_at(records, i);
        if !(draft_keeps(records, draft) & follows(draft, above, last)) {
            return false;
        }
        above = draft.number;
    }
    true
}
