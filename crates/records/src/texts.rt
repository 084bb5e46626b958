// Scripts, and the live drafts.
ghost use Rattle.std.specs.Prelude.{◌≡◌, eqb, length, drop, ℕ, ◌<◌, ◌≤◌};
ghost use Rattle.records.specs.Tables.{put_at};
ghost use Rattle.records.specs.House.{no_script, draft_table, view, script, draft_at, put_script, put_draft, cut_drafts, add_draft};
ghost use Rattle.records.specs.Lookups.{find_script, first_from, draft_is, find_draft};

use crate::{Cells, DRAFTS, Draft, SCRIPTS, Script};

// ---- scripts: past the end the absent one is read and nothing is stored
pub fn no_script() -> Script
    ensures { result ≡ no_script }
{
    Script::default()
}

#[tactic(auto, using(crate::proofs::Tables::table_at, crate::proofs::Tables::table_past, crate::proofs::Views::script_laid), unfolding(crate::specs::House::view))]
pub fn script_at(records: &Cells, i: usize) -> Script
    ensures { result ≡ script (view records.now) i }
{
    if 63 < i {
        return no_script();
    }
    let at = SCRIPTS + 4 * i;
    Script {
        here: records[at] != 0,
        level: (records[at + 1] % 256) as u8,
        categories: (records[at + 2] % 65536) as u16,
        origin: (records[at + 3] % 256) as u8,
    }
}

pub fn put_script(records: &mut Cells, i: usize, script: Script)
    ensures { view records.new ≡ put_script (view records.old) i script }
{
    if 63 < i {
        return;
    }
    let at = SCRIPTS + 4 * i;
    records[at] = u32::from(script.here);
    records[at + 1] = script.level as u32;
    records[at + 2] = script.categories as u32;
    records[at + 3] = script.origin as u32;
}

pub fn find_script(records: &Cells, script: u8) -> Option<usize>
    ensures { result ≡ find_script (view records.now) script }
{
    let i = script as usize;
    script_at(records, i).here.then_some(i)
}

// ---- drafts
// How many drafts live: at most 256, whatever the cell says.
#[tactic(auto, using(crate::proofs::Views::count_drafts))]
pub fn draft_count(records: &Cells) -> usize
    ensures { (result ≡ length (view records.now).drafts) × (result ≤ 256) }
{
    let n = records[1] as usize;
    if n < 256 { n } else { 256 }
}

#[tactic(auto, using(crate::proofs::Views::live_at))]
pub fn draft_at(records: &Cells, i: usize) -> Draft
    ensures { result ≡ draft_at (view records.now) i }
{
    if draft_count(records) <= i {
        return Draft::default();
    }
    let at = DRAFTS + 3 * i;
    Draft {
        number: records[at],
        script: (records[at + 1] % 256) as u8,
        places: records[at + 2],
    }
}

// The cells of a draft, whether it lives or not.
fn write_draft(records: &mut Cells, i: usize, draft: Draft)
    requires { i < 256 }
    ensures { records.new ≡ put_at draft_table records.old i draft }
{
    let at = DRAFTS + 3 * i;
    records[at] = draft.number;
    records[at + 1] = draft.script as u32;
    records[at + 2] = draft.places;
}

// A live draft anew.
pub fn put_draft(records: &mut Cells, i: usize, draft: Draft)
    ensures { view records.new ≡ put_draft (view records.old) i draft }
{
    if 255 < i {
        return;
    }
    write_draft(records, i, draft);
}

// The first n drafts, where more live.
#[tactic(auto, using(crate::proofs::Views::view_cut))]
pub fn cut_drafts(records: &mut Cells, n: usize)
    ensures { view records.new ≡ cut_drafts (view records.old) n }
{
    if draft_count(records) <= n {
        return;
    }
    records[1] = n as u32;
}

// One draft more, behind the others, where there is room for it.
#[tactic(auto, using(crate::proofs::Views::view_add, crate::proofs::Views::add_full, crate::proofs::Views::draft_again))]
pub fn add_draft(records: &mut Cells, draft: Draft)
    ensures { view records.new ≡ add_draft (view records.old) draft }
{
    let n = draft_count(records);
    if 255 < n {
        return;
    }
    write_draft(records, n, draft);
    records[1] = (n + 1) as u32;
}

fn draft_is(draft: Draft, script: u8, number: u32) -> bool
    ensures { result ≡ draft_is script number draft }
{
    (draft.number == number) & (draft.script == script)
}

fn has_number(records: &Cells, i: usize, number: u32) -> bool
    ensures { result ≡ eqb (draft_at (view records.now) i).number number }
{
    let draft = draft_at(records, i);
    draft.number == number
}

// How many drafts at the front surely have another number: four are asked a turn, for speed, and what is left behind the last four not at all.
// (A `for` would count the turns and multiply by four.)
fn others(records: &Cells, number: u32) -> usize
    ensures { (result ≤ length (view records.now).drafts) × ((script : ℕ) → find_draft (view records.now) script number ≡ first_from result (draft_is script number) (drop result (view records.now).drafts)) }
{
    let end = draft_count(records);
    let mut i: usize = 0;
    'fours: while i + 4 <= end {
        if has_number(records, i, number) {
            return i;
        }
        if has_number(records, i + 1, number) {
            return i + 1;
        }
        if has_number(records, i + 2, number) {
            return i + 2;
        }
        if has_number(records, i + 3, number) {
            return i + 3;
        }
        i += 4;
    }
    i
}

// Where the draft of that script and number stands among the live ones.
pub fn find_draft(records: &Cells, script: u8, number: u32) -> Option<usize>
    ensures { result ≡ find_draft (view records.now) script number }
{
    let end = draft_count(records);
    let start = others(records, number);
    'drafts: for i in start..end {
        let draft = draft_at(records, i);
        if draft_is(draft, script, number) {
            return Some(i);
        }
    }
    None
}
