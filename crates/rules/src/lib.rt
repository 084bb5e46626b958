// The record rules, decided by code: a test for each clause, and a walk of each table that makes all of that table's tests.
#![tactic(auto)]

mod people;
mod sessions;
mod texts;

ghost use Rattle.std.specs.Prelude.{◌≡◌};
ghost use Rattle.label.specs.Labels.{contains};
ghost use Rattle.records.specs.House.{view};
ghost use Rattle.rules.specs.Rules.{label_fits, is_place, rules};

use people::{administered, all_led, users_keep};
use records::Cells;
use sessions::sessions_keep;
use texts::{drafts_keep, scripts_keep};

fn label_fits(level: u8, categories: u16) -> bool
    ensures { result ≡ label_fits level categories }
{
    (level <= 7) & ((categories as u32) < 65536)
}

// The house, or a room that exists.
fn is_place(records: &Cells, place: u8) -> bool
    ensures { result ≡ is_place (view records.now) place }
{
    (place == 0) | records::has(records::rooms(records), place)
}

// Rooms 1 to 16.
fn rooms_fit(records: &Cells) -> bool
    ensures { result ≡ contains 0x1FFFE (view records.now).rooms }
{
    let rooms = records::rooms(records);
    (0x1FFFE & rooms) == rooms
}

// The records keep every rule, and the last number with them. That there are 64 of each, and at most 256 drafts, is so of any cells.
pub fn keeps(records: &Cells, last: u32) -> bool
    ensures { result ≡ rules (view records.now) last }
{
    rooms_fit(records)
        & users_keep(records)
        & administered(records)
        & all_led(records)
        & sessions_keep(records)
        & scripts_keep(records)
        & drafts_keep(records, last)
}
