// What is asked of requests about people and rooms, and of Take back, each condition in its order.
ghost use Rattle.std.specs.Prelude.{◌≡◌};
ghost use Rattle.records.specs.House.{view};
ghost use Rattle.reasons.specs.Asking.{asked};
ghost use Rattle.judge.specs.Kinds.{enrol_numbers, enrol_lines, establish_lines, join_staff_lines, leave_staff_lines, join_outsider_lines, leave_outsider_lines, disband_lines, make_lead_lines, end_lead_lines, take_back_lines};

use reasons::Reason;
use records::Cells;

// 01 Enrol
fn enrol_numbers(
    u: u8,
    new: u8,
    sort: u8,
    level: u8,
    categories: u16,
    admin: u8,
) -> Result<(), Reason>
    ensures { result ≡ asked (enrol_numbers u new sort level categories admin) }
{
    reasons::id(u)?;
    reasons::id(new)?;
    reasons::level(level)?;
    reasons::sort(sort)?;
    reasons::yes_no(admin)?;
    reasons::plain(sort, u16::from(level))?;
    reasons::plain(sort, categories)?;
    reasons::plain(sort, u16::from(admin))
}

#[tactic(auto, using(reasons::proofs::Asking::first, reasons::proofs::Asking::more), unfolding(crate::specs::Kinds::enrol_where))]
pub(crate) fn enrol(
    records: &Cells,
    u: u8,
    new: u8,
    sort: u8,
    level: u8,
    categories: u16,
    admin: u8,
) -> Result<(), Reason>
    ensures { result ≡ asked (enrol_lines (view records.now) u new sort level categories admin) }
{
    let empty = conditions::no_users(records);
    enrol_numbers(u, new, sort, level, categories, admin)?;
    reasons::enroller_exists(records, empty, u)?;
    reasons::user_new(records, new)?;
    reasons::first_has(empty, u, new)?;
    reasons::first_has(empty, sort, 0)?;
    reasons::first_has(empty, admin, 1)?;
    reasons::enrolls(records, empty, u)
}

// 02 Establish
pub(crate) fn establish(records: &Cells, u: u8, room: u8) -> Result<(), Reason>
    ensures { result ≡ asked (establish_lines (view records.now) u room) }
{
    reasons::id(u)?;
    reasons::room_high(room)?;
    reasons::room_low(room)?;
    reasons::user_exists(records, u)?;
    reasons::room_new(records, room)?;
    reasons::administers(records, u)
}

// 03 Join staff
pub(crate) fn join_staff(records: &Cells, u: u8, w: u8, room: u8) -> Result<(), Reason>
    ensures { result ≡ asked (join_staff_lines (view records.now) u w room) }
{
    reasons::pair_numbers(u, w, room)?;
    reasons::pair_led(records, u, w, room)?;
    reasons::staff(records, w)?;
    reasons::not_in(records, w, room)
}

// 04 Leave staff
pub(crate) fn leave_staff(records: &Cells, u: u8, w: u8, room: u8) -> Result<(), Reason>
    ensures { result ≡ asked (leave_staff_lines (view records.now) u w room) }
{
    reasons::pair_numbers(u, w, room)?;
    reasons::pair_led(records, u, w, room)?;
    reasons::staff(records, w)?;
    reasons::in_room(records, w, room)
}

// 05 Join outsider: its level is asked, also where it has no effect.
pub(crate) fn join_outsider(
    records: &Cells,
    u: u8,
    w: u8,
    room: u8,
    level: u8,
) -> Result<(), Reason>
    ensures { result ≡ asked (join_outsider_lines (view records.now) u w room level) }
{
    reasons::pair_numbers(u, w, room)?;
    reasons::level(level)?;
    reasons::pair_led(records, u, w, room)?;
    reasons::not_staff(records, w)?;
    reasons::not_in(records, w, room)
}

// 06 Leave outsider
pub(crate) fn leave_outsider(records: &Cells, u: u8, w: u8, room: u8) -> Result<(), Reason>
    ensures { result ≡ asked (leave_outsider_lines (view records.now) u w room) }
{
    reasons::pair_numbers(u, w, room)?;
    reasons::pair_led(records, u, w, room)?;
    reasons::freelancer(records, w)?;
    reasons::in_room(records, w, room)
}

// 0B Disband
pub(crate) fn disband(records: &Cells, u: u8, room: u8) -> Result<(), Reason>
    ensures { result ≡ asked (disband_lines (view records.now) u room) }
{
    reasons::id(u)?;
    reasons::room_high(room)?;
    reasons::room_low(room)?;
    reasons::user_exists(records, u)?;
    reasons::room_exists(records, room)?;
    reasons::leads(records, u, room)
}

// 0C: u makes w a lead.
pub(crate) fn make_lead(records: &Cells, u: u8, w: u8, room: u8) -> Result<(), Reason>
    ensures { result ≡ asked (make_lead_lines (view records.now) u w room) }
{
    reasons::pair_numbers(u, w, room)?;
    reasons::pair_led(records, u, w, room)?;
    reasons::staff(records, w)?;
    reasons::not_lead(records, w, room)
}

// 0D: u ends w's lead.
pub(crate) fn end_lead(records: &Cells, u: u8, w: u8, room: u8) -> Result<(), Reason>
    ensures { result ≡ asked (end_lead_lines (view records.now) u w room) }
{
    reasons::pair_numbers(u, w, room)?;
    reasons::pair_led(records, u, w, room)?;
    reasons::staff(records, w)?;
    reasons::lead(records, w, room)?;
    reasons::another_lead(records, room)
}

// 20 Take back: whether a change is left is asked by whoever keeps them.
pub(crate) fn take_back(records: &Cells, u: u8) -> Result<(), Reason>
    ensures { result ≡ asked (take_back_lines (view records.now) u) }
{
    reasons::id(u)?;
    reasons::user_exists(records, u)?;
    reasons::administers(records, u)
}
