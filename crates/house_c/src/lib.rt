// The whole desk for C and C++: the functions of the crate house, by the names of include/house.h, and the three of include/desk.h.
#![tactic(auto)]

ghost use Rattle.std.specs.Prelude.{◌≡◌, length};
ghost use Rattle.records.specs.House.{view};
ghost use Rattle.kept.specs.Log.{past};
ghost use Rattle.history.specs.Desk.{shown, opened_under};
ghost use Rattle.editor.specs.Answers.{dominance_answer, join_answer, body_length_answer};
ghost use Rattle.image.specs.Image.{image_of};
ghost use Rattle.image.specs.Saving.{saved_answer, saved_buffer};
ghost use Rattle.opening.specs.Desks.{desk_by};
ghost use Rattle.why.specs.Why.{reason_of_bytes};
ghost use Rattle.house.specs.Calls.{held_rule, rule_number, left, as_opened, as_loaded, BatchCall, words, save_number, save_length};

use house::Words;
use kept::Log;
use records::Cells;

#[unsafe(no_mangle)]
pub extern "C" fn desk_open_parts(
    base: &mut Cells,
    log: &mut Log,
    current: &mut Cells,
    last: &mut u32,
    rule: &mut u32,
    start: u32,
    under: u32,
) -> u32
    ensures { left result (shown base.new log.new current.new last.new) rule.new ≡ as_opened (opened_under start under) }
{
    house::desk_open_parts(base, log, current, last, rule, start, under)
}

#[unsafe(no_mangle)]
pub extern "C" fn desk_batch_parts(
    base: &mut Cells,
    log: &mut Log,
    current: &mut Cells,
    last: &mut u32,
    rule: u32,
    requests: &[u8],
    answers: &mut [u8],
    place: usize,
    used: &mut usize,
    written: &mut usize,
) -> u32
    ensures { BatchCall (held_rule rule) (shown base.old log.old current.old last.old) requests.now answers.old place (shown base.new log.new current.new last.new) result used.new written.new answers.new }
{
    house::desk_batch_parts(
        base, log, current, last, rule, requests, answers, place, used, written,
    )
}

#[unsafe(no_mangle)]
pub extern "C" fn desk_why_parts(
    log: &Log,
    current: &Cells,
    last: u32,
    rule: u32,
    request: &[u8],
    reason: &mut Words,
) -> u32
    ensures { (result ≡ (reason_of_bytes (held_rule rule) (view current.now) last (length (past log.now)) request.now).number) × (reason.new ≡ words (reason_of_bytes (held_rule rule) (view current.now) last (length (past log.now)) request.now)) }
{
    house::desk_why_parts(log, current, last, rule, request, reason)
}

#[unsafe(no_mangle)]
pub extern "C" fn desk_save_parts(
    current: &Cells,
    last: u32,
    rule: u32,
    buffer: &mut [u8],
    written: &mut usize,
) -> u32
    ensures { (result ≡ save_number (saved_answer (image_of (view current.now) last (held_rule rule)) buffer.old)) × (written.new ≡ save_length (saved_answer (image_of (view current.now) last (held_rule rule)) buffer.old)) × (buffer.new ≡ saved_buffer (image_of (view current.now) last (held_rule rule)) buffer.old) }
{
    house::desk_save_parts(current, last, rule, buffer, written)
}

#[unsafe(no_mangle)]
pub extern "C" fn desk_load_parts(
    base: &mut Cells,
    log: &mut Log,
    current: &mut Cells,
    last: &mut u32,
    rule: &mut u32,
    image: &[u8],
) -> u32
    ensures { left result (shown base.new log.new current.new last.new) rule.new ≡ as_loaded (desk_by image.now) }
{
    house::desk_load_parts(base, log, current, last, rule, image)
}

#[unsafe(no_mangle)]
pub extern "C" fn desk_kept_parts(log: &Log) -> u32
    ensures { result ≡ length (past log.now) }
{
    house::desk_kept_parts(log)
}

#[unsafe(no_mangle)]
pub extern "C" fn desk_rule_parts(rule: u32) -> u32
    ensures { result ≡ rule_number (held_rule rule) }
{
    house::desk_rule_parts(rule)
}

#[unsafe(no_mangle)]
pub extern "C" fn desk_dominates(a: u32, b: u32) -> u32
    ensures { result ≡ dominance_answer a b }
{
    house::desk_dominates(a, b)
}

#[unsafe(no_mangle)]
pub extern "C" fn desk_join(a: u32, b: u32) -> u32
    ensures { result ≡ join_answer a b }
{
    house::desk_join(a, b)
}

#[unsafe(no_mangle)]
pub extern "C" fn desk_body_length(kind: u32) -> u32
    ensures { result ≡ body_length_answer kind }
{
    house::desk_body_length(kind)
}
