// What caption software calls from C: a desk whose parts the caller owns and lends. include/house.h has the same calls on a desk_t, and the three of the crate editor.
#![tactic(auto)]

ghost use Rattle.std.specs.Prelude.{◌≡◌, length};
ghost use Rattle.records.specs.House.{view};
ghost use Rattle.kept.specs.Log.{past};
ghost use Rattle.history.specs.Desk.{shown, opened_under};
ghost use Rattle.editor.specs.Answers.{dominance_answer, join_answer, body_length_answer};
ghost use Rattle.image.specs.Image.{image_of};
ghost use Rattle.image.specs.Saving.{saved_answer, saved_buffer};
ghost use Rattle.opening.specs.Desks.{desk_by};
ghost use Rattle.why.specs.Why.{reason_of_bytes};
ghost use Rattle.house.specs.Calls.{held_rule, rule_number, left, as_opened, as_loaded, BatchCall, words, save_number, save_length};

use history::LentDesk;
use kept::Log;
use records::{Cells, Rule};

// The five words of a desk_reason: its number, the record's kind and id, what it holds and what was wanted.
pub type Words = [u32; 5];

// Of the numbers that a desk_t may hold, damaged or zeroed, all but 2 stand for rule 1.
fn rule_of(rule: u32) -> Rule
    ensures { result ≡ held_rule rule }
{
    if rule == 2 { Rule::Two } else { Rule::One }
}

fn rule_number(rule: Rule) -> u32
    ensures { result ≡ rule_number rule }
{
    match rule {
        Rule::One => 1,
        Rule::Two => 2,
    }
}

// Without records and kept changes.
pub fn desk_open_parts(
    base: &mut Cells,
    log: &mut Log,
    current: &mut Cells,
    last: &mut u32,
    rule: &mut u32,
    start: u32,
    under: u32,
) -> u32
    ensures { left result (shown base.new log.new current.new last.new) rule.new ≡ as_opened (opened_under start under) }
{
    let mut desk = LentDesk {
        base,
        log,
        current,
        last,
        rule: Rule::One,
    };
    let answer = desk.open(start, under);
    *rule = rule_number(desk.rule);
    match answer {
        Ok(()) => 0,
        Err(refusal) => u32::from(refusal.number()),
    }
}

pub fn desk_batch_parts(
    base: &mut Cells,
    log: &mut Log,
    current: &mut Cells,
    last: &mut u32,
    rule: u32,
    requests: &[u8],
    answers: &mut [u8],
    place: usize,
    used: &mut usize,
    written: &mut usize,
) -> u32
    ensures { BatchCall (held_rule rule) (shown base.old log.old current.old last.old) requests.now answers.old place (shown base.new log.new current.new last.new) result used.new written.new answers.new }
{
    let mut desk = LentDesk {
        base,
        log,
        current,
        last,
        rule: rule_of(rule),
    };
    let ran = batch::run(&mut desk, requests, answers, place);
    *used = ran.used;
    *written = ran.written;
    u32::from(batch::stop_number(ran.stop))
}

pub fn desk_why_parts(
    log: &Log,
    current: &Cells,
    last: u32,
    rule: u32,
    request: &[u8],
    reason: &mut Words,
) -> u32
    ensures { (result ≡ (reason_of_bytes (held_rule rule) (view current.now) last (length (past log.now)) request.now).number) × (reason.new ≡ words (reason_of_bytes (held_rule rule) (view current.now) last (length (past log.now)) request.now)) }
{
    let kept = kept::kept_count(log) as u32;
    let told = why::explain_bytes(current, rule_of(rule), last, kept, request);
    let number = u32::from(told.number);
    let kind = u32::from(told.kind);
    *reason = [number, kind, told.id, told.held, told.wanted];
    number
}

pub fn desk_save_parts(
    current: &Cells,
    last: u32,
    rule: u32,
    buffer: &mut [u8],
    written: &mut usize,
) -> u32
    ensures { (result ≡ save_number (saved_answer (image_of (view current.now) last (held_rule rule)) buffer.old)) × (written.new ≡ save_length (saved_answer (image_of (view current.now) last (held_rule rule)) buffer.old)) × (buffer.new ≡ saved_buffer (image_of (view current.now) last (held_rule rule)) buffer.old) }
{
    match image::save(current, last, rule_of(rule), buffer) {
        Ok(n) => {
            *written = n;
            0
        }
        Err(refusal) => {
            *written = 0;
            u32::from(refusal.number())
        }
    }
}

pub fn desk_load_parts(
    base: &mut Cells,
    log: &mut Log,
    current: &mut Cells,
    last: &mut u32,
    rule: &mut u32,
    image: &[u8],
) -> u32
    ensures { left result (shown base.new log.new current.new last.new) rule.new ≡ as_loaded (desk_by image.now) }
{
    let mut desk = LentDesk {
        base,
        log,
        current,
        last,
        rule: Rule::One,
    };
    let answer = opening::open_desk(image, &mut desk);
    *rule = rule_number(desk.rule);
    match answer {
        Ok(()) => 0,
        Err(refusal) => u32::from(refusal.number()),
    }
}

pub fn desk_kept_parts(log: &Log) -> u32
    ensures { result ≡ length (past log.now) }
{
    kept::kept_count(log) as u32
}

pub fn desk_rule_parts(rule: u32) -> u32
    ensures { result ≡ rule_number (held_rule rule) }
{
    rule_number(rule_of(rule))
}

// The three of the crate editor, which the library for C (crates/house_c) has as well.
pub fn desk_dominates(a: u32, b: u32) -> u32
    ensures { result ≡ dominance_answer a b }
{
    editor::desk_dominates(a, b)
}

pub fn desk_join(a: u32, b: u32) -> u32
    ensures { result ≡ join_answer a b }
{
    editor::desk_join(a, b)
}

pub fn desk_body_length(kind: u32) -> u32
    ensures { result ≡ body_length_answer kind }
{
    editor::desk_body_length(kind)
}
