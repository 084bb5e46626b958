// The log of kept changes: the last 32 at most, each as its request's bytes and its number, in a ring of slots.
#![tactic(auto)]

ghost use Rattle.std.specs.Prelude.{◌≡◌, ◌<◌, ◌≤◌, ◌+◌, ◌%◌, length, get_or};
ghost use mathlib.Core.List.{[], foldl};
ghost use Rattle.records.specs.House.{view};
ghost use Rattle.records.specs.Tables.{at, put_at};
ghost use Rattle.effects.specs.Effects.{applied};
ghost use Rattle.kept.specs.Log.{change_table, past, no_change, pushed, popped};

use effects::Change;
use records::Cells;

// Byte 0 is the slot of the oldest change and byte 1 their number; then 32 slots of 13 bytes: nine of the request, four of the number.
// A ring, so that a full log takes one more without moving the others; of bytes, since C lends it and there is no heap.
pub type Log = [u8; 418];

const SLOTS: usize = 2;

// No change is kept.
pub fn clear(log: &mut Log)
    ensures { past log.new ≡ [] }
{
    *log = [0u8; 418];
}

// How many changes are kept: never more than 32, whatever the byte says.
#[tactic(auto, using(crate::proofs::Ring::past_length))]
pub fn kept_count(log: &Log) -> usize
    ensures { (result ≡ length (past log.now)) × (result ≤ 32) }
{
    let n = usize::from(log[1]);
    if n < 32 { n } else { 32 }
}

// The slot of kept change i, the oldest being 0.
fn slot_of(log: &Log, i: usize) -> usize
    requires { i ≤ 32 }
    ensures { (result ≡ (get_or log.now 0 0 + i) % 32) × (result < 32) }
{
    (usize::from(log[0]) + i) % 32
}

// The change in a slot, made again.
fn redo_slot(records: &mut Cells, log: &Log, slot: usize)
    requires { slot < 32 }
    ensures { view records.new ≡ applied (view records.old) (at change_table log.now slot) }
{
    let at = SLOTS + 13 * slot;
    let request = request::request_of([
        log[at],
        log[at + 1],
        log[at + 2],
        log[at + 3],
        log[at + 4],
        log[at + 5],
        log[at + 6],
        log[at + 7],
        log[at + 8],
    ]);
    let number = u32::from_be_bytes([log[at + 9], log[at + 10], log[at + 11], log[at + 12]]);
    effects::apply(records, request, number);
}

fn write_slot(log: &mut Log, slot: usize, change: Change)
    requires { slot < 32 }
    ensures { log.new ≡ put_at change_table log.old slot change }
{
    let at = SLOTS + 13 * slot;
    log[at..at + 9].copy_from_slice(&request::write(change.request));
    log[at + 9..at + 13].copy_from_slice(&change.number.to_be_bytes());
}

// Kept change i made again, the oldest being 0; past the newest nothing happens.
pub fn redo(records: &mut Cells, log: &Log, i: usize)
    ensures { view records.new ≡ applied (view records.old) (get_or (past log.now) i no_change) }
{
    if kept_count(log) <= i {
        return;
    }
    let slot = slot_of(log, i);
    redo_slot(records, log, slot);
}

// One change more; of a full log the oldest is given up for it.
pub fn push(log: &mut Log, change: Change)
    ensures { past log.new ≡ pushed (past log.old) change }
{
    let n = kept_count(log);
    let slot = slot_of(log, n);
    write_slot(log, slot, change);
    if n < 32 {
        log[1] = (n + 1) as u8;
        return;
    }
    log[0] = ((slot + 1) % 32) as u8;
}

// The newest change goes.
#[tactic(auto, using(crate::proofs::Ring::pop_one))]
pub fn pop(log: &mut Log)
    ensures { past log.new ≡ popped (past log.old) }
{
    let n = kept_count(log);
    if n == 0 {
        return;
    }
    log[1] = (n - 1) as u8;
}

// The records after all kept changes, from those before them.
pub fn replay(base: &Cells, log: &Log, current: &mut Cells)
    ensures { view current.new ≡ foldl applied (view base.now) (past log.now) }
{
    let records = *base;
    *current = records;
    let end = kept_count(log);
    'changes: for i in 0..end {
        redo(current, log, i);
    }
}
