// Any batch, run and compared. Standard input has a line a case, `NAME LAST ROOM PLACE REQUESTS`: a desk is opened with the last number LAST, under rule 1, or
// where LAST is `N/R` with the last number N under the rule of number R; or it goes on as the case before left it where that is `+`; ROOM bytes of answer room, each ee; the place the answers start at; the requests in hex, with `_` between them.
// The line written has the name, the stop, the request bytes used, the answer bytes written, the last number then, and every byte of the answer room.
#![tactic(auto)]

ghost use Rattle.std.specs.Prelude.{◌<◌, ◌≤◌, length};

use batch::Stop;
use history::{Desk, LentDesk};
use std::io::{self, Read, Write};

// ---- what is written
fn bytes<W: Write>(out: &mut W, answers: &[u8]) -> io::Result<()> {
    for byte in answers {
        write!(out, "{byte:02x}")?;
    }
    Ok(())
}

fn answer_room<W: Write>(out: &mut W, answers: &[u8]) -> io::Result<()> {
    if answers.is_empty() {
        return out.write_all(b"-");
    }
    bytes(out, answers)
}

// ---- what is read
// A number that has no room for one more digit stays.
fn with_digit(n: u64, digit: u8) -> u64 {
    if n < 1_000_000_000_000_000_000 {
        return n * 10 + u64::from(digit % 16);
    }
    n
}

fn decimal(word: &[u8]) -> u64 {
    word.iter().fold(0, |n, digit| with_digit(n, *digit))
}

fn low_word(n: u64) -> u32 {
    (n % 4_294_967_296) as u32
}

// Of a hex digit. The same stands in lines: one small function is no crate.
fn value(digit: u8) -> u8
    ensures { result < 16 }
{
    // 0 to 9; A to F, a to f
    if digit < 58 {
        digit % 16
    } else {
        (digit - 55) % 16
    }
}

// The bytes that a word shows in hex, as many as there is room for, and 4,096 at most; `_` is no digit.
fn hex<'a>(word: &[u8], room: &'a mut [u8]) -> &'a [u8]
    ensures within { length result.now ≤ length room.old }
    ensures short { length result.now ≤ 4096 }
{
    let most = room.len().min(4096);
    let mut digits = word.iter().filter(|digit| **digit != b'_');
    for n in 0..most {
        let (Some(high), Some(low)) = (digits.next(), digits.next()) else {
            return &room[..n];
        };
        room[n] = value(*high) * 16 + value(*low);
    }
    &room[..most]
}

// ---- a case
// The field LAST: a desk opened with that number, and under the rule behind the `/`, which is 1 where there is none. A `+` leaves the desk as it is.
fn open_anew(word: &[u8], desk: &mut LentDesk) {
    if word.starts_with(b"+") {
        return;
    }
    let mut numbers = word.splitn(2, |byte| *byte == b'/');
    let last = decimal(numbers.next().unwrap_or_default());
    let rule = numbers.next().map_or(1, decimal);
    let _ = desk.open(low_word(last), low_word(rule));
}

// Runs the batch, and writes what it left.
fn run_batch<W: Write>(
    out: &mut W,
    desk: &mut LentDesk,
    requests: &[u8],
    answers: &mut [u8],
    place: usize,
) -> io::Result<()> {
    let ran = batch::run(desk, requests, answers, place);
    let stop = batch::stop_number(ran.stop);
    write!(out, " {stop} {} {} {} ", ran.used, ran.written, *desk.last)?;
    answer_room(out, answers)
}

// An empty line, and one that starts with `#`, is no case. Of more than 4,096 bytes the first are taken.
fn case<W: Write>(out: &mut W, line: &[u8], desk: &mut LentDesk) -> io::Result<()> {
    if line.is_empty() || line.starts_with(b"#") {
        return Ok(());
    }
    let mut fields = line.split(|byte| *byte == b' ');
    out.write_all(fields.next().unwrap_or_default())?;
    open_anew(fields.next().unwrap_or_default(), desk);
    let size = decimal(fields.next().unwrap_or_default()).min(4096) as usize;
    let place = decimal(fields.next().unwrap_or_default()) as usize;
    let mut room = [0u8; 4096];
    let requests = hex(fields.next().unwrap_or_default(), &mut room);
    let mut answers = [0xEEu8; 4096];
    run_batch(out, desk, requests, &mut answers[..size], place)?;
    out.write_all(b"\n")
}

fn cases<W: Write>(out: &mut W, input: &[u8]) -> io::Result<()> {
    let mut desk = Desk::empty();
    let mut lent = LentDesk {
        base: &mut desk.base,
        log: &mut desk.log,
        current: &mut desk.current,
        last: &mut desk.last,
        rule: desk.rule,
    };
    for line in input.split(|byte| *byte == b'\n') {
        case(out, line, &mut lent)?;
    }
    Ok(())
}

// ---- every kind
// The stop of a batch over these bytes.
fn stop_of(requests: &[u8]) -> Stop {
    let mut answers = [0u8; 5];
    let left = batch::run_desk(Desk::empty(), requests, &mut answers, 0);
    left.ran.stop
}

// Whether the first n bytes of a frame of this kind stop the batch as cut.
fn is_cut(kind: u8, n: usize) -> bool
    requires { n ≤ 9 }
{
    let frame = [kind, 0, 0, 0, 0, 0, 0, 0, 0];
    stop_of(&frame[..n]) == Stop::Cut
}

// How many beginnings of a frame of this kind stop the batch as cut.
fn cuts(kind: u8) -> usize
    ensures { result ≤ 9 }
{
    (1..10).filter(|n| is_cut(kind, *n)).count()
}

fn all_unknown() -> usize {
    (0..=255u8)
        .filter(|kind| stop_of(&[*kind]) == Stop::Unknown)
        .count()
}

fn all_cuts() -> usize {
    (0..=255u8).fold(0, |found, kind| cuts(kind).saturating_add(found))
}

fn every_kind<W: Write>(out: &mut W) -> io::Result<()> {
    writeln!(out, "unknown-kinds {}", all_unknown())?;
    writeln!(out, "cut-frames {}", all_cuts())
}

// ---- the input
// As much of it as there is room for is read.
fn main(rt: HostRuntime) -> io::Result<()> {
    let mut input = [0u8; 65536];
    let n = io::copy(&mut rt.stdin().take(65536), &mut &mut input[..])? as usize;
    let mut out = io::writer(&rt);
    cases(&mut out, &input[..n.min(65536)])?;
    every_kind(&mut out)
}
