// A batch: request bytes in, answer bytes out, and the stop that ended it.
#![tactic(auto)]

ghost use Rattle.std.specs.Prelude.{◌≡◌, ◌++◌, ◌-◌, ◌≤◌, length, drop};
ghost use Rattle.history.specs.Desk.{shown, answer_bytes};
ghost use Rattle.history.specs.Lent.{lent, SameParts};
ghost use Rattle.batch.specs.Batch.{stop_number, returned, Batched};

use history::{Answer, Desk, LentDesk};
use request::FrameError;

// Why a batch ended: no bytes left, no answer room, an unknown kind, a cut body.
#[derive(Clone, Copy, PartialEq, Eq)]
pub enum Stop {
    End,
    NoRoom,
    Unknown,
    Cut,
}

// The stop, the request bytes used and the answer bytes written.
#[derive(Clone, Copy, PartialEq, Eq)]
pub struct Ran {
    pub stop: Stop,
    pub used: usize,
    pub written: usize,
}

impl Ran {
    fn new(stop: Stop, used: usize, written: usize) -> Ran
        ensures { result ≡ returned stop used written }
    {
        Ran {
            stop,
            used,
            written,
        }
    }
}

// The desk after a batch, and what the batch returned.
#[derive(Drop)]
pub struct RanDesk {
    pub desk: Desk,
    pub ran: Ran,
}

pub fn stop_number(stop: Stop) -> u8
    ensures { result ≡ stop_number stop }
{
    match stop {
        Stop::End => 0,
        Stop::NoRoom => 13,
        Stop::Unknown => 1,
        Stop::Cut => 2,
    }
}

// Puts an answer's bytes at the start of `out`, which no answer outgrows, and says how many they are.
fn put_answer(out: &mut [u8], answer: Answer) -> usize
    requires { 5 ≤ length out.old }
    ensures { (result ≡ length (answer_bytes answer)) × (out.new ≡ answer_bytes answer ++ drop (length (answer_bytes answer)) out.old) }
{
    out[0] = history::answer_byte(answer);
    match answer {
        Answer::Granted => 1,
        Answer::Numbered(n) => {
            out[1..5].copy_from_slice(&n.to_be_bytes());
            5
        }
        Answer::Refused(_) => 1,
    }
}

// None is left where the place is at or beyond the buffer's end.
fn room_left(size: usize, place: usize) -> usize
    ensures { result ≡ size - place }
{
    size.saturating_sub(place)
}

// The desk is lent, so that a batch copies no table, and a request's fields are read where they are handed on. The part of `answers` that is lent on starts at the present place.
pub fn run(desk: &mut LentDesk, requests: &[u8], answers: &mut [u8], place: usize) -> Ran
    ensures parts { SameParts desk.old desk.new }
    ensures done { Batched desk.old.rule (lent desk.old) requests.now answers.old place (lent desk.new) result answers.new }
{
    let mut used: usize = 0;
    let mut at = place;
    // How far a turn goes is known only after its request; that the stop is yielded by break is 01's form.
    let stop = loop {
        if requests.len() <= used {
            break Stop::End;
        }
        if room_left(answers.len(), at) < 5 {
            break Stop::NoRoom;
        }
        match request::start_of(&requests[used..]) {
            Err(FrameError::Unknown) => {
                at += put_answer(&mut answers[at..], Answer::Refused(1));
                break Stop::Unknown;
            }
            Err(FrameError::Cut) => {
                at += put_answer(&mut answers[at..], Answer::Refused(2));
                break Stop::Cut;
            }
            Ok(length) => {
                let request = request::first(&requests[used..]);
                let answer = desk.take(request);
                at += put_answer(&mut answers[at..], answer);
                used += 1 + length as usize;
            }
        }
    };
    Ran::new(stop, used, at - place)
}

// The same for a desk by value, which is lent. Its rule stays.
pub fn run_desk(mut desk: Desk, requests: &[u8], answers: &mut [u8], place: usize) -> RanDesk
    ensures { Batched desk.rule (shown desk.base desk.log desk.current desk.last) requests.now answers.old place (shown result.desk.base result.desk.log result.desk.current result.desk.last) result.ran answers.new × (result.desk.rule ≡ desk.rule) }
{
    let mut lent = LentDesk {
        base: &mut desk.base,
        log: &mut desk.log,
        current: &mut desk.current,
        last: &mut desk.last,
        rule: desk.rule,
    };
    let ran = run(&mut lent, requests, answers, place);
    RanDesk { desk, ran }
}
