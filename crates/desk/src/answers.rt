// The requests of a piece of the input, answered one after the other, with their lines collected in a buffer.
ghost use Rattle.std.specs.Prelude.{◌≡◌, cond, ◌+◌, ◌*◌, ◌^◌, ◌<◌, ◌≤◌, length};
ghost use Rattle.request.specs.Kinds.{body_length};
ghost use Rattle.kept.specs.Log.{past};
ghost use Rattle.history.specs.Lent.{lent, SameParts};
ghost use Rattle.reasons.specs.Reasons.{zeros};
ghost use Rattle.why.specs.Why.{reason_after};
ghost use Rattle.desk.specs.Turns.{all_of};
ghost use Rattle.desk.specs.Steps.{so_far, one_of, Made};

use crate::lines::line;
use history::{Answer, LentDesk};
use judge::Grant;
use kept::Log;
use reasons::Reason;
use request::FrameError;

// The ordinal of the next line, the request bytes used, where the lines collected end, and whether more is to be read.
#[derive(Clone, Copy)]
pub(crate) struct Progress {
    pub ordinal: u64,
    pub used: usize,
    pub text: usize,
    pub onward: bool,
}

fn so_far(ordinal: u64, used: usize, text: usize, onward: bool) -> Progress
    ensures { result ≡ so_far ordinal used text onward }
{
    Progress {
        ordinal,
        used,
        text,
        onward,
    }
}

fn body_length(kind: u8) -> usize
    ensures { (result ≡ body_length kind) × (result < 2 ^ 32) }
{
    request::body_length(u32::from(kind)) as usize
}

// The reason that is printed for a request, by its ruling: asked for before the request is made, and not at all where none is printed.
fn reason_of(why: bool, log: &Log, last: u32, ruling: Result<Grant, Reason>) -> Reason
    ensures { result ≡ cond why (reason_after ruling last (length (past log.now))) zeros }
{
    if !why {
        return reasons::bare(0);
    }
    let kept = kept::kept_count(log) as u32;
    why::of_ruling(ruling, last, kept)
}

// The first request: judged once, for the reason and for the answer. One that is cut waits for more bytes, unless the input ends with these.
fn answer_next(
    why: bool,
    desk: &mut LentDesk,
    ordinal: u64,
    requests: &[u8],
    ended: bool,
    out: &mut [u8],
    at: usize,
) -> Progress
    requires requests_nonzero { 0 < length requests.now }
    requires ordinal_bound { ordinal + 1 < 2 ^ 64 }
    requires at_in_bounds { at + 136 ≤ length out.old }
    ensures parts { SameParts desk.old desk.new }
    ensures done { Made (one_of desk.old.rule why ended (lent desk.old) ordinal requests.now) out.old at (lent desk.new) result out.new }
{
    let kind = requests[0];
    match request::read(requests) {
        Ok(request) => {
            let ruling = judge::judge(desk.current, desk.rule, request);
            let reason = reason_of(why, desk.log, *desk.last, ruling);
            let answer = desk.act(request, ruling);
            let text = line(why, ordinal, kind, answer, reason, out, at);
            let length = body_length(kind);
            so_far(ordinal + 1, length + 1, text, true)
        }
        Err(FrameError::Unknown) => {
            let reason = reasons::bare(1);
            let text = line(why, ordinal, kind, Answer::Refused(1), reason, out, at);
            so_far(ordinal + 1, 0, text, false)
        }
        Err(FrameError::Cut) => {
            if !ended {
                return so_far(ordinal, 0, at, true);
            }
            let reason = reasons::bare(2);
            let text = line(why, ordinal, kind, Answer::Refused(2), reason, out, at);
            so_far(ordinal + 1, 0, text, false)
        }
    }
}

// All the requests of a piece, but for one that waits.
pub(crate) fn answer_all(
    why: bool,
    desk: &mut LentDesk,
    first: u64,
    requests: &[u8],
    ended: bool,
    out: &mut [u8],
) -> Progress
    requires { (first + length requests.now < 2 ^ 64) × (136 * length requests.now ≤ length out.old) }
    ensures parts { SameParts desk.old desk.new }
    ensures done { Made (all_of desk.old.rule why ended (lent desk.old) first requests.now) out.old 0 (lent desk.new) result out.new }
{
    let mut ordinal = first;
    let mut used: usize = 0;
    let mut text: usize = 0;
    // How far a turn goes is known only after its request.
    let onward = loop {
        if requests.len() <= used {
            break !ended;
        }
        let rest = &requests[used..];
        let next = answer_next(why, desk, ordinal, rest, ended, out, text);
        ordinal = next.ordinal;
        used += next.used;
        text = next.text;
        if next.used == 0 {
            break next.onward;
        }
    };
    Progress {
        ordinal,
        used,
        text,
        onward,
    }
}
