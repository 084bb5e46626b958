// A piece of the input, behind the bytes that wait: what is to be written for it, what waits then, and whether to go on.
ghost use Rattle.std.specs.Prelude.{◌≡◌, ◌+◌, ◌-◌, ◌*◌, ◌^◌, ◌<◌, ◌≤◌, length, take, drop};
ghost use Rattle.history.specs.Lent.{lent, SameParts};
ghost use Rattle.desk.specs.Turns.{stand, turn, TurnIs};

use crate::answers::answer_all;
use history::LentDesk;

// The ordinal of the next line, how many bytes wait, how many bytes the text has, and whether more is to be read.
#[derive(Clone, Copy)]
pub(crate) struct Turn {
    pub ordinal: u64,
    pub have: usize,
    pub text: usize,
    pub onward: bool,
}

// What stands from `from` up to `to` becomes the front of buf.
fn keep(buf: &mut [u8], from: usize, to: usize) -> usize
    requires { (from ≤ to) × (to ≤ length buf.old) }
    ensures { (result ≡ to - from) × (take result buf.new ≡ take result (drop from buf.old)) }
{
    buf.copy_within(from..to, 0);
    to - from
}

// The first `have` bytes of buf wait, and `got` bytes were read behind them; none were read where the input has ended.
pub(crate) fn answer_piece(
    why: bool,
    desk: &mut LentDesk,
    ordinal: u64,
    buf: &mut [u8],
    have: usize,
    got: usize,
    out: &mut [u8],
) -> Turn
    requires { (have + got ≤ length buf.old) × ((ordinal + (have + got) < 2 ^ 64) × (136 * (have + got) ≤ length out.old)) }
    ensures parts { SameParts desk.old desk.new }
    ensures done { TurnIs (turn desk.old.rule why (stand (lent desk.old) ordinal (take have buf.old)) (take got (drop have buf.old))) (lent desk.new) result buf.new out.new }
{
    let end = have + got;
    let done = answer_all(why, desk, ordinal, &buf[..end], got == 0, out);
    let rest = keep(buf, done.used, end);
    Turn {
        ordinal: done.ordinal,
        have: rest,
        text: done.text,
        onward: done.onward,
    }
}
