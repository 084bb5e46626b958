// What the caption editor calls from C: dominance, join and body length, on 32-bit numbers. include/desk.h declares the three.
#![tactic(auto)]

ghost use Rattle.std.specs.Prelude.{◌≡◌};
ghost use Rattle.editor.specs.Answers.{dominance_answer, join_answer, body_length_answer};

use label::Label;

// Numbers, since C reads them (include/desk.h).
const YES: u32 = 1;

const NO: u32 = 0;

const BAD_LABEL: u32 = 3;

const BAD_JOIN: u32 = 0xC300_0000;

// Both labels are unpacked before anything is asked of one, so that a bad label wins over an end.
pub fn desk_dominates(a: u32, b: u32) -> u32
    ensures { result ≡ dominance_answer a b }
{
    let Some(over) = Label::unpack(a) else {
        return BAD_LABEL;
    };
    let Some(under) = Label::unpack(b) else {
        return BAD_LABEL;
    };
    let failing = over.dominates(under);
    if failing.nothing() { YES } else { NO }
}

pub fn desk_join(a: u32, b: u32) -> u32
    ensures { result ≡ join_answer a b }
{
    let Some(one) = Label::unpack(a) else {
        return BAD_JOIN;
    };
    let Some(other) = Label::unpack(b) else {
        return BAD_JOIN;
    };
    one.join(other).pack()
}

// The kind is a full number: cut to a byte, 0x101 would pass for Enrol.
pub fn desk_body_length(kind: u32) -> u32
    ensures { result ≡ body_length_answer kind }
{
    request::body_length(kind)
}
