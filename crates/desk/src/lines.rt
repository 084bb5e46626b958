// The text of a line: the ordinal, the kind, the answer byte, the draft number or a dash, and where it is asked for the reason.
ghost use Rattle.std.specs.Prelude.{◌≡◌, [], ◌+◌, ◌<◌, ◌≤◌, length};
ghost use Rattle.desk.specs.Counts.{IsPrefixLen};
ghost use Rattle.desk.specs.Lines.{hex_digit, hex, middle_of, decimal, number_text, number_part, kind_part, reason_text, line_of, refused_text, rule_refused_text, Put, Appends};

use history::Answer;
use itoa::Buffer;
use reasons::Reason;

fn hex_digit(n: u8) -> u8
    requires { n < 16 }
    ensures { result ≡ hex_digit n }
{
    if n < 10 { b'0' + n } else { b'A' + (n - 10) }
}

fn hex(byte: u8) -> [u8; 2]
    ensures { result ≡ hex byte [] }
{
    [hex_digit(byte / 16), hex_digit(byte % 16)]
}

// As in ` 13 C8 `: two bytes in hex, with the spaces around them.
fn middle(kind: u8, byte: u8) -> [u8; 7]
    ensures { result ≡ middle_of kind byte }
{
    let [a, b] = hex(kind);
    let [c, d] = hex(byte);
    [b' ', a, b, b' ', c, d, b' ']
}

// As in ` 45`: the kind of a record.
fn kind_part(kind: u8) -> [u8; 3]
    ensures { result ≡ kind_part kind }
{
    let [a, b] = hex(kind);
    [b' ', a, b]
}

// A text in a lent buffer: its first `end` bytes. What is put there goes behind them.
#[derive(Drop)]
pub(crate) struct Text<'a> {
    pub out: &'a mut [u8],
    pub end: usize,
}

impl Text<'_> {
    pub(crate) fn append(&mut self, text: &[u8])
        requires { self.old.end + length text.now ≤ length self.old.out.now }
        ensures { Appends self.old text.now self.new }
    {
        let end = self.end + text.len();
        self.out[self.end..end].copy_from_slice(text);
        self.end = end;
    }

    #[tactic(auto, using(crate::proofs::Decimal::decimal_is))]
    fn decimal(&mut self, n: u64)
        requires { self.old.end + 20 ≤ length self.old.out.now }
        ensures appends { Appends self.old (decimal n) self.new }
        ensures short { self.new.end ≤ self.old.end + 20 }
    {
        self.append(Buffer::new().format(n).as_bytes());
    }

    fn number(&mut self, answer: Answer)
        requires { self.old.end + 20 ≤ length self.old.out.now }
        ensures appends { Appends self.old (number_text answer) self.new }
        ensures short { self.new.end ≤ self.old.end + 20 }
    {
        match answer {
            Answer::Numbered(number) => self.decimal(u64::from(number)),
            Answer::Granted | Answer::Refused(_) => self.append(b"-"),
        }
    }

    fn part(&mut self, n: u32)
        requires { self.old.end + 21 ≤ length self.old.out.now }
        ensures appends { Appends self.old (number_part n) self.new }
        ensures short { self.new.end ≤ self.old.end + 21 }
    {
        self.append(b" ");
        self.decimal(u64::from(n));
    }

    fn reason(&mut self, reason: Reason)
        requires { self.old.end + 87 ≤ length self.old.out.now }
        ensures appends { Appends self.old (reason_text reason) self.new }
        ensures short { self.new.end ≤ self.old.end + 87 }
    {
        self.part(u32::from(reason.number));
        self.append(&kind_part(reason.kind));
        self.part(reason.id);
        self.part(reason.held);
        self.part(reason.wanted);
    }

    // As in `: refused 14`, behind the name of a file that is no image.
    pub(crate) fn refused(&mut self, number: u8)
        requires { self.old.end + 31 ≤ length self.old.out.now }
        ensures { Appends self.old (refused_text number) self.new }
    {
        self.append(b": refused ");
        self.decimal(u64::from(number));
        self.append(b"\n");
    }
}

// A line goes behind the first `at` bytes of out; the answer is where it ends.
#[tactic(auto, unfolding(crate::specs::Lines::line_of))]
pub(crate) fn line(
    why: bool,
    ordinal: u64,
    kind: u8,
    answer: Answer,
    reason: Reason,
    out: &mut [u8],
    at: usize,
) -> usize
    requires { at + 136 ≤ length out.old }
    ensures { Put out.old at (line_of why ordinal kind answer reason) result out.new }
{
    let mut text = Text { out, end: at };
    text.decimal(ordinal);
    text.append(&middle(kind, history::answer_byte(answer)));
    text.number(answer);
    if why {
        text.reason(reason);
    }
    text.append(b"\n");
    text.end
}

// As in `desk: --rule 7: refused 3`.
pub(crate) fn rule_refused(rule: u32, number: u8, out: &mut [u8]) -> usize
    requires { 64 ≤ length out.old }
    ensures put { Put out.old 0 (rule_refused_text rule number) result out.new }
    ensures prefix_len { IsPrefixLen result out.new }
{
    let mut text = Text { out, end: 0 };
    text.append(b"desk: --rule ");
    text.decimal(u64::from(rule));
    text.refused(number);
    text.end
}
