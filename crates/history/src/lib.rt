// The desk: its records, its kept changes, and one request after the other.
#![tactic(auto)]

ghost use Rattle.std.specs.Prelude.{◌≡◌, ℕ};
ghost use Rattle.records.specs.House.{view, empty_house};
ghost use Rattle.kept.specs.Log.{past};
ghost use Rattle.history.specs.Machine.{opened, outcome, keep_change, take_back, issued, ruled, step};
ghost use Rattle.effects.specs.Effects.{change_of};
ghost use Rattle.history.specs.Lent.{lent, SamePlaces, SameParts};
ghost use Rattle.history.specs.Desk.{shown, desk_rules, no_rule_number, opens, opened_under, verdict_of, settled, answer_byte};
ghost use Rattle.counter.specs.Numbers.{next_after};

use effects::Change;
use judge::Grant;
use kept::Log;
use reasons::Reason;
use records::{Cells, Rule};
use request::Request;

// The records before the kept changes, the kept changes, the records after them, the last draft number issued, and the rule that the desk was opened under.
#[derive(Drop)]
pub struct Desk {
    pub base: [u32; 1858],
    pub log: [u8; 418],
    pub current: [u32; 1858],
    pub last: u32,
    pub rule: Rule,
}

impl Desk {
    // Without records and kept changes, no number issued, under rule 1.
    pub fn empty() -> Desk
        ensures { (shown result.base result.log result.current result.last ≡ opened empty_house 0) × (result.rule ≡ Rule.One) }
    {
        Desk {
            base: [0u32; 1858],
            log: [0u8; 418],
            current: [0u32; 1858],
            last: 0,
            rule: Rule::One,
        }
    }
}

// The three answers of a desk. Not a Result of an Option: that would name none of them; and `answer_byte` is said of any refusal number.
#[derive(Clone, Copy)]
pub enum Answer {
    Granted,
    Numbered(u32),
    Refused(u8),
}

// The first byte of an answer: all of it but a number's four.
pub fn answer_byte(answer: Answer) -> u8
    ensures { result ≡ answer_byte answer }
{
    match answer {
        Answer::Granted => 0x80,
        Answer::Numbered(_) => 0x81,
        Answer::Refused(n) => ((0xC0 + n as u16) % 256) as u8,
    }
}

// No rule has the number that a desk was to be opened under.
#[derive(Clone, Copy, PartialEq, Eq)]
pub struct NoRule;

impl NoRule {
    pub fn number(self) -> u8
        ensures { result ≡ no_rule_number }
    {
        3
    }
}

// Of a full log the oldest change goes into the base: it can't be taken back any more.
fn settle(base: &mut Cells, log: &Log)
    ensures { view base.new ≡ settled (view base.old) (past log.now) }
{
    if kept::kept_count(log) < 32 {
        return;
    }
    kept::redo(base, log, 0);
}

// A desk whose parts are lent one by one, as a caller in C lends them: no table is copied. Each call leaves the parts in their places.
#[derive(Drop)]
pub struct LentDesk<'a> {
    pub base: &'a mut Cells,
    pub log: &'a mut Log,
    pub current: &'a mut Cells,
    pub last: &'a mut u32,
    pub rule: Rule,
}

impl<'a> LentDesk<'a> {
    // Nothing is left of the desk that stood there.
    fn clear(&mut self)
        ensures { SamePlaces self.old self.new × (lent self.new ≡ opened empty_house 0) × (self.new.rule ≡ Rule.One) }
    {
        records::clear(self.base);
        kept::clear(self.log);
        records::clear(self.current);
        *self.last = 0;
        self.rule = Rule::One;
    }

    // The parts become a desk without records, with the last draft number already used, under rule 1 or 2.
    pub fn open(&mut self, last: u32, rule: u32) -> Result<(), NoRule>
        ensures places { SamePlaces self.old self.new }
        ensures done { opens result (lent self.new) self.new.rule ≡ opened_under last rule }
    {
        self.clear();
        self.rule = match rule {
            1 => Rule::One,
            2 => Rule::Two,
            _ => return Err(NoRule),
        };
        *self.last = last;
        Ok(())
    }

    // The change is made and kept.
    fn make(&mut self, request: Request, number: u32)
        ensures parts { SameParts self.old self.new }
        ensures done { (rule : Rule) → lent self.new ≡ keep_change (desk_rules rule) (lent self.old) (change_of request number) self.old.last.now }
    {
        effects::apply(self.current, request, number);
        settle(self.base, self.log);
        kept::push(self.log, Change { request, number });
    }

    // The counter is stepped only where a number is left, and it never goes back.
    fn make_numbered(&mut self, request: Request) -> Answer
        ensures parts { SameParts self.old self.new }
        ensures done { (rule : Rule) → outcome (lent self.new) result ≡ issued (desk_rules rule) (lent self.old) (change_of request) (next_after self.old.last.now) }
    {
        let issued = counter::issue_from(*self.last);
        let Some(number) = issued.next else {
            return Answer::Refused(11);
        };
        *self.last = issued.last;
        self.make(request, number);
        Answer::Numbered(number)
    }

    fn take_back(&mut self) -> Answer
        ensures parts { SameParts self.old self.new }
        ensures done { (rule : Rule) → outcome (lent self.new) result ≡ take_back (desk_rules rule) (lent self.old) }
    {
        if kept::kept_count(self.log) == 0 {
            return Answer::Refused(12);
        }
        kept::pop(self.log);
        kept::replay(self.base, self.log, self.current);
        Answer::Granted
    }

    // A request that is judged already: refused, passed, made and kept, or taken back, which is the same by either rule. Only a take-back copies records.
    pub fn act(&mut self, request: Request, ruling: Result<Grant, Reason>) -> Answer
        ensures parts { SameParts self.old self.new }
        ensures done { (rule : Rule) → outcome (lent self.new) result ≡ ruled (desk_rules rule) (lent self.old) (verdict_of request ruling) }
    {
        match ruling {
            Err(reason) => Answer::Refused(reason.number),
            Ok(Grant::Pass) => Answer::Granted,
            Ok(Grant::Keep) => {
                self.make(request, 0);
                Answer::Granted
            }
            Ok(Grant::KeepNumbered) => self.make_numbered(request),
            Ok(Grant::TakeBack) => self.take_back(),
        }
    }

    // One request, by the desk's rule.
    #[tactic(auto, using(crate::proofs::Laws::taken_is))]
    pub fn take(&mut self, request: Request) -> Answer
        ensures parts { SameParts self.old self.new }
        ensures done { outcome (lent self.new) result ≡ step (desk_rules self.old.rule) (lent self.old) request }
    {
        let ruling = judge::judge(self.current, self.rule, request);
        self.act(request, ruling)
    }
}
