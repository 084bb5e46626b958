// Why a request is answered as it is, on the present desk: the first condition that fails, with what decides it. Nothing is changed.
#![tactic(auto)]

ghost use Rattle.std.specs.Prelude.{◌≡◌};
ghost use Rattle.records.specs.House.{view};
ghost use Rattle.why.specs.Why.{reason_after, reason_of, reason_of_bytes};

use judge::Grant;
use reasons::Reason;
use records::{Cells, Rule};
use request::{FrameError, Request};

// Of a ruling: a refusal has its reason; where the judge grants, what is asked after it is left. Last is the last number issued, kept how many changes are kept.
#[tactic(auto, unfolding(reasons::specs::Asking::asked))]
pub fn of_ruling(ruling: Result<Grant, Reason>, last: u32, kept: u32) -> Reason
    ensures { result ≡ reason_after ruling last kept }
{
    match ruling {
        Err(reason) => reason,
        Ok(Grant::Pass) => reasons::bare(0),
        Ok(Grant::Keep) => reasons::bare(0),
        Ok(Grant::KeepNumbered) => reasons::told(reasons::number_left(last)),
        Ok(Grant::TakeBack) => reasons::told(reasons::change_left(kept)),
    }
}

// Of a request, on a desk under the rule.
#[tactic(auto, using(crate::proofs::Ruled::from_ruling))]
pub fn explain(records: &Cells, rule: Rule, last: u32, kept: u32, request: Request) -> Reason
    ensures { result ≡ reason_of rule (view records.now) last kept request }
{
    let ruling = judge::judge(records, rule, request);
    of_ruling(ruling, last, kept)
}

// Of bytes: the request that they begin with. What is behind it is not read.
pub fn explain_bytes(records: &Cells, rule: Rule, last: u32, kept: u32, bytes: &[u8]) -> Reason
    ensures { result ≡ reason_of_bytes rule (view records.now) last kept bytes.now }
{
    match request::read(bytes) {
        Err(FrameError::Unknown) => reasons::bare(1),
        Err(FrameError::Cut) => reasons::bare(2),
        Ok(request) => explain(records, rule, last, kept, request),
    }
}
