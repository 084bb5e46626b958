// Conditions of scripts and drafts.
ghost use Rattle.std.specs.Prelude.{◌≡◌, [], ◌∷◌};
ghost use Rattle.records.specs.House.{view, draft_at};
ghost use Rattle.records.specs.Places.{only};
ghost use Rattle.reasons.specs.Reasons.{a_draft};
ghost use Rattle.reasons.specs.Asking.{◌unless◌, ◌because◌, asked};
ghost use Rattle.reasons.specs.Lines.{script_exists, draft_exists, script_new, draft_among, draft_not_among, origin_is};
ghost use Rattle.reasons.specs.Shared.{imports};
ghost use Rattle.reasons.specs.Reach.{reached_by};

use crate::{Kind, Reason, exists, is_new, labels, missing, of, only};
use records::{Cells, Rule};

pub fn script_exists(records: &Cells, script: u8) -> Result<(), Reason>
    ensures { result ≡ asked (script_exists (view records.now) script ∷ []) }
{
    exists(records::find_script(records, script), script)
}

// The draft is searched once: later lines ask of the place where it was found.
#[tactic(auto, using(crate::proofs::Lookups::found, crate::proofs::Lookups::nothing))]
pub fn draft_exists(records: &Cells, script: u8, number: u32) -> Result<usize, Reason>
    ensures { result ≡ reached_by (view records.now) script number (asked (draft_exists (view records.now) script number ∷ [])) }
{
    let Some(at) = records::find_draft(records, script, number) else {
        return Err(missing(number));
    };
    Ok(at)
}

pub fn script_new(records: &Cells, script: u8) -> Result<(), Reason>
    ensures { result ≡ asked (script_new (view records.now) script ∷ []) }
{
    is_new(
        Kind::Script,
        records::find_script(records, script).is_some(),
        script,
    )
}

// Of the draft in place d, whose number is the one asked for: of its places, this one is told.
fn of_places(records: &Cells, fact: bool, number: u32, d: usize, place: u8) -> Result<(), Reason>
    ensures { result ≡ asked (8 unless fact because a_draft number (draft_at (view records.now) d).places (only place) ∷ []) }
{
    let draft = records::draft_at(records, d);
    of(Kind::Draft, 8, fact, number, draft.places, only(place))
}

pub fn among(records: &Cells, number: u32, d: usize, place: u8) -> Result<(), Reason>
    ensures { result ≡ asked (draft_among number (draft_at (view records.now) d) place ∷ []) }
{
    of_places(
        records,
        conditions::is_at(records, d, place),
        number,
        d,
        place,
    )
}

pub fn not_among(records: &Cells, number: u32, d: usize, place: u8) -> Result<(), Reason>
    ensures { result ≡ asked (draft_not_among number (draft_at (view records.now) d) place ∷ []) }
{
    of_places(
        records,
        !conditions::is_at(records, d, place),
        number,
        d,
        place,
    )
}

pub fn of_origin(records: &Cells, script: u8, place: u8) -> Result<(), Reason>
    ensures { result ≡ asked (origin_is (view records.now) script place ∷ []) }
{
    let i = usize::from(script);
    let found = records::script_at(records, i);
    let fact = conditions::of_origin(records, i, place);
    of(
        Kind::Script,
        8,
        fact,
        u32::from(script),
        u32::from(found.origin),
        u32::from(place),
    )
}

// Of Import: the label of script 2 is that of script 1, or dominates it but for the place, by the rule.
#[tactic(auto, unfolding(crate::specs::Shared::imports))]
pub fn imports(records: &Cells, rule: Rule, script1: u8, script2: u8) -> Result<(), Reason>
    ensures { result ≡ asked (imports rule (view records.now) script1 script2) }
{
    let parts = conditions::importing(records, rule, usize::from(script2), usize::from(script1));
    let from = records::script_at(records, usize::from(script1));
    let to = records::script_at(records, usize::from(script2));
    labels(
        parts,
        Kind::Script,
        script2,
        to.level,
        to.categories,
        from.level,
        from.categories,
    )
}
