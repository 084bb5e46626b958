// Opening an image: what the reader took in is held to the record rules, written again and compared with the image.
#![tactic(auto)]

ghost use Rattle.std.specs.Prelude.{◌≡◌};
ghost use Rattle.records.specs.House.{view};
ghost use Rattle.reader.specs.Reading.{saved};
ghost use Rattle.image.specs.Image.{image_of};
ghost use Rattle.history.specs.Lent.{lent, SamePlaces};
ghost use Rattle.opening.specs.Opening.{error_number, of_frame, opens, settled, same_bytes, opened_by};
ghost use Rattle.opening.specs.Desks.{opens_desk, desk_by};

use history::LentDesk;
use records::{Cells, Rule};
use request::FrameError;

// Why an image is refused: no bytes, or an end inside a body; or not an image.
#[derive(Clone, Copy, PartialEq, Eq)]
pub enum OpenError {
    Cut,
    NoImage,
}

impl OpenError {
    pub fn number(self) -> u8
        ensures { result ≡ error_number self }
    {
        match self {
            OpenError::Cut => 14,
            OpenError::NoImage => 15,
        }
    }
}

impl From<FrameError> for OpenError {
    ghost from_gives = { λ error result. result ≡ of_frame error };

    fn from(error: FrameError) -> OpenError {
        match error {
            FrameError::Unknown => OpenError::NoImage,
            FrameError::Cut => OpenError::Cut,
        }
    }
}

// A function of its own, so that a wrong comparison fails for what it answers.
#[tactic(auto, using(crate::proofs::Alike::same_is_equal))]
fn same(a: &[u8], b: &[u8]) -> bool
    ensures { result ≡ same_bytes a.now b.now }
{
    a == b
}

// Whether these bytes are the image of the records, the last number and the rule: it is written again and compared. Any image fits.
#[tactic(auto, using(image::proofs::Ways::never_refused, crate::proofs::Alike::saved_compared))]
fn is_image(records: &Cells, last: u32, rule: Rule, bytes: &[u8]) -> bool
    ensures { result ≡ same_bytes (image_of (view records.now) last rule) bytes.now }
{
    let mut again = [0u8; 4454];
    let Ok(n) = image::save(records, last, rule, &mut again) else {
        return false;
    };
    same(&again[..n], bytes)
}

// The records, the last number and the rule that the image holds; where it is refused, what the reader took in.
fn take_image(
    image: &[u8],
    records: &mut Cells,
    last: &mut u32,
    rule: &mut Rule,
) -> Result<(), OpenError>
    ensures { settled result (saved (view records.new) last.new rule.new) ≡ opened_by image.now }
{
    if image.is_empty() {
        return Err(OpenError::Cut);
    }
    reader::take_all(image, records, last, rule)?;
    if !rules::keeps(records, *last) || !is_image(records, *last, *rule, image) {
        return Err(OpenError::NoImage);
    }
    Ok(())
}

// The records, the last number and the rule that the image holds; or none, 0 and rule 1.
pub fn open(
    image: &[u8],
    records: &mut Cells,
    last: &mut u32,
    rule: &mut Rule,
) -> Result<(), OpenError>
    ensures { opens result (saved (view records.new) last.new rule.new) ≡ opened_by image.now }
{
    let answer = take_image(image, records, last, rule);
    if answer.is_err() {
        records::clear(records);
        *last = 0;
        *rule = Rule::One;
    }
    answer
}

// The parts become a desk with the records, the last number and the rule that the image holds. No change is kept: what was done before can't be taken back.
pub fn open_desk(image: &[u8], desk: &mut LentDesk) -> Result<(), OpenError>
    ensures places { SamePlaces desk.old desk.new }
    ensures done { opens_desk result (lent desk.new) desk.new.rule ≡ desk_by image.now }
{
    let answer = open(image, desk.current, desk.last, &mut desk.rule);
    *desk.base = *desk.current;
    kept::clear(desk.log);
    answer
}
