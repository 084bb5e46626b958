// The image of a desk: its records, last number and rule as bytes, written into a lent buffer.
#![tactic(auto)]

mod kinds;
mod laying;

ghost use Rattle.std.specs.Prelude.{◌≡◌};
ghost use Rattle.records.specs.House.{view};
ghost use Rattle.image.specs.Image.{image_of};
ghost use Rattle.image.specs.Saving.{too_small_number, saved_answer, saved_buffer};

use laying::lay;
use records::{Cells, Rule};

// The buffer has no room for the image, and is as it was.
#[derive(Clone, Copy, PartialEq, Eq)]
pub struct TooSmall;

impl TooSmall {
    pub fn number(self) -> u8
        ensures { result ≡ too_small_number }
    {
        14
    }
}

// How many bytes the image has, which now stand at the start of the buffer. It is laid aside first, where any has room, and then copied where it fits.
pub fn save(records: &Cells, last: u32, rule: Rule, out: &mut [u8]) -> Result<usize, TooSmall>
    ensures { (result ≡ saved_answer (image_of (view records.now) last rule) out.old) × (out.new ≡ saved_buffer (image_of (view records.now) last rule) out.old) }
{
    let mut aside = [0u8; 4454];
    let n = lay(records, last, rule, &mut aside);
    if out.len() < n {
        return Err(TooSmall);
    }
    out[..n].copy_from_slice(&aside[..n]);
    Ok(n)
}
