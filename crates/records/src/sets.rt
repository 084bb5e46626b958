// Sets of rooms and places: place p is bit p of 32.
ghost use Rattle.std.specs.Prelude.{◌≡◌};
ghost use Rattle.records.specs.Places.{has, with, without};

#[tactic(auto, using(crate::proofs::Places::has_over), unfolding(crate::specs::Places::has))]
pub fn has(set: u32, place: u8) -> bool
    ensures { result ≡ has set place }
{
    if 31 < place {
        return false;
    }
    (set >> (place as u32)) % 2 == 1
}

#[tactic(auto, using(crate::proofs::Places::with_in, crate::proofs::Places::with_over, crate::proofs::Places::shifted))]
pub fn with(set: u32, place: u8) -> u32
    ensures { result ≡ with set place }
{
    if 31 < place {
        return set;
    }
    set | (1u32 << (place as u32))
}

#[tactic(auto, using(crate::proofs::Places::without_in, crate::proofs::Places::without_over, crate::proofs::Places::shifted))]
pub fn without(set: u32, place: u8) -> u32
    ensures { result ≡ without set place }
{
    if 31 < place {
        return set;
    }
    set - (set & (1u32 << (place as u32)))
}
