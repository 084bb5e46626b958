// The counter of draft numbers: lent to whoever issues a number, and stepped there. It never goes back.
#![tactic(auto)]

ghost use Rattle.std.specs.Prelude.{◌≡◌};
ghost use Rattle.counter.specs.Numbers.{next_after, last_after};

// The last number issued.
#[derive(Clone, Copy)]
pub struct Counter {
    pub last: u32,
}

impl Counter {
    // Hands out the number after the last and steps there, or none where the numbers are spent.
    pub fn issue(&mut self) -> Option<u32>
        ensures { (result ≡ next_after self.old.last) × (self.new.last ≡ last_after self.old.last) }
    {
        let next = self.last.checked_add(1);
        self.last = self.last.saturating_add(1);
        next
    }
}

// What a number handed out leaves: the number, or none where the numbers are spent, and the last one then.
#[derive(Clone, Copy, PartialEq, Eq)]
pub struct Issued {
    pub next: Option<u32>,
    pub last: u32,
}

// For a caller that holds the number itself: a counter is made of it and lent, and the number comes back. By value, so that a caller needs no reference.
pub fn issue_from(last: u32) -> Issued
    ensures { (result.next ≡ next_after last) × (result.last ≡ last_after last) }
{
    let mut counter = Counter { last };
    let next = counter.issue();
    Issued {
        next,
        last: counter.last,
    }
}
