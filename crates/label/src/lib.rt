// Labels: what fails where one is to dominate another, the join of two, and a label as a 32-bit number.
#![tactic(auto)]

ghost use Rattle.std.specs.Prelude.{◌≡◌};
ghost use Rattle.label.specs.Labels.{nothing, dominates, covers, differs, join, pack, unpack};

// High is SysHigh and Low is SysLow. The fields can hold more than a good label does: dominance, join and packing take whatever they hold.
#[derive(Clone, Copy, PartialEq, Eq)]
pub enum Label {
    High,
    Low,
    At {
        place: u8,
        level: u8,
        categories: u16,
    },
}

// Parts of a label: those that fail where one label is to dominate another, or those in which two labels differ.
#[derive(Clone, Copy, PartialEq, Eq, Default)]
pub struct Parts {
    pub level: bool,
    pub categories: bool,
    pub place: bool,
}

// The numbers that C passes for the two ends.
const HIGH_NUMBER: u32 = 0xFF00_0000;

const LOW_NUMBER: u32 = 0xFE00_0000;

impl Parts {
    pub const NONE: Parts = Parts {
        level: false,
        categories: false,
        place: false,
    };

    pub const ALL: Parts = Parts {
        level: true,
        categories: true,
        place: true,
    };

    // A label dominates another exactly when nothing fails.
    pub fn nothing(self) -> bool
        ensures { result ≡ nothing self }
    {
        !(self.level | self.categories | self.place)
    }
}

impl Label {
    pub const SYS_HIGH: Label = Label::High;

    pub const SYS_LOW: Label = Label::Low;

    // The parts that fail.
    pub fn dominates(self, other: Label) -> Parts
        ensures { result ≡ dominates self other }
    {
        match (self, other) {
            (Label::High, _) | (_, Label::Low) => Parts::NONE,
            (Label::Low, _) | (_, Label::High) => Parts::ALL, // SysLow dominates itself alone
            (
                Label::At {
                    place,
                    level,
                    categories,
                },
                Label::At {
                    place: p,
                    level: l,
                    categories: c,
                },
            ) => Parts {
                level: level < l,
                categories: categories & c != c,
                place: place != p,
            },
        }
    }

    // The parts in which the two differ: those that fail one way or the other.
    pub fn differs(self, other: Label) -> Parts
        ensures { result ≡ differs self other }
    {
        let over = self.dominates(other);
        let under = other.dominates(self);
        Parts {
            level: over.level | under.level,
            categories: over.categories | under.categories,
            place: over.place | under.place,
        }
    }

    pub fn join(self, other: Label) -> Label
        ensures { result ≡ join self other }
    {
        match (self, other) {
            (Label::High, _) | (_, Label::High) => Label::SYS_HIGH,
            (Label::Low, _) => other,
            (_, Label::Low) => self,
            (
                Label::At {
                    place,
                    level,
                    categories,
                },
                Label::At {
                    place: p,
                    level: l,
                    categories: c,
                },
            ) => {
                if place != p {
                    return Label::SYS_HIGH; // only SysHigh dominates labels at two places
                }
                Label::At {
                    place,
                    level: level.max(l),
                    categories: categories | c,
                }
            }
        }
    }

    pub fn pack(self) -> u32
        ensures { result ≡ pack self }
    {
        match self {
            Label::High => HIGH_NUMBER,
            Label::Low => LOW_NUMBER,
            Label::At {
                place,
                level,
                categories,
            } => {
                let [c1, c2] = categories.to_be_bytes();
                u32::from_be_bytes([place, level, c1, c2])
            }
        }
    }

    // Not every number is a label's. The ends come first, because their place bytes are over 16.
    #[tactic(auto, unfolding(crate::specs::Labels::unpack))]
    pub fn unpack(number: u32) -> Option<Label>
        ensures { result ≡ unpack number }
    {
        if number == HIGH_NUMBER {
            return Some(Label::SYS_HIGH);
        }
        if number == LOW_NUMBER {
            return Some(Label::SYS_LOW);
        }
        let [place, level, c1, c2] = number.to_be_bytes();
        if 16 < place {
            return None;
        }
        if 7 < level {
            return None;
        }
        Some(Label::At {
            place,
            level,
            categories: u16::from_be_bytes([c1, c2]),
        })
    }
}

// A label covers another where it dominates it, places left out.
pub fn covers(level: u8, categories: u16, l: u8, c: u16) -> bool
    ensures { result ≡ covers level categories l c }
{
    let over = Label::At {
        place: 0,
        level,
        categories,
    };
    let under = Label::At {
        place: 0,
        level: l,
        categories: c,
    };
    over.dominates(under).nothing()
}
