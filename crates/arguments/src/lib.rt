// The words behind the program's name, taken one at a time.
#![tactic(auto)]

mod numbers;

ghost use Rattle.std.specs.Prelude.{◌≡◌};
ghost use Rattle.arguments.specs.Arguments.{none, named, asks, place, take_word, wrong, last_number, rule_number};

use numbers::number_of;

// What the next word is: an argument, or the value of the one before it.
#[derive(Clone, Copy, PartialEq, Eq, Default)]
pub enum Next {
    #[default]
    Argument,
    Last,
    Rule,
    From,
    Save,
}

// Whether a word was wrong; and what was asked for. Of a file the place of its name among the words is kept, and none where there is none.
#[derive(Clone, Copy, Default)]
pub struct Arguments {
    pub usage: bool,
    pub next: Next,
    pub why: bool,
    pub last: Option<u32>,
    pub rule: Option<u32>,
    pub from: Option<usize>,
    pub save: Option<usize>,
}

// The arguments by name.
#[derive(Clone, Copy)]
enum Word {
    Why,
    Last,
    Rule,
    From,
    Save,
}

#[tactic(auto, using(crate::proofs::Words::six_bytes))]
fn named(word: &[u8]) -> Option<Word>
    ensures { result ≡ named word.now }
{
    match word {
        b"--why" => Some(Word::Why),
        b"--last" => Some(Word::Last),
        b"--rule" => Some(Word::Rule),
        b"--from" => Some(Word::From),
        b"--save" => Some(Word::Save),
        _ => None,
    }
}

// The words are counted from 1, so that at place 0 there is no name.
fn place(at: usize) -> Option<usize>
    ensures { result ≡ place at }
{
    (at != 0).then_some(at)
}

impl Arguments {
    // Before the first word.
    pub fn none() -> Arguments
        ensures { result ≡ none }
    {
        Arguments::default()
    }

    // A word that is no value: an argument that was asked for before is wrong, and so is a word that is none.
    fn ask(self, word: Option<Word>) -> Arguments
        ensures { result ≡ asks self word }
    {
        match word {
            Some(Word::Why) => Arguments {
                usage: self.usage || self.why,
                why: true,
                ..self
            },
            Some(Word::Last) => Arguments {
                usage: self.usage || self.last.is_some(),
                next: Next::Last,
                ..self
            },
            Some(Word::Rule) => Arguments {
                usage: self.usage || self.rule.is_some(),
                next: Next::Rule,
                ..self
            },
            Some(Word::From) => Arguments {
                usage: self.usage || self.from.is_some(),
                next: Next::From,
                ..self
            },
            Some(Word::Save) => Arguments {
                usage: self.usage || self.save.is_some(),
                next: Next::Save,
                ..self
            },
            None => Arguments {
                usage: true,
                ..self
            },
        }
    }

    // One word more, which stands at place `at`: the first word behind the program's name at 1.
    pub fn take_word(self, at: usize, word: &[u8]) -> Arguments
        ensures { result ≡ take_word self at word.now }
    {
        match self.next {
            Next::Argument => self.ask(named(word)),
            Next::Last => {
                let last = number_of(word);
                Arguments {
                    usage: self.usage || last.is_none(),
                    next: Next::Argument,
                    last,
                    ..self
                }
            }
            Next::Rule => {
                let rule = number_of(word);
                Arguments {
                    usage: self.usage || rule.is_none(),
                    next: Next::Argument,
                    rule,
                    ..self
                }
            }
            Next::From => Arguments {
                next: Next::Argument,
                from: place(at),
                ..self
            },
            Next::Save => Arguments {
                next: Next::Argument,
                save: place(at),
                ..self
            },
        }
    }

    // After the last word: whether these were no arguments.
    pub fn is_wrong(self) -> bool
        ensures { result ≡ wrong self }
    {
        self.usage
            || self.next != Next::Argument
            || (self.last.is_some() || self.rule.is_some()) && self.from.is_some()
    }

    // The last number already used, with which the desk is opened.
    pub fn last_number(self) -> u32
        ensures { result ≡ last_number self }
    {
        self.last.unwrap_or(0)
    }

    // The number of the rule that a new desk is opened with, also one that no rule has.
    pub fn rule_number(self) -> u32
        ensures { result ≡ rule_number self }
    {
        self.rule.unwrap_or(1)
    }
}
