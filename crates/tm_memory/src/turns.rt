//! A call that is made again and again, with more memory each time.

ghost use Rattle.std.specs.Prelude.{◌≡◌, ◌+◌, ◌<◌, if◌then◌else◌, false, None, Some, IfSome, MatchOption};
ghost use Rattle.tm_memory.specs.Turns.{has_passed, is_again, turned};
ghost use Rattle.tm_memory.specs.declared.turns.Answer.TheVariants.{Right, Refused, Wrong};

use crate::Held;
use std::marker::Model;
use std::rt::Files;

/// What a call gave, where there may be no memory.
#[derive(Clone, Copy, Debug, PartialEq, Eq)]
pub enum Answer {
    /// All that it gives where there is ample memory.
    Right,
    /// It says that memory ran out, and all is as it is to be then.
    Refused,
    /// The call couldn't be made: what it needs found no memory.
    NotMade,
    /// Anything else.
    Wrong,
}

impl Answer {
    /// The answer of a call that wasn't refused.
    pub fn right_if(holds: bool) -> Answer
        ensures { result ≡ if holds then Right else Wrong }
    {
        if holds { Answer::Right } else { Answer::Wrong }
    }

    /// The answer of a call that was refused.
    pub fn refused_if(holds: bool) -> Answer
        ensures { result ≡ if holds then Refused else Wrong }
    {
        if holds {
            Answer::Refused
        } else {
            Answer::Wrong
        }
    }
}

/// What is made by a call that is tried twice, for what a test needs beforehand: one request that is refused spoils no test.
pub fn try_twice<T, F: Fn() -> Option<T>>(make: F) -> Option<T>
    requires { F.IsAlwaysCallable make }
    ensures { MatchOption result (F.post make None) (λ value. F.post make (Some value)) }
{
    match make() {
        Some(value) => Some(value),
        None => make(),
    }
}

/// The turns of a call: with all memory held, and again with a block less as long as it is refused. Seen as the last answer, whether a
/// call was refused, and the number of blocks that are held.
#[derive(Drop)]
pub struct Turns {
    held: Held,
    refused: bool,
    last: Option<Answer>,
}

impl Model for Turns {
    ghost use Rattle.tm_memory.specs.Turns.{Course};

    ghost Value = { Course };

    ghost view = { λ t. record { last = t.last; refused = t.refused; blocks = t.held } };
}

impl Turns {
    /// Holds all memory, before the first turn. `None` where nothing can be held.
    pub fn new<R: Files + AllocGlobal>(rt: &R) -> Option<Turns>
        ensures none { IfSome result (λ turns. turns.last ≡ None) }
        ensures refused { IfSome result (λ turns. turns.refused ≡ false) }
        ensures blocks { IfSome result (λ turns. 0 < turns.blocks) }
    {
        match Held::new(rt) {
            Some(held) => Some(Turns {
                held,
                refused: false,
                last: None,
            }),
            None => None,
        }
    }

    /// How many turns there are at the most.
    pub fn most(&self) -> usize
        ensures { result ≡ self.now.blocks + 2 }
    {
        self.held.blocks() + 2
    }

    /// Takes the answer of a turn, gives a block back, and says whether another turn follows, if there is one.
    pub fn take(&mut self, answer: Answer) -> bool
        ensures turned { self.new ≡ turned self.old answer }
        ensures again { result ≡ is_again answer }
    {
        self.refused = self.refused || answer == Answer::Refused;
        self.last = Some(answer);
        self.held.give_back();
        matches!(answer, Answer::Refused | Answer::NotMade)
    }

    /// The last turn was right, and one before it was refused.
    pub fn has_passed(&self) -> bool
        ensures { result ≡ has_passed self.now }
    {
        self.refused && self.last == Some(Answer::Right)
    }
}
