//! A program that is being assembled: its members with their words, and what its directives have said.

ghost use Rattle.std.specs.Prelude.{◌≡◌, ◌++◌, ◌∷◌, [], ◌<◌, ◌≤◌, length, MatchResult, Ok, Err};
ghost use Rattle.pio_asm.specs.Plan.{IsSound};
ghost use Rattle.pio_asm.specs.Code.{AreWordsOf};
ghost use Rattle.pio_asm.specs.Kept.{AreKept};
ghost use Rattle.pio_asm.specs.Verdict.{verdict_result};

use crate::plan::Member;
use crate::symbols::Symbols;
use crate::word::word_of_member;
use arrayvec::ArrayVec;
use pio_parse::PioFault;
use pio_words::SideConfig;
use std::alloc::AllocError;
use std::marker::Model;

/// The members of a program with their words, seen as the list of the members.
#[derive(Drop)]
pub(crate) struct Code {
    members: ArrayVec<Member, 32>,
    words: ArrayVec<u16, 32>,
}

impl Model for Code {
    ghost use Rattle.std.specs.Prelude.{List};
    ghost use Rattle.pio_asm.specs.declared.plan.Member.{Member};
    ghost use Rattle.pio_asm.specs.Kept.{AreWordsIfKept};

    ghost Value = { List Member };

    ghost view = { λ code. code.members.items };

    ghost invariant = { λ code. AreWordsIfKept code.members.items code.words.items };
}

impl Code {
    pub(crate) fn new() -> Code
        ensures { result ≡ [] }
    {
        Code {
            members: ArrayVec::new(),
            words: ArrayVec::new(),
        }
    }

    /// How many members there are.
    pub(crate) fn len(&self) -> usize
        ensures value { result ≡ length self.now }
        ensures small { result ≤ 32 }
    {
        self.members.len()
    }

    pub(crate) fn push(&mut self, member: Member)
        requires sound { IsSound member }
        requires room { length self.old < 32 }
        ensures { self.new ≡ self.old ++ member ∷ [] }
    {
        let word = word_of_member(&member);
        self.members.push(member);
        self.words.push(word);
    }

    /// The words, where no member uses a name whose definition has a fault.
    #[tactic(auto, using(crate::proofs::CodeLaws::words_kept))]
    pub(crate) fn into_words(self) -> ArrayVec<u16, 32>
        requires { AreKept self }
        ensures { AreWordsOf self result.items }
    {
        self.words
    }
}

/// A program that is being assembled.
#[derive(Drop)]
pub(crate) struct Building<'a> {
    /// The names that are defined so far.
    pub(crate) seen: Symbols<'a>,
    pub(crate) code: Code,
    pub(crate) side: Option<SideConfig>,
    pub(crate) origin: Option<u8>,
    pub(crate) target: Option<u8>,
    pub(crate) wrap: Option<u8>,
}

/// The faults of a line.
#[derive(Clone, Copy)]
pub(crate) struct Verdict {
    pub(crate) unknown: bool,
    pub(crate) twice: bool,
    pub(crate) range: bool,
    pub(crate) delay: bool,
    pub(crate) side: bool,
    pub(crate) too_long: bool,
    pub(crate) wrap: bool,
    pub(crate) origin: bool,
}

/// A line without a fault.
pub(crate) const NO_FAULT: Verdict = Verdict {
    unknown: false,
    twice: false,
    range: false,
    delay: false,
    side: false,
    too_long: false,
    wrap: false,
    origin: false,
};

/// The first fault of a line, by its number.
pub(crate) fn check(verdict: Verdict, line: u64) -> Result<(), PioFault>
    ensures { result ≡ verdict_result line verdict }
{
    if verdict.unknown {
        Err(PioFault::Unknown(line))
    } else if verdict.twice {
        Err(PioFault::Twice(line))
    } else if verdict.range {
        Err(PioFault::Range(line))
    } else if verdict.delay {
        Err(PioFault::Delay(line))
    } else if verdict.side {
        Err(PioFault::Side(line))
    } else if verdict.too_long {
        Err(PioFault::TooLong(line))
    } else if verdict.wrap {
        Err(PioFault::Wrap(line))
    } else if verdict.origin {
        Err(PioFault::Origin(line))
    } else {
        Ok(())
    }
}

/// Want of memory as a fault.
pub(crate) fn or_memory<T>(outcome: Result<T, AllocError>) -> Result<T, PioFault>
    ensures { MatchResult outcome (λ x. result ≡ Ok x) (λ _. result ≡ Err PioFault.Memory) }
{
    outcome.map_err(|_| PioFault::Memory)
}
