// A walk from block to block (added): a place in a file, moved by value. The file is handed to every step.
#![tactic(auto)]

ghost use Rattle.std.specs.Prelude.{◌≡◌};
ghost use Rattle.walker.specs.Walker as rules;
ghost use Rattle.walker.specs.Calls as calls;

use blend::blend::{Boundary, boundary_at};
use block::Row;
use header::blend::header;
use octets::{Fault, Refusal};

/// A boundary, and whether the block before it is a DNA1.
#[derive(Clone, Copy, Debug, PartialEq, Eq)]
pub struct Place {
    pub at: usize,
    pub dna: bool,
}

/// What a step finds, and the place that it hands back: the next one after a block, otherwise the same. No Result: each of the three hands back a place, the refusal
/// too, which a `?` would lose.
#[derive(Clone, Copy, Debug, PartialEq, Eq)]
pub enum Step {
    Block(Row, Place),
    // The offset after the end mark.
    End(usize, Place),
    // Why it is refused, and where.
    Refused(Fault, Place),
}

impl Place {
    /// Where a walk starts.
    pub fn start() -> Self
        ensures { calls.«Place::start» result }
    {
        Place { at: 0, dna: false }
    }

    // The boundary that a place stands for, in a file whose first is this.
    fn stands_for(self, first: usize) -> Self
        ensures { result ≡ rules.stands_for first self }
    {
        if first < self.at {
            self
        } else {
            Place {
                at: first,
                dna: false,
            }
        }
    }

    /// One step from a place: the block there, the end, or the refusal.
    pub fn step(self, file: &[u8]) -> Step
        ensures { calls.«Place::step» self file.now result }
    {
        if file.len() < self.at {
            return Step::Refused(Fault::Refusal(Refusal::NotThere), self);
        }
        let answer = header(file);
        let Ok((h, first)) = answer else {
            return Step::Refused(answer.unwrap_err(), self);
        };
        let from = self.stands_for(first);
        match boundary_at(file, h, from.at) {
            Ok(Boundary::Block(row, last, next)) => Step::Block(
                row,
                Place {
                    at: next,
                    dna: last.is_some(),
                },
            ),
            Ok(Boundary::EndMark) => if from.dna {
                Step::End(from.at + 4, self)
            } else {
                Step::Refused(Fault::Refusal(Refusal::NoDnaBlockFound), self)
            },
            Err(f) => Step::Refused(f, self),
        }
    }
}
