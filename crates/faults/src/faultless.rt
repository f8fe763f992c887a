// A source whose grammar has no fault.
ghost use Rattle.std.specs.Prelude.{◌≡◌, Some, None};
ghost use Rattle.std.specs.Result.{MatchResult};
ghost use Rattle.std.proofs.Props.{props};
ghost use Rattle.faults.specs.Faults.{first_fault};

use crate::first::first_fault;
use crate::refusal::Fault;
use grammar::Source;

// The grammar is within the limits, every number in it names something, and everything fits. Whoever knows that otherwise makes the
// struct without the check.
#[derive(Drop)]
pub struct Faultless<'a, S: Source> {
    pub source: &'a S,
    ghost faultless: { first_fault (S.meaning source.now) ≡ None } by { Prim.hlevel props },
}

impl<'a, S: Source> Faultless<'a, S> {
    // The source as such a one, or the first fault of its grammar.
    pub fn of(source: &'a S) -> Result<Faultless<'a, S>, Fault>
        ensures { MatchResult result (λ grammar. grammar.source.now ≡ source.now) (λ fault. first_fault (S.meaning source.now) ≡ Some fault) }
    {
        // A match, since the struct may be made only where there is no fault: `map_or(Ok(()), Err)?` before it says that less plainly.
        match first_fault(source) {
            None => Ok(Faultless { source }),
            Some(fault) => Err(fault),
        }
    }
}
