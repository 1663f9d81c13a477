// The choice of a beam: what it answers. Document 01, section The choice. The rules and what is claimed of them stand in specs/; the call
// stands in the crate `choice`.
#![tactic(auto)]

ghost use Rattle.choice_rules.specs.Claims.{RefusalRule, SearchOrderRule, NearPartRule, TriedIsPlace};
ghost use Rattle.choice_rules.specs.Claims.{NoBeamExactly, UnheardBytes, AnswersDiffer, AnswersTold};

// What is chosen: a channel to camp on or to read next, or no beam, each with the number of beams tried.
#[derive(Clone, Copy, PartialEq, Eq)]
pub enum Choice {
    Camp { channel: u16, tried: u32 },
    Read { channel: u16, tried: u32 },
    NoBeam { tried: u32 },
}

// Nothing to run: its contract is all that is claimed of the choice beyond the calls, so that the check asks for the proof of each.
pub fn claimed()
    ensures refusals { RefusalRule }
    ensures order { SearchOrderRule }
    ensures near { NearPartRule }
    ensures tried { TriedIsPlace }
    ensures nobeam { NoBeamExactly }
    ensures unheard { UnheardBytes }
    ensures differ { AnswersDiffer }
    ensures told { AnswersTold }
{}
