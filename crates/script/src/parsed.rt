ghost use Rattle.std.specs.Prelude.{◌≡◌, length, IfOk, IfErr};
ghost use Rattle.tokens.specs.Tokens.{tokens, place_of};
ghost use Rattle.tokens.specs.Places.{Nowhere};
ghost use Rattle.passes.specs.Ranges.{IsOutOfRange};
ghost use Rattle.passes.specs.Names.{Misnamed as IsMisnamed};
ghost use Rattle.passes.specs.Limits.{IsOverLimit};
ghost use Rattle.passes.specs.Messages.{NoMessage};
ghost use Rattle.script.specs.declared.fault.FormFault.TheVariants.{OutOfRange};
ghost use Rattle.script.specs.declared.fault.NamesFault.TheVariants.{Misnamed, OverLimit};
ghost use Rattle.script.specs.Checks.{Answers};
ghost use Rattle.script.specs.Refusals.{IsInScript};
ghost use Rattle.script.specs.Stages.{Unformed, Formed, KeptBelow, FaultAt, Stage, LiteralStage};
ghost use Rattle.tokens.proofs.Props.{Tokenised-prop};
ghost use Rattle.grammar.proofs.Props.{Uses-prop};

use crate::checked::Checked;
use crate::fault::{Fault, FormFault, MessageFault, NamesFault};
use grammar::form::parse;
use grammar::part::Part;
use message::kind::Message;
use passes::limits::first_over_limit;
use passes::literals::first_refused_literal;
use passes::names::first_misnamed;
use passes::ranges::first_out_of_range;
use rows::row::Rows;
use std::alloc::Global;

// A text in the form of a script, by its parts.
#[derive(Drop)]
pub struct Parsed<'a> {
    text: &'a [u8],
    parts: Vec<Part<'a>>,
    ghost formed: { Formed text.now parts.items } by { Prim.hlevel (Tokenised-prop, Uses-prop) },
}

impl<'a> Parsed<'a> {
    pub fn new(heap: Global, text: &'a [u8]) -> Result<Parsed<'a>, Fault>
        ensures text { IfOk result (λ p. p.text.now ≡ text.now) }
        ensures fault { IfErr result (Unformed text.now) }
    {
        let parts = parse(heap, text)?;
        Ok(Parsed { text, parts })
    }

    // The place of a part, or the text's length past the last.
    fn place(&self, part: usize) -> usize
        ensures { result ≡ place_of (tokens self.now.text.now) (length self.now.text.now) part }
    {
        self.parts
            .get(part)
            .map_or(self.text.len(), |part| part.token.place())
    }

    // No fault where no part was found, and else the one that its place makes.
    fn refuse<E, F: FnOnce(usize) -> E>(&self, found: Option<usize>, fault: F) -> Result<(), E>
        requires { F.IsAlwaysCallable fault }
        ensures { FaultAt (F.post fault) self.now.text.now found result }
    {
        match found {
            Some(part) => Err(fault(self.place(part))),
            None => Ok(()),
        }
    }

    fn check_ranges(&self) -> Result<(), FormFault>
        ensures { Stage OutOfRange (IsInScript IsOutOfRange self.now.text.now) result }
    {
        self.refuse(
            first_out_of_range(&self.parts),
            |at| FormFault::OutOfRange { at },
        )
    }

    fn check_names(&self) -> Result<(), NamesFault>
        ensures { Nowhere (IsInScript IsOutOfRange self.now.text.now) → Stage Misnamed (IsInScript IsMisnamed self.now.text.now) result }
    {
        self.refuse(
            first_misnamed(&self.parts),
            |at| NamesFault::Misnamed { at },
        )
    }

    fn check_limits(&self) -> Result<(), NamesFault>
        ensures { Stage OverLimit (IsInScript IsOverLimit self.now.text.now) result }
    {
        self.refuse(
            first_over_limit(&self.parts),
            |at| NamesFault::OverLimit { at },
        )
    }

    // Its fault carries the literal's own beside the place, so it is none that `refuse` makes.
    fn check_literals<M: Message>(&self) -> Result<(), MessageFault>
        ensures { LiteralStage M.Literal.literal self.now.text.now (IsInScript (NoMessage M.Literal.literal) self.now.text.now) result }
    {
        match first_refused_literal::<M>(&self.parts) {
            Some(refused) => Err(MessageFault::InScript {
                at: self.place(refused.token),
                fault: refused.fault,
            }),
            None => Ok(()),
        }
    }

    // Tries the rules that are beyond the form, and makes the rows where all are kept. The parts are
    // done with before the text is copied.
    pub fn admit<M: Message>(self, heap: Global) -> Result<Checked<M>, Fault>
        ensures { KeptBelow M.Literal.literal self.entry.text.now 4 → Answers M.Literal.literal self.entry.text.now result }
    {
        self.check_ranges()?;
        self.check_names()?;
        self.check_limits()?;
        self.check_literals::<M>()?;
        let rows = Rows::build(heap, &self.parts)?;
        drop(self.parts);
        let text = Vec::from_slice(heap, self.text)?;
        Ok(Checked { text, rows })
    }
}
