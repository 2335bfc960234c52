ghost use Rattle.std.specs.Prelude.{◌≡◌, ◌<◌, ℕ, length, map, slice_get, IfSome, option_map, option_and_then};
ghost use Rattle.std.specs.List.{All};
ghost use Rattle.expressions.specs.Context.{Agrees};
ghost use Rattle.expressions.specs.Numbers.{Numbering};
ghost use Rattle.c_machine.specs.Program.{Program};
ghost use Rattle.c_machine.specs.Trees.{kind_in};
ghost use Rattle.c_text.specs.Kept.{kept};
ghost use Rattle.c_text.specs.Stands.{StandsFor};

use crate::kinds::type_kind;
use crate::typed_text::TypedText;
use c_machine::Kind;

impl TypedText {
    /// How many parameters a function has that has the signature of that number (C11 6.7.6.3). It takes one step.
    pub(crate) fn signature_count(&self, signature: u32) -> usize
        requires { signature < length self.now.environment.signatures }
        ensures { (n : Numbering) (p : Program) → StandsFor n self.now p → result ≡ length (n.signature signature).parameters }
    {
        self.context.signature(signature).parameters.len()
    }

    /// What an access and an operator ask of the type of the parameter at an index, of a function that has the signature of that number.
    pub(crate) fn signature_kind(&self, signature: u32, index: usize) -> Option<Kind>
        requires { signature < length self.now.environment.signatures }
        ensures { (n : Numbering) (p : Program) → StandsFor n self.now p
            → result ≡ option_and_then (λ t. kept (kind_in p t)) (slice_get (map n.ctype (n.signature signature).parameters) index) }
    {
        match self.parameter(signature, index) {
            None => None,
            Some(ctype) => type_kind(self.context.types(), ctype),
        }
    }

    /// The same of the type of its result.
    pub fn result_kind(&self, signature: u32) -> Option<Kind>
        requires { signature < length self.now.environment.signatures }
        ensures { (n : Numbering) (p : Program) → StandsFor n self.now p → result ≡ kept (kind_in p (n.ctype (n.signature signature).result)) }
    {
        type_kind(self.context.types(), self.context.result_of(signature))
    }

    /// The number of the type of the parameter at an index.
    fn parameter(&self, signature: u32, index: usize) -> Option<u32>
        requires { signature < length self.now.environment.signatures }
        ensures is { (n : Numbering) → Agrees n self.now → option_map n.ctype result ≡ slice_get (map n.ctype (n.signature signature).parameters) index }
        ensures below { IfSome result (λ number. number < length self.now.types) }
    {
        number_at(
            self.context.signature(signature).parameters.as_slice(),
            index,
        )
    }
}

/// The number at a place of a list.
#[tactic(auto, using(crate::proofs::NamesStand::below_at))]
fn number_at(numbers: &[u32], place: usize) -> Option<u32>
    ensures is { result ≡ slice_get numbers.now place }
    ensures below { (count : ℕ) → All (λ number. number < count) numbers.now → IfSome result (λ number. number < count) }
{
    numbers.get(place).copied()
}
