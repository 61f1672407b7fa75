ghost use Rattle.std.specs.Prelude.{ℕ, List};
ghost use Rattle.wpds_port.specs.declared.refusal.Refusal.{Refusal};
ghost use Rattle.wpds_app.specs.declared.input.Input.{Input as InputValue};
ghost use Rattle.wpds_app.specs.Running.{Means, IsRefused};

use document_forms::one_document_or_one_refusal;
use program_laws::programs_are_refused_by_lines;

/// No input is accepted and refused.
pub fn no_input_is_accepted_and_refused()
    ensures { (input : List ℕ) (meaning : InputValue) (r : Refusal)
        → Means input meaning → IsRefused input r → ⊥ }
{
    one_document_or_one_refusal();
    programs_are_refused_by_lines();
}
