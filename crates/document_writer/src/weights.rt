//! Weights and return maps are written with the names of facts or variables.

ghost use Rattle.std.specs.Prelude.{◌≡◌, ◌++◌, OnOk};
ghost use Rattle.document_forms.specs.Writing.{weight_texts};
ghost use Rattle.document_writer.specs.private.Rows.{behind_blanks};

mod actions;
mod facts;
mod forms;
pub(crate) mod maps;

use crate::numbers::push_number;
use crate::rows::push;
use crate::weights::actions::push_actions;
use crate::weights::facts::push_signs;
use crate::weights::forms::push_pairs;
use document_forms::WeightText;
use wpds_base::OutOfMemory;
use wpds_port::Text;

/// Adds a weight behind its `:`, or nothing for `one`.
pub(crate) fn push_weight(
    out: &mut Vec<u8>,
    names: &[Text],
    weight: &WeightText,
) -> Result<(), OutOfMemory>
    ensures { OnOk result (
        out.new.items ≡ out.old.items ++ behind_blanks (weight_texts names.now weight.now)) }
{
    match weight {
        WeightText::One => Ok(()),
        WeightText::Zero => push(out, b" : none"),
        WeightText::Number(number) => {
            push(out, b" : ")?;
            push_number(out, *number)
        }
        WeightText::Facts(signs) => {
            push(out, b" :")?;
            push_signs(out, names, signs.as_slice())
        }
        WeightText::Forms(pairs) => {
            push(out, b" :")?;
            push_pairs(out, names, pairs.as_slice())
        }
        WeightText::Actions(actions) => {
            push(out, b" : ")?;
            push_actions(out, names, actions.as_slice())
        }
    }
}
