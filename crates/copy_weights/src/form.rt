ghost use Rattle.std.specs.Prelude.{◌≡◌, IfOk};

use std::alloc::Global;
use std::marker::Model;
use std::sync::ArcSlice;
use wpds_base::OutOfMemory;

/// What a variable holds after runs.
#[derive(Clone, Copy, Debug, PartialEq, Eq)]
pub enum Form {
    /// No one value is known.
    Varying,
    /// The meet of a constant, if there is one, and the old values of the variables whose bits are set; with neither
    /// it is undefined.
    Meet { constant: Option<i64>, from: u64 },
}

/// A form for each variable, shared by all copies, so that a copy is one more count and no list.
#[derive(Debug, Drop)]
pub struct Forms {
    forms: ArcSlice<Form>,
}

impl Model for Forms {
    ghost use Rattle.std.specs.Prelude.{List};
    ghost use Rattle.std.specs.Arc.{arc_slice_items};
    ghost use Rattle.copy_weights.specs.declared.form.Form.{Form as FormValue};

    ghost Value = { List FormValue };

    ghost view = { λ f. arc_slice_items f.forms };
}

impl Forms {
    /// These forms, to be shared. It takes memory for the count alone.
    pub(crate) fn new(forms: Vec<Form>) -> Result<Forms, OutOfMemory>
        ensures { IfOk result (λ f. f ≡ forms.items) }
    {
        let forms = ArcSlice::from_vec(forms)?;
        Ok(Forms { forms })
    }

    /// The forms.
    pub fn as_slice(&self) -> &[Form]
        ensures { result.now ≡ self.now }
    {
        self.forms.as_slice()
    }

    /// The same forms, shared.
    pub(crate) fn share(&self) -> Result<Forms, OutOfMemory>
        ensures { IfOk result (λ f. f ≡ self.now) }
    {
        let forms = self.forms.clone()?;
        Ok(Forms { forms })
    }
}

/// What runs do to the variables.
#[derive(Debug, Drop)]
pub enum CopyW {
    /// No run.
    Zero,
    /// A form for each variable.
    Map { forms: Forms },
}

/// What a return map does to the variables.
#[derive(Clone, Copy, Debug, PartialEq, Eq)]
pub enum CopyMap {
    /// Nothing.
    Plain,
    /// The variables whose bits are set have the value from before the call.
    Restore { vars: u64 },
}
