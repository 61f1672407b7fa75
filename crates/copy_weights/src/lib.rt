//! Copy constants as weights: what each variable holds after runs, by what the variables held before them.
#![tactic(auto)]

mod copy_const;
mod form;
mod laws;
mod lists;
mod making;
mod meets;

pub use copy_const::CopyConst;
pub use form::{CopyMap, CopyW, Form, Forms};
pub use laws::{forms_tell_values, weights_map_values};
