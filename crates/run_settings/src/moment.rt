//! The settings of one moment of a run.

ghost use Rattle.std.specs.Prelude.{◌≡◌};
ghost use Rattle.run_settings.specs.private.Moments.{newest_of};

use diagram_ops::Bits;
use std::marker::Model;

/// The setting with which the whole run starts, those at the open calls and the present one.
#[derive(Drop)]
pub(crate) struct Moment {
    pub(crate) start: Bits,
    // the newest last
    pub(crate) saved: Vec<Bits>,
    pub(crate) present: Bits,
}

impl Model for Moment {
    ghost use Rattle.std.specs.Prelude.{reverse};
    ghost use Rattle.run_settings.specs.private.Moments.{Moment as MomentValue};

    ghost Value = { MomentValue };

    ghost view = { λ m. record {
      start = m.start;
      saved = reverse m.saved.items;
      present = m.present;
    } };
}

impl Moment {
    /// The setting at the newest open call, or else at the start.
    pub(crate) fn newest(&self) -> &[bool]
        ensures { result.now ≡ newest_of self.now.start self.now.saved }
    {
        match self.saved.last() {
            None => self.start.as_slice(),
            Some(setting) => setting.as_slice(),
        }
    }
}
