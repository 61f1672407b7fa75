ghost use Rattle.std.specs.Prelude.{◌≡◌, ◌≤◌, Some, slice_get, IsTrue};
ghost use Rattle.pushdown_rules.specs.declared.rule.Rule.{Rule as RuleValue};
ghost use Rattle.poststar_laws.specs.Middles.{is_push, frame_of, middle_of};
ghost use Rattle.poststar.specs.private.Passes.{IsBase};

use pushdown_rules::System;
use semiring_laws::Semiring;

/// The number of the push rule of which a state is the middle, if it is one.
pub(crate) fn frame_of<S: Semiring>(system: &System<S>, base: u32, state: u32) -> Option<u32>
    ensures { result ≡ frame_of base system.now.rules state }
{
    if state < base {
        return None;
    }
    system.push_rule(state - base)
}

/// The middle state of a push rule.
pub(crate) fn middle_of<S: Semiring>(system: &System<S>, base: u32, k: u32) -> u32
    requires { IsBase base }
    ensures { (r : RuleValue S S.W S.Ret) → slice_get system.now.rules k ≡ Some r
        → IsTrue (is_push r) → result ≡ middle_of base system.now.rules k }
{
    // the rules are few
    let _count = system.rules();
    let Some(number) = system.push_number(k) else {
        return base;
    };
    base + number
}
