ghost use Rattle.std.specs.Prelude.{◌≡◌, ℕ, Some, IfSome, IfNone};
ghost use Rattle.key_rows.specs.Rows.{index_where};
ghost use Rattle.pushdown_rules.specs.Rows.{goes_onto};
ghost use Rattle.forward_value_laws.specs.Model.{callee};
ghost use Rattle.forward_value_search.specs.Places.{number_of};

use pushdown_rules::System;
use semiring_laws::Semiring;

/// A callee: it begins in a control over a symbol, and this is the first rule that goes there.
#[derive(Clone, Copy, Debug, PartialEq, Eq)]
pub struct Callee {
    pub to: u32,
    pub top: u32,
    pub rule: u32,
}

/// The callee of a source's number, where a pattern of so many items has its sources before all callees.
pub fn callee_at<S: Semiring>(system: &System<S>, items: u32, number: u32) -> Option<Callee>
    ensures number { IfSome result (λ c.
        number_of items system.now (callee c.to c.top) ≡ Some number) }
    ensures rule { IfSome result (λ c.
        Some c.rule ≡ index_where (goes_onto c.to c.top) system.now.rules) }
    ensures none { IfNone result ((to g : ℕ) →
        number_of items system.now (callee to g) ≡ Some number → ⊥) }
{
    let _semiring = system.semiring();
    if number <= items {
        return None;
    }
    let rule = number - items - 1;
    if rule >= system.rules() {
        return None;
    }
    let onto = system.rule(rule);
    let [top, ..] = onto.right.as_slice() else {
        return None;
    };
    let (to, top) = (onto.to, *top);
    let Some(first) = system.first_onto(to, top) else {
        return None;
    };
    if first != rule {
        return None;
    }
    Some(Callee { to, top, rule })
}
