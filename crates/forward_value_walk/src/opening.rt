ghost use Rattle.std.specs.Prelude.{◌≡◌, ◌↔◌, ◌<◌, suc, IsTrue, ◌∷◌, [], ℕ, OnOk, Some, length, slice_get};
ghost use Rattle.pushdown_rules.specs.declared.rule.Rule.{Rule as RuleValue};
ghost use Rattle.forward_value_laws.specs.Model.{callee};
ghost use Rattle.weight_tables.specs.Entries.{TableEntry, weight_in};
ghost use Rattle.wpds_base.specs.Limits.{most_items};
ghost use Rattle.walk_pairs.specs.Ways.{TakesAt};
ghost use Rattle.walk_pairs.specs.Pairs.{pair_place as pair_value};
ghost use Rattle.walk_pairs.specs.declared.pairs.Stage.TheVariants.{Above};
ghost use Rattle.forward_value_walk.specs.Walking.{number, IsMade};
ghost use Rattle.forward_value_walk.specs.private.Opening.{AreRuleCallsGiven};

use config_patterns::Pattern;
use semiring_laws::Semiring;
use walk_pairs::{Order, Stage, fall_row};
use weight_tables::{Layer, Tables, Weigher};
use wpds_base::OutOfMemory;

// Whether the item of a number takes a symbol. A number that is no item takes none.
fn takes(wanted: &Pattern, item: u32, symbol: u32) -> bool
    ensures meaning { IsTrue result ↔ TakesAt wanted.now.items (suc item) symbol }
    ensures few { IsTrue result → item < most_items }
{
    item < wanted.items() && wanted.item(item).set.has(symbol)
}

/// A call by a rule that stays open: the item reads what it left below.
pub(crate) fn open_rule<'s, S: Semiring, M: Weigher<S>>(
    tables: &mut Tables<'s, S, M>,
    first: &Pattern,
    wanted: &Pattern,
    item: u32,
    source: u32,
    t: u32,
    k: u32,
) -> Result<(), OutOfMemory>
    requires rule { k < length tables.old.system.rules }
    requires entry { t < length tables.old.walk }
    requires place { (e : TableEntry S.W) → slice_get tables.old.walk t ≡ Some e →
        e.place ≡ pair_value Above item source }
    requires made { let p = tables.old.system in let s = S.operations p.semiring in
        let x = pair_value Above item source in
        IsMade s p first.now wanted.now x (weight_in s tables.old.walk x) }
    requires number { let p = tables.old.system in let s = S.operations p.semiring in
        (r : RuleValue S S.W S.Ret) → slice_get p.rules k ≡ Some r → (g h : ℕ) →
        r.right ≡ g ∷ h ∷ [] → number s p first.now wanted.now (callee r.to g) ≡ Some source }
    ensures { let s = S.operations tables.old.system.semiring in OnOk result
        (AreRuleCallsGiven s first.now wanted.now item source k tables.old tables.new) }
{
    tables.valid();
    let rule = tables.system().rule(k);
    match rule.right.as_slice() {
        [_top, below] => {
            if !takes(wanted, item, *below) {
                return Ok(());
            }
            tables.hold_rule_then(k, Layer::Walk, t)?;
            tables.valid();
            fall_row(
                tables,
                Order::After,
                Layer::Base,
                Stage::Down,
                rule.control,
                rule.symbol,
                item + 1,
            )?;
            Ok(())
        }
        _ => Ok(()),
    }
}
