ghost use Rattle.std.specs.Prelude.{◌≡◌, ℕ, true, length, OnOk, Some, slice_get};
ghost use Rattle.key_rows.specs.Rows.{index_where};
ghost use Rattle.pushdown_rules.specs.Rows.{goes_onto};
ghost use Rattle.pushdown_rules.specs.declared.rule.Rule.{Rule as RuleValue};
ghost use Rattle.forward_value_laws.specs.Model.{callee as callee_of};
ghost use Rattle.forward_value_search.specs.Places.{number_of};
ghost use Rattle.forward_value_search.specs.Search.{StandsAt, IsFinished};
ghost use Rattle.walk_pairs.specs.Pairs.{pair_place as pair_value};
ghost use Rattle.walk_pairs.specs.declared.pairs.Stage.TheVariants.{Above};
ghost use Rattle.forward_value_walk.specs.private.Opening.{IsCallMet};
ghost use Rattle.forward_value_walk.specs.private.Going.{AreMade, IsGoneOn, AreCallsGiven};

use crate::opening::open_rule;
use config_patterns::Pattern;
use forward_value_search::{Callee, callee_at};
use semiring_laws::Semiring;
use weight_tables::{Tables, Weigher};
use wpds_base::OutOfMemory;

// The calls of a callee, by each rule that goes onto it.
fn open_onto<'s, S: Semiring, M: Weigher<S>>(
    tables: &mut Tables<'s, S, M>,
    first: &Pattern,
    wanted: &Pattern,
    callee: Callee,
    item: u32,
    source: u32,
    t: u32,
) -> Result<(), OutOfMemory>
    requires entry { StandsAt t (pair_value Above item source) tables.old.walk }
    requires finished { IsFinished S.operations tables.old.system first.now tables.old }
    requires made { let s = S.operations tables.old.system.semiring in
        AreMade s first.now wanted.now tables.old }
    requires number { number_of (length first.now.items) tables.old.system
        (callee_of callee.to callee.top) ≡ Some source }
    requires rule { Some callee.rule ≡
        index_where (goes_onto callee.to callee.top) tables.old.system.rules }
    ensures gone { let s = S.operations tables.old.system.semiring in
        OnOk result (IsGoneOn s first.now wanted.now tables.old tables.new) }
    ensures met { let s = S.operations tables.old.system.semiring in OnOk result
        ((k : ℕ) (r : RuleValue S S.W S.Ret) → slice_get tables.old.system.rules k ≡ Some r →
        goes_onto callee.to callee.top r ≡ true →
        IsCallMet s first.now wanted.now item source k tables.old tables.new.walk r) }
{
    tables.valid();
    let system = tables.system();
    let mut at = Some(callee.rule);
    'rules: while let Some(k) = at {
        open_rule(tables, first, wanted, item, source, t, k)?;
        at = system.next_onto(k);
    }
    Ok(())
}

/// All calls that stay open where an item reads what they left below, if the source is a callee.
pub(crate) fn open_calls<'s, S: Semiring, M: Weigher<S>>(
    tables: &mut Tables<'s, S, M>,
    first: &Pattern,
    wanted: &Pattern,
    item: u32,
    source: u32,
    t: u32,
) -> Result<(), OutOfMemory>
    requires entry { StandsAt t (pair_value Above item source) tables.old.walk }
    requires finished { IsFinished S.operations tables.old.system first.now tables.old }
    requires made { let s = S.operations tables.old.system.semiring in
        AreMade s first.now wanted.now tables.old }
    ensures { let s = S.operations tables.old.system.semiring in OnOk result
        (AreCallsGiven s first.now wanted.now item source tables.old tables.new) }
{
    tables.valid();
    let Some(callee) = callee_at(tables.system(), first.items(), source) else {
        return Ok(());
    };
    open_onto(tables, first, wanted, callee, item, source, t)?;
    Ok(())
}
