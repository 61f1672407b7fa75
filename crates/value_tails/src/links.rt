ghost use Rattle.std.specs.Prelude.{◌≡◌, ◌<◌, ℕ, length, OnOk, Some, slice_get};
ghost use Rattle.pushdown_rules.specs.declared.rule.Rule.{Rule as RuleValue};
ghost use Rattle.weighted_automata.specs.declared.place.Label.TheVariants.{Symbol};
ghost use Rattle.weight_tables.specs.Entries.{TableEntry};
ghost use Rattle.walk_pairs.specs.Answering.{IsWalkedOver};
ghost use Rattle.forward_value_search.specs.Places.{arrow};
ghost use Rattle.forward_value_search.specs.Search.{StandsAt, IsFinished};
ghost use Rattle.value_tails.specs.private.Steps.{AreLinksLowered, IsLinked, IsLinkedUp, IsRowLinked};

use config_patterns::Pattern;
use semiring_laws::Semiring;
use weight_tables::{Layer, Tables, Weigher};
use weighted_automata::{Label, Place};
use wpds_base::OutOfMemory;

// A push rule from what stands at a row: what lies below its source is linked to the rule's callee.
fn link_rule<'s, S: Semiring, M: Weigher<S>>(
    tables: &mut Tables<'s, S, M>,
    first: &Pattern,
    t: u32,
    row: Place,
    k: u32,
) -> Result<(), OutOfMemory>
    requires rule { k < length tables.old.system.rules }
    requires entry { StandsAt t row tables.old.base }
    requires head { (r : RuleValue S S.W S.Ret) → slice_get tables.old.system.rules k ≡ Some r →
        row ≡ arrow r.control (Symbol r.symbol) row.to }
    requires finished { IsFinished S.operations tables.old.system first.now tables.old }
    ensures lowered { let s = S.operations tables.old.system.semiring in
        OnOk result (AreLinksLowered s first.now tables.old tables.new) }
    ensures met { let s = S.operations tables.old.system.semiring in OnOk result
        ((r : RuleValue S S.W S.Ret) → slice_get tables.old.system.rules k ≡ Some r →
        IsLinked s first.now tables.old tables.new.walk k r row.to) }
{
    tables.valid();
    let system = tables.system();
    let rule = system.rule(k);
    match rule.right.as_slice() {
        [top, _below] => {
            let Some(number) = system.first_onto(rule.to, *top) else {
                return Ok(());
            };
            let link = Place {
                from: row.to,
                label: Label::Empty,
                to: first.items() + 1 + number,
            };
            tables.hold_then_rule(Layer::Base, t, k)?;
            tables.lower(Layer::Walk, link)?;
            Ok(())
        }
        _ => Ok(()),
    }
}

// The same by each push rule that fires on the row.
fn link_row<'s, S: Semiring, M: Weigher<S>>(
    tables: &mut Tables<'s, S, M>,
    first: &Pattern,
    t: u32,
    row: Place,
    symbol: u32,
) -> Result<(), OutOfMemory>
    requires entry { StandsAt t row tables.old.base }
    requires label { row.label ≡ Symbol symbol }
    requires finished { IsFinished S.operations tables.old.system first.now tables.old }
    ensures lowered { let s = S.operations tables.old.system.semiring in
        OnOk result (AreLinksLowered s first.now tables.old tables.new) }
    ensures met { let s = S.operations tables.old.system.semiring in
        OnOk result (IsRowLinked s first.now tables.old tables.new.walk row) }
{
    tables.valid();
    let system = tables.system();
    let mut at = system.first_with_head(row.from, symbol);
    'rules: while let Some(k) = at {
        link_rule(tables, first, t, row, k)?;
        at = system.next_with_head(k);
    }
    Ok(())
}

// The same for an entry, where it reads a symbol.
fn link_entry<'s, S: Semiring, M: Weigher<S>>(
    tables: &mut Tables<'s, S, M>,
    first: &Pattern,
    t: u32,
) -> Result<(), OutOfMemory>
    requires entry { t < length tables.old.base }
    requires finished { IsFinished S.operations tables.old.system first.now tables.old }
    ensures lowered { let s = S.operations tables.old.system.semiring in
        OnOk result (AreLinksLowered s first.now tables.old tables.new) }
    ensures met { let s = S.operations tables.old.system.semiring in OnOk result
        ((e : TableEntry S.W) → slice_get tables.old.base t ≡ Some e →
        IsRowLinked s first.now tables.old tables.new.walk e.place) }
{
    tables.valid();
    let row = tables.place(Layer::Base, t);
    match row.label {
        Label::Symbol(symbol) => {
            link_row(tables, first, t, row, symbol)?;
            Ok(())
        }
        Label::Empty => Ok(()),
    }
}

/// Makes all links, in place of what the layer of the walk had: one pass over what the search found.
pub(crate) fn link_all<'s, S: Semiring, M: Weigher<S>>(
    tables: &mut Tables<'s, S, M>,
    first: &Pattern,
) -> Result<(), OutOfMemory>
    requires { IsFinished S.operations tables.old.system first.now tables.old }
    ensures linked { let s = S.operations tables.old.system.semiring in
        OnOk result (IsLinkedUp s first.now tables.new) }
    ensures others { OnOk result (IsWalkedOver tables.old tables.new) }
{
    tables.valid();
    tables.renew(Layer::Walk);
    for t in 0..tables.len(Layer::Base) {
        link_entry(tables, first, t)?;
    }
    Ok(())
}
