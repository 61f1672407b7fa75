//! What the rules of a program are made with: weights, maps, and symbols of points.

ghost use Rattle.std.specs.Prelude.{◌≡◌, ◌<◌, ℕ, map, IfOk};
ghost use Rattle.boolean_programs.specs.Lists.{place_in};
ghost use Rattle.boolean_programs.specs.Programs.{program_of};
ghost use Rattle.boolean_programs.specs.Structure.{IsRead};
ghost use Rattle.truth_tables.specs.Formulas.{formula, renamed};
ghost use Rattle.lowering_laws.specs.Lowering.{Assumes, Assigns, variables, symbol, symbol_points, slot_of, map_slot};
ghost use Rattle.lowering_laws.specs.Plans.{IsEffectOver, IsSlotOver};
ghost use Rattle.lowering_laws.specs.Weights.{slots_of, targets_of, values_of};
ghost use Rattle.boolean_lowering.specs.private.Layouts.{slot_in};
ghost use Rattle.boolean_lowering.specs.private.Ways.{condition_of};
ghost use Rattle.boolean_lowering.specs.private.Effects.{HasEffect};
ghost use Rattle.boolean_lowering.specs.private.Sources.{effect_by, IsShort};
ghost use Rattle.boolean_lowering.specs.private.Made.{IsMaking, program_in};

use crate::kept::KeptWeights;
use crate::layout::Layout;
use crate::names::{assigned, filled, renamed};
use crate::points::PointTable;
use crate::source::Source;
use crate::ways::Condition;
use boolean_programs::{Point, Program};
use lowering_laws::{actions_mean_effects, plans_are_within};
use relation_weights::{RelMap, Relation, Relations, Slot, Value};
use semiring_laws::Semiring;
use std::alloc::Global;
use truth_tables::Expr;
use wpds_base::OutOfMemory;

/// A program with the points of its symbols and its variables.
#[derive(Drop)]
pub(crate) struct Making<'p> {
    pub(crate) program: &'p Program,
    pub(crate) points: &'p PointTable,
    pub(crate) layout: Layout,
    pub(crate) relations: Relations,
    /// The relation under which all stays.
    pub(crate) stay: Relation,
    /// Weights that were made.
    pub(crate) kept: KeptWeights<'p>,
}

// The place of a variable among those of targets.
fn place_among(layout: Layout, targets: &[u32], variable: u32) -> Option<usize>
    ensures { result ≡ place_in (map (slot_in layout) targets.now) variable }
{
    for (place, target) in targets.iter().enumerate() {
        if layout.slot(*target) == u64::from(variable) {
            return Some(place);
        }
    }
    None
}

impl<'p> Making<'p> {
    /// What a program is lowered with, whose symbols have these points.
    pub(crate) fn new(
        alloc: Global,
        program: &'p Program,
        points: &'p PointTable,
    ) -> Result<Making<'p>, OutOfMemory>
        requires read { IsRead (program_of program.now) }
        requires points { points.now ≡ symbol_points (program_of program.now) }
        ensures making { IfOk result IsMaking }
        ensures program { IfOk result (λ m. program_in m ≡ program_of program.now) }
    {
        actions_mean_effects();
        let layout = Layout::of(program);
        let relations = Relations::new(layout.variables());
        let stay = relations.assume(alloc, &Expr::Const(true))?;
        let kept = KeptWeights::new(alloc)?;
        Ok(Making {
            program,
            points,
            layout,
            relations,
            stay,
            kept,
        })
    }

    /// The symbol of a point.
    pub(crate) fn symbol(&self, point: Point) -> u32
        requires { IsMaking self.now }
        ensures { result ≡ symbol (program_in self.now) point }
    {
        plans_are_within();
        match self.points.symbol(point) {
            Some(symbol) => symbol,
            None => 0,
        }
    }

    // The relation under which all stays where an expression is true.
    fn assume_tree(&self, alloc: Global, tree: &Expr) -> Result<Relation, OutOfMemory>
        requires making { IsMaking self.now }
        requires over { let p = program_in self.now in
            IsEffectOver (variables p) (Assumes (formula tree.now)) }
        ensures { IfOk result (λ w.
            HasEffect (variables (program_in self.now)) w (Assumes (formula tree.now))) }
    {
        actions_mean_effects();
        self.relations.assume(alloc, tree)
    }

    // The relation under which all stays where a condition holds.
    fn assume(&self, alloc: Global, condition: Condition<'_>) -> Result<Relation, OutOfMemory>
        requires making { IsMaking self.now }
        requires over { let p = program_in self.now in
            IsEffectOver (variables p) (Assumes (renamed (slot_of p) (condition_of condition))) }
        ensures { let p = program_in self.now in IfOk result (λ w. HasEffect (variables p) w
            (Assumes (renamed (slot_of p) (condition_of condition.entry)))) }
    {
        match condition {
            Condition::Always => self.relations.copy(alloc, &self.stay),
            Condition::Holds(e) => {
                let tree = renamed(alloc, self.layout, e.as_expr())?;
                self.assume_tree(alloc, &tree)
            }
            Condition::Fails(e) => {
                let tree = renamed(alloc, self.layout, e.as_expr())?;
                let opposite = Expr::Not(Box::new(alloc, tree)?);
                self.assume_tree(alloc, &opposite)
            }
        }
    }

    // The relation under which variables are set to values.
    fn assign(&self, alloc: Global, pairs: &[(u32, Value)]) -> Result<Relation, OutOfMemory>
        requires making { IsMaking self.now }
        requires over { IsEffectOver (variables (program_in self.now))
            (Assigns (targets_of pairs.now) (values_of pairs.now)) }
        ensures { IfOk result (λ w. HasEffect (variables (program_in self.now)) w
            (Assigns (targets_of pairs.now) (values_of pairs.now))) }
    {
        actions_mean_effects();
        self.relations.assign(alloc, pairs)
    }

    // The relation of a source, made anew.
    fn made(&self, alloc: Global, source: Source<'_>) -> Result<Relation, OutOfMemory>
        requires making { IsMaking self.now }
        requires over { let p = program_in self.now in
            IsEffectOver (variables p) (effect_by (slot_of p) source) }
        requires short { IsShort source }
        ensures { let p = program_in self.now in IfOk result (λ w.
            HasEffect (variables p) w (effect_by (slot_of p) source.entry)) }
    {
        match source {
            Source::Assumption(condition) => self.assume(alloc, condition),
            Source::Assignment { targets, values } => {
                let pairs = assigned(alloc, self.layout, targets, values)?;
                self.assign(alloc, &pairs)
            }
            Source::Filling {
                first,
                values,
                free,
            } => {
                let pairs = filled(alloc, self.layout, first, values, free)?;
                self.assign(alloc, &pairs)
            }
        }
    }

    /// The relation of a source. Where one was made from an equal source and is kept, it is shared.
    pub(crate) fn weight(&self, alloc: Global, source: Source<'p>) -> Result<Relation, OutOfMemory>
        requires making { IsMaking self.now }
        requires over { let p = program_in self.now in
            IsEffectOver (variables p) (effect_by (slot_of p) source) }
        requires short { IsShort source }
        ensures { let p = program_in self.now in IfOk result (λ w.
            HasEffect (variables p) w (effect_by (slot_of p) source.entry)) }
    {
        if let Some(kept) = self.kept.find(self.layout, source) {
            return self.relations.copy(alloc, kept);
        }
        let weight = self.made(alloc, source)?;
        let copy = self.relations.copy(alloc, &weight)?;
        self.kept.keep(alloc, self.layout, source, copy);
        Ok(weight)
    }

    // Where a variable comes from behind a call with these targets.
    fn slot(&self, targets: &[u32], variable: u32) -> Slot
        requires making { IsMaking self.now }
        requires over { let p = program_in self.now in
            IsSlotOver (variables p) (map_slot p targets.now variable) }
        ensures { result ≡ map_slot (program_in self.now) targets.now variable }
    {
        match place_among(self.layout, targets, variable) {
            Some(place) => Slot::Callee((self.layout.globals as usize + place) as u8),
            None if variable < self.layout.globals => Slot::Callee(variable as u8),
            None => Slot::Caller,
        }
    }

    /// Where each variable comes from behind a call with these targets.
    pub(crate) fn map(&self, targets: &[u32]) -> RelMap
        requires making { IsMaking self.now }
        requires over { let p = program_in self.now in (v : ℕ) → v < variables p
            → IsSlotOver (variables p) (map_slot p targets.now v) }
        ensures { let p = program_in self.now in (v : ℕ) → v < variables p
            → slots_of result v ≡ map_slot p targets.now v }
    {
        let mut slots = [Slot::Caller; 24];
        for variable in 0..self.layout.variables() {
            slots[variable as usize] = self.slot(targets, variable);
        }
        RelMap::Slots(slots)
    }
}
