ghost use Rattle.std.specs.Prelude.{◌≡◌, ◌<◌, ◌≤◌, ◌*◌, ◌++◌, ◌∷◌, [], ℕ, List, Some, IfSome, IfOk, OnOk, map, length};
ghost use Rattle.witness_graph.specs.Runs as runs;
ghost use Rattle.report_text.specs.private.Counting.{AreCounted};
ghost use Rattle.report_text.specs.private.Opening as opening;

use crate::totals::{Total, is_empty_run};
use std::alloc::Global;
use witness_graph::Side;
use wpds_base::OutOfMemory;

/// What stands for runs: a rule, or a node by its number.
#[derive(Clone, Copy)]
pub(crate) enum Part {
    Rule(u32),
    Node(u64),
}

/// The runs that begin with these rules and go on with these parts, of which the last comes first.
#[derive(Drop)]
pub(crate) struct Beginning {
    pub(crate) rules: Vec<u32>,
    pub(crate) parts: Vec<Part>,
}

impl Beginning {
    /// The runs of a node.
    pub(crate) fn of_node(alloc: Global, number: u64) -> Result<Beginning, OutOfMemory>
        ensures rules { IfOk result (λ b. b.rules.items ≡ []) }
        ensures parts { IfOk result (λ b. b.parts.items ≡ opening.node_part number ∷ []) }
    {
        let mut parts = Vec::new(alloc);
        parts.push(Part::Node(number))?;
        Ok(Beginning {
            rules: Vec::new(alloc),
            parts,
        })
    }

    fn copy(&self, alloc: Global) -> Result<Beginning, OutOfMemory>
        ensures rules { IfOk result (λ b. b.rules.items ≡ self.now.rules.items) }
        ensures parts { IfOk result (λ b. b.parts.items ≡ self.now.parts.items) }
    {
        Ok(Beginning {
            rules: self.rules.as_slice().to_vec(alloc)?,
            parts: self.parts.as_slice().to_vec(alloc)?,
        })
    }

    // Has a rule come first, if there is one.
    fn put_rule(&mut self, rule: Option<u32>) -> Result<(), OutOfMemory>
        ensures rules { OnOk result (self.new.rules.items ≡ self.old.rules.items) }
        ensures parts { (known : ℕ → List (List ℕ)) (n : ℕ) →
            let put = opening.IsPut n known (runs.rule_runs rule) 2 in
            OnOk result (put self.old.parts.items self.new.parts.items) }
    {
        if let Some(rule) = rule {
            self.parts.push(Part::Rule(rule))?;
        }
        Ok(())
    }

    // Has a node come first, unless there is none or it is the empty run alone.
    fn put_node(&mut self, totals: &[Total], part: Option<u64>) -> Result<(), OutOfMemory>
        requires { IfSome part (λ k. k < length totals.now) }
        ensures rules { OnOk result (self.new.rules.items ≡ self.old.rules.items) }
        ensures parts { (known : ℕ → List (List ℕ)) → AreCounted totals.now known →
            let runs = runs.part_runs known part in
            let put = opening.IsPut (length totals.now) known runs (opening.part_steps part) in
            OnOk result (put self.old.parts.items self.new.parts.items) }
    {
        if let Some(number) = part {
            if !is_empty_run(totals[number as usize]) {
                self.parts.push(Part::Node(number))?;
            }
        }
        Ok(())
    }

    /// Has the parts of a node come first, in the order of its runs.
    pub(crate) fn put_parts(
        &mut self,
        side: Side,
        totals: &[Total],
        rule: Option<u32>,
        first: Option<u64>,
        second: Option<u64>,
    ) -> Result<(), OutOfMemory>
        requires first { IfSome first (λ k. k < length totals.now) }
        requires second { IfSome second (λ k. k < length totals.now) }
        ensures rules { OnOk result (self.new.rules.items ≡ self.old.rules.items) }
        ensures parts { (known : ℕ → List (List ℕ)) → AreCounted totals.now known →
            let firsts = runs.part_runs known first in
            let seconds = runs.part_runs known second in
            let runs = runs.parts_runs side (runs.rule_runs rule) firsts seconds in
            let put = opening.IsPut (length totals.now) known runs (opening.parts_steps first second) in
            OnOk result (put self.old.parts.items self.new.parts.items) }
    {
        match side {
            Side::Pre => {
                self.put_node(totals, second)?;
                self.put_node(totals, first)?;
                self.put_rule(rule)?;
            }
            Side::Post => {
                self.put_rule(rule)?;
                self.put_node(totals, second)?;
                self.put_node(totals, first)?;
            }
        }
        Ok(())
    }

    /// The same, with the node before come first, if there is one.
    pub(crate) fn earlier(
        &self,
        alloc: Global,
        totals: &[Total],
        before: Option<u64>,
    ) -> Result<Option<Beginning>, OutOfMemory>
        requires before { IfSome before (λ k. k < length totals.now) }
        requires within { opening.AreWithin (length totals.now) self.now.parts.items }
        ensures { (known : ℕ → List (List ℕ)) → AreCounted totals.now known →
            IfOk result (λ b. opening.IsEarlier (length totals.now) known before self.now b) }
    {
        match before {
            Some(_) => {
                let mut earlier = self.copy(alloc)?;
                earlier.put_node(totals, before)?;
                Ok(Some(earlier))
            }
            None => Ok(None),
        }
    }
}
