ghost use Rattle.std.specs.Prelude.{◌≡◌, ◌++◌, ◌∷◌, [], IfOk, OnOk, IfSome, None, is_some, option_map};
ghost use Rattle.semiring_laws.specs.Semiring.{FitsMap};
ghost use Rattle.pushdown_rules.specs.Fault.{rule_fault};
ghost use Rattle.document_forms.specs.Lawful.{IsDocument};
ghost use Rattle.document_systems.specs.Systems.{rule_of, system_of, IsTaken, AreTaken};

use crate::{DocumentWeights, Names};
use document_forms::{Document, MapText, RuleLine};
use pushdown_rules::{RuleFault, System};
use std::alloc::Global;
use wpds_base::OutOfMemory;

// What the return map of a rule is worth, if one is written.
fn map_from<S: DocumentWeights>(
    alloc: Global,
    semiring: &S,
    text: &Option<MapText>,
) -> Result<Option<S::Ret>, OutOfMemory>
    requires { IfSome text.now (S.kind.takes_map semiring.now) }
    ensures value { IfOk result (λ m. m ≡ option_map (S.kind.map semiring.now) text.now) }
    ensures fits { IfOk result (λ m. IfSome m (FitsMap (S.operations semiring.now))) }
{
    match text {
        Some(text) => Ok(Some(semiring.map_of(alloc, text)?)),
        None => Ok(None),
    }
}

// Adds the rule of a line that is not refused.
fn add_line<S: DocumentWeights>(
    alloc: Global,
    system: &mut System<S>,
    line: &RuleLine,
) -> Result<(), OutOfMemory>
    requires taken { IsTaken S.kind system.old.semiring line.now }
    requires accepted { let r = line.now in
        rule_fault system.old r.control r.symbol r.to r.right (is_some r.map) ≡ None }
    ensures { let rule = rule_of S.kind system.old.semiring line.now in
        OnOk result (system.new ≡ record system.old { rules = system.old.rules ++ rule ∷ [] }) }
{
    let right = line.right.as_slice();
    let weight = system.semiring().weight_of(alloc, &line.weight)?;
    let map = map_from(alloc, system.semiring(), &line.map)?;
    match system.add_rule(
        alloc,
        line.control,
        line.symbol,
        line.to,
        right,
        weight,
        map,
    ) {
        Ok(_) => Ok(()),
        Err(RuleFault::Memory) => Err(OutOfMemory),
        Err(_) => unreachable!(),
    }
}

/// The system of a document's rules, over a semiring that takes them. After an answer out of memory the semiring is gone.
pub fn system_from<S: DocumentWeights>(
    alloc: Global,
    semiring: S,
    document: &Document<Names>,
) -> Result<System<S>, OutOfMemory>
    requires document { IsDocument document.now }
    requires taken { AreTaken S.kind semiring document.now }
    ensures { IfOk result (λ s. s ≡ system_of S.kind semiring document.now) }
{
    let controls = document.controls.len() as u32;
    let symbols = document.symbols.len() as u32;
    let mut system = System::new(alloc, semiring, controls, symbols);
    for line in document.rules.as_slice() {
        add_line(alloc, &mut system, line)?;
    }
    Ok(system)
}
