ghost use Rattle.std.specs.Prelude.{◌≡◌, IsTrue, None, IfOk, OnOk};
ghost use Rattle.config_patterns.specs.Fault.{item_fault};
ghost use Rattle.config_patterns.specs.Membership.{with_item};
ghost use Rattle.config_patterns.specs.Validity.{is_set};
ghost use Rattle.document_forms.specs.Lawful.{IsPatternText};
ghost use Rattle.document_systems.specs.Systems.{set_of, pattern_of};

use config_patterns::{Pattern, unrefused};
use document_forms::{ItemText, PatternText, SetText};
use pushdown_rules::System;
use semiring_laws::Semiring;
use std::alloc::Global;
use wpds_base::OutOfMemory;

// Adds an item as it is written, which is not refused.
fn add_item(alloc: Global, pattern: &mut Pattern, item: &ItemText) -> Result<(), OutOfMemory>
    requires once { IsTrue (is_set (set_of pattern.old.symbols item.now.set)) }
    requires accepted { let set = set_of pattern.old.symbols item.now.set in
        item_fault pattern.old set item.now.star ≡ None }
    ensures { let set = set_of pattern.old.symbols item.now.set in
        OnOk result (pattern.new ≡ with_item pattern.old set item.now.star) }
{
    match &item.set {
        SetText::All => unrefused(pattern.add_all(item.star)),
        SetText::Listed(symbols) => {
            unrefused(pattern.add_item(alloc, symbols.as_slice(), item.star))
        }
    }
}

/// The pattern that a side of a query is, over the symbols of a system.
pub fn pattern_from<S: Semiring>(
    alloc: Global,
    system: &System<S>,
    text: &PatternText,
) -> Result<Pattern, OutOfMemory>
    requires { let symbols = system.now.symbols in
        IsPatternText symbols system.now.controls symbols text.now }
    ensures { IfOk result (λ p. p ≡ pattern_of system.now.symbols text.now) }
{
    let mut pattern = Pattern::new(alloc, text.control, system.symbols());
    for item in text.items.as_slice() {
        add_item(alloc, &mut pattern, item)?;
    }
    Ok(pattern)
}
