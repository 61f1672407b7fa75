ghost use Rattle.std.specs.Prelude.{◌↔◌, ◌<◌, ◌≤◌, IsTrue};
ghost use Rattle.pattern_openings.specs.PatternOpenings.{IsOver};

use config_patterns::Pattern;

/// Whether a pattern's control is one of so many controls, and its symbols are among so many. Then the pattern is over
/// a system with these counts.
#[tactic(auto, using(crate::proofs::OverLemmas::over))]
pub fn is_over(pattern: &Pattern, controls: u32, symbols: u32) -> bool
    ensures test { IsTrue result
        ↔ ((pattern.now.control < controls) × (pattern.now.symbols ≤ symbols)) }
    ensures over { IsTrue result → IsOver controls symbols pattern.now }
{
    pattern.control() < controls && pattern.symbols() <= symbols
}
