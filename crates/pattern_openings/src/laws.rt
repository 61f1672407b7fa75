ghost use Rattle.std.specs.Prelude.{◌↔◌, ◌≡◌, ◌+◌, ◌++◌, ◌<◌, ◌≤◌, ℕ, All, IsTrue, List, Some, length, slice_get};
ghost use Rattle.weighted_automata.specs.declared.place.Place.{Place as PlaceValue};
ghost use Rattle.pushdown_rules.specs.Configuration.{Configuration};
ghost use Rattle.config_patterns.specs.Membership.{PatternValue, has_member};
ghost use Rattle.wpds_base.specs.Lists.{IsIn};
ghost use Rattle.saturation_laws.specs.declared.opening.Opening.{Opening as OpeningValue};
ghost use Rattle.saturation_laws.specs.Paths.{IsOpened};
ghost use Rattle.pattern_openings.specs.PatternOpenings.{state_of, opening_of, IsEdgeOf};
ghost use Rattle.pattern_openings.specs.JointOpenings.{joint_edges, joint_finals, AreBefore, LeadsToItem};

/// The opening of a pattern reads the pattern's members, and no others: for each configuration with one of the controls.
pub fn openings_read_members()
    ensures { (pattern : PatternValue) (controls : ℕ) → pattern.control < controls →
        (d : Configuration) → d.control < controls →
        IsOpened (opening_of controls pattern) d ↔ IsTrue (has_member pattern d) }
{}

/// The edges of a pattern's opening go over a symbol from the control or an item's state to an item's state. Its final
/// states are states of the pattern, and the last of these is one.
pub fn openings_join_states()
    ensures edges { (pattern : PatternValue) (controls : ℕ) (x : PlaceValue) →
        IsIn x (opening_of controls pattern).edges →
        IsEdgeOf controls pattern.control (length pattern.items) x }
    ensures finals { (pattern : PatternValue) (controls q : ℕ) → pattern.control < controls →
        IsIn q (opening_of controls pattern).finals → q < controls + length pattern.items }
    ensures last { (pattern : PatternValue) (controls : ℕ) →
        IsIn (state_of controls pattern.control (length pattern.items))
        (opening_of controls pattern).finals }
{}

/// The edges of several patterns together, beside edges between states before theirs, read the members of each of them, and
/// no others, to this one's final states: for each configuration with one of the controls.
pub fn later_openings_read_members()
    ensures { (edges : List PlaceValue) (patterns : List PatternValue) (controls first : ℕ) →
        controls ≤ first →
        AreBefore controls first edges →
        All (λ (d : PatternValue). d.control < controls) patterns →
        (k : ℕ) (pattern : PatternValue) (finals : List ℕ) →
        slice_get patterns k ≡ Some pattern →
        slice_get (joint_finals first patterns) k ≡ Some finals →
        (d : Configuration) → d.control < controls →
        let all : OpeningValue = record {
          edges = edges ++ joint_edges first patterns;
          finals = finals;
        } in IsOpened all d ↔ IsTrue (has_member pattern d) }
{}

/// The edges of several patterns together go over a symbol to a state that is no control.
pub fn joint_edges_lead_to_items()
    ensures { (patterns : List PatternValue) (controls : ℕ) (x : PlaceValue) →
        IsIn x (joint_edges controls patterns) → LeadsToItem controls x }
{}
