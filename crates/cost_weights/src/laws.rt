ghost use Rattle.std.specs.Prelude.{◌≡◌, ◌≤◌, ◌↔◌, ℕ, Option, None, Some};
ghost use Rattle.semiring_laws.specs.Semiring.{Below};
ghost use Rattle.cost_weights.specs.Cost.{cost_operations};

/// One cost is below another exactly when it is no dearer, and each is below the cost of no run, which is below no number.
/// So what lies below the costs of all runs and combines some of them is the least cost.
pub fn below_is_no_dearer()
    ensures numbers { (cap m n : ℕ) → Below (cost_operations cap) (Some m) (Some n) ↔ (m ≤ n) }
    ensures no_run { (cap : ℕ) (a : Option ℕ) → Below (cost_operations cap) a None }
    ensures only_no_run { (cap : ℕ) (a : Option ℕ) → Below (cost_operations cap) None a → a ≡ None }
{}
