ghost use Rattle.std.specs.Prelude.{◌≡◌, ◌≢◌, ◌<◌, ℕ, ℤ, Option, Some, cond};
ghost use Rattle.semiring_laws.specs.Semiring.{Fits};
ghost use Rattle.copy_weights.specs.declared.form.Form.{Form};
ghost use Rattle.copy_weights.specs.declared.form.Form.TheVariants.{Varying, Meet};
ghost use Rattle.copy_weights.specs.declared.form.CopyW.{CopyW};
ghost use Rattle.copy_weights.specs.declared.form.CopyW.TheVariants.{Zero};
ghost use Rattle.copy_weights.specs.declared.form.CopyMap.TheVariants.{Restore};
ghost use Rattle.copy_weights.specs.Forms.{has, itself, meet, undefined};
ghost use Rattle.copy_weights.specs.CopyConst.{copy_operations};
ghost use Rattle.copy_weights.specs.Values.{Known, either, value, values, IsPart, IsKnownOf};
ghost use Rattle.copy_weights.specs.Values.Known.{Undefined, Number, Varies};

/// What a form says of a value: it varies, it is undefined, it is a constant, it is the old value of a variable, or it
/// is one of what two forms say. Where the old values are numbers, a form without parts is undefined, one whose parts are
/// all one number is that number, and one with two numbers varies.
pub fn forms_tell_values()
    ensures varying { (n : ℕ) (old : ℕ → Known) → value n Varying old ≡ Varies }
    ensures undefined { (n : ℕ) (old : ℕ → Known) → value n undefined old ≡ Undefined }
    ensures constant { (n : ℕ) (c : ℤ) (old : ℕ → Known) →
        value n (Meet (Some c) 0) old ≡ Number c }
    ensures copy { (n k : ℕ) (old : ℕ → Known) → k < n → value n (itself k) old ≡ old k }
    ensures meet { (n : ℕ) (f g : Form) (old : ℕ → Known) →
        value n (meet f g) old ≡ either (value n f old) (value n g old) }
    ensures parts { (n s : ℕ) (c : Option ℤ) (old : ℕ → ℤ) →
        IsKnownOf (value n (Meet c s) (λ k. Number (old k))) (IsPart n c s old) }
{}

/// A weight is a map from what is known of the old values to what is known of the new ones, as an environment transformer
/// of Sagiv, Reps and Horwitz (1996): one changes nothing, combine knows what both know, extend is the second after the
/// first, and a restored variable has its old value. Two weights other than zero that are one map are equal.
pub fn weights_map_values()
    ensures one { (n : ℕ) (old : ℕ → Known) (k : ℕ) → k < n →
        values n (copy_operations n).one old k ≡ old k }
    ensures combine { (n : ℕ) (a b : CopyW) (old : ℕ → Known) (k : ℕ) → k < n →
        values n ((copy_operations n).combine a b) old k ≡
        either (values n a old k) (values n b old k) }
    ensures extend { (n : ℕ) (a b : CopyW) (old : ℕ → Known) (k : ℕ) → k < n → a ≢ Zero →
        values n ((copy_operations n).extend a b) old k ≡ values n b (values n a old) k }
    ensures restore { (n vars : ℕ) (a : CopyW) (old : ℕ → Known) (k : ℕ) → k < n → a ≢ Zero →
        values n ((copy_operations n).after (Restore vars) a) old k ≡
        cond (has vars k) (old k) (values n a old k) }
    ensures equal { (n : ℕ) (a b : CopyW) → let s = copy_operations n in
        Fits s a → Fits s b → a ≢ Zero → b ≢ Zero →
        ((old : ℕ → Known) (k : ℕ) → k < n → values n a old k ≡ values n b old k) → a ≡ b }
{}
