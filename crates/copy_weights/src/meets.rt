ghost use Rattle.std.specs.Prelude.{◌≡◌, ◌↔◌, ◌≤◌, ◌<◌, IsTrue, Some, length};
ghost use Rattle.copy_weights.specs.Forms as spec;

use crate::Form;

/// The meet of two forms.
pub(crate) fn meet(f: Form, g: Form) -> Form
    ensures { result ≡ spec.meet f g }
{
    match (f, g) {
        (
            Form::Meet {
                constant: c,
                from: s,
            },
            Form::Meet {
                constant: d,
                from: t,
            },
        ) => with_constant(s | t, joined(c, d)),
        _ => Form::Varying,
    }
}

/// Whether the meet of two forms is the first.
pub(crate) fn has_form(f: Form, g: Form) -> bool
    ensures { IsTrue result ↔ (spec.meet f g ≡ f) }
{
    match (f, g) {
        (Form::Varying, _) => true,
        (_, Form::Varying) => false,
        (
            Form::Meet {
                constant: c,
                from: s,
            },
            Form::Meet {
                constant: d,
                from: t,
            },
        ) => s | t == s && has_constant(c, d),
    }
}

// Whether the constant of two is the first's.
fn has_constant(c: Option<i64>, d: Option<i64>) -> bool
    ensures { IsTrue result ↔ (spec.joined c d ≡ Some c) }
{
    match (c, d) {
        (_, None) => true,
        (None, Some(_)) => false,
        (Some(x), Some(y)) => x == y,
    }
}

// The constant of two, where they do not differ.
fn joined(c: Option<i64>, d: Option<i64>) -> Option<Option<i64>>
    ensures { result ≡ spec.joined c d }
{
    match (c, d) {
        (None, d) => Some(d),
        (c, None) => Some(c),
        (Some(x), Some(y)) => { if x == y { Some(Some(x)) } else { None } }
    }
}

fn with_constant(from: u64, constant: Option<Option<i64>>) -> Form
    ensures { result ≡ spec.with_constant from constant }
{
    match constant {
        Some(constant) => Form::Meet { constant, from },
        None => Form::Varying,
    }
}

/// The form with these put in for its sources.
pub(crate) fn put(list: &[Form], f: Form) -> Form
    requires { length list.now ≤ 64 }
    ensures { result ≡ spec.put (length list.now) (spec.form list.now) f }
{
    match f {
        Form::Varying => Form::Varying,
        Form::Meet {
            constant: None,
            from,
        } => meet_over(list, from),
        Form::Meet { constant, from } => {
            let all = meet_over(list, from);
            meet(Form::Meet { constant, from: 0 }, all)
        }
    }
}

// The meet of the forms of these sources. It goes over the sources alone, since most forms have one or none.
fn meet_over(list: &[Form], from: u64) -> Form
    requires { length list.now ≤ 64 }
    ensures { result ≡ spec.meet_over (length list.now) (spec.form list.now) from }
{
    let first = from.trailing_zeros();
    if (first as usize) < list.len() && from == 1 << first {
        return list[first as usize];
    }
    let mut made = Form::Meet {
        constant: None,
        from: 0,
    };
    let mut rest = from;
    while rest != 0 {
        let k = rest.trailing_zeros();
        made = with_source(list, k as usize, made);
        rest &= !(1 << k);
    }
    made
}

// The meet with the form of a variable, if there is such a variable.
fn with_source(list: &[Form], k: usize, made: Form) -> Form
    ensures there { k < length list.now → result ≡ spec.meet (spec.form list.now k) made }
    ensures nowhere { length list.now ≤ k → result ≡ made }
{
    if k < list.len() {
        return meet(list[k], made);
    }
    made
}

/// A variable itself.
pub(crate) fn itself(k: usize) -> Form
    requires { k < 64 }
    ensures { result ≡ spec.itself k }
{
    Form::Meet {
        constant: None,
        from: 1 << k,
    }
}
