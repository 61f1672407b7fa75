ghost use Rattle.std.specs.Prelude.{IfOk};
ghost use Rattle.semiring_laws.specs.Semiring.{Fits};
ghost use Rattle.copy_weights.specs.CopyConst.{copy_operations};

use copy_weights::{CopyConst, CopyMap, CopyW, Form, forms_tell_values, weights_map_values};
use semiring_laws::Semiring;
use std::alloc::Global;
use std::test::Fail;
use wpds_base::OutOfMemory;

const UNDEFINED: Form = Form::Meet {
    constant: None,
    from: 0,
};

const X: Form = Form::Meet {
    constant: None,
    from: 1,
};

const Y: Form = Form::Meet {
    constant: None,
    from: 2,
};

const X_OR_Y: Form = Form::Meet {
    constant: None,
    from: 3,
};

fn number(n: i64) -> Form {
    number_or(n, 0)
}

fn number_or(n: i64, from: u64) -> Form {
    Form::Meet {
        constant: Some(n),
        from,
    }
}

// The forms of a weight, none of zero.
fn forms(w: &CopyW) -> &[Form] {
    match w {
        CopyW::Zero => &[],
        CopyW::Map { forms } => forms.as_slice(),
    }
}

// The weight of these forms of the variables 0 and 1.
fn pair(alloc: Global, copies: &CopyConst, forms: (Form, Form)) -> Result<CopyW, OutOfMemory>
    ensures { IfOk result (λ w. Fits (copy_operations copies.now) w) }
{
    copies.make(alloc, &[(0, forms.0), (1, forms.1)])
}

// One digit of a number, `-` for what is undefined, `?` for what varies.
fn digit(n: i64) -> char {
    match n {
        0 => '0',
        1 => '1',
        2 => '2',
        _ => '!',
    }
}

fn either(a: char, b: char) -> char {
    match (a, b) {
        ('-', _) => b,
        (_, '-') => a,
        _ => { if a == b { a } else { '?' } }
    }
}

// What a form says where the old values of x and y are these.
fn mark(form: Form, x: char, y: char) -> char {
    let Form::Meet { constant, from } = form else {
        return '?';
    };
    let own = constant.map_or('-', digit);
    let first = if from & 1 == 1 { x } else { '-' };
    let second = if from & 2 == 2 { y } else { '-' };
    either(own, either(first, second))
}

// What a weight makes of x and y, for each x and y of 0, 1 and 2.
fn shown(alloc: Global, w: &CopyW) -> Result<String, OutOfMemory> {
    let mut text = String::new(alloc);
    for x in ['0', '1', '2'] {
        for y in ['0', '1', '2'] {
            if !text.is_empty() {
                text.push(' ')?;
            }
            for form in forms(w) {
                text.push(mark(*form, x, y))?;
            }
        }
    }
    Ok(text)
}

// Two weights; then their combine, the second after the first, and the second where x is restored. What they are worth was
// worked out without forms: by a script that takes weights as functions on what is known of x and y, and composes these.
#[test]
fn weights_are_functions_on_assignments(rt: HostRuntime) -> Result<(), Fail> {
    let alloc = rt.alloc();
    let copies = CopyConst::new(2);
    let restored = copies.restore(&[0]);
    let rows = [
        (
            (X, Y),
            (X, Y),
            "00 01 02 10 11 12 20 21 22",
            "00 01 02 10 11 12 20 21 22",
            "00 01 02 10 11 12 20 21 22",
        ),
        (
            (Y, X),
            (Y, X),
            "00 10 20 01 11 21 02 12 22",
            "00 01 02 10 11 12 20 21 22",
            "00 00 00 11 11 11 22 22 22",
        ),
        (
            (number(1), Y),
            (X, X),
            "?0 ?? ?? 1? 11 1? ?? ?? ?2",
            "11 11 11 11 11 11 11 11 11",
            "00 00 00 11 11 11 22 22 22",
        ),
        (
            (X, X),
            (number(1), Y),
            "?0 ?? ?? 1? 11 1? ?? ?? ?2",
            "10 10 10 11 11 11 12 12 12",
            "00 01 02 10 11 12 20 21 22",
        ),
        (
            (number(1), number(2)),
            (number(1), number(0)),
            "1? 1? 1? 1? 1? 1? 1? 1? 1?",
            "10 10 10 10 10 10 10 10 10",
            "00 00 00 10 10 10 20 20 20",
        ),
        (
            (X_OR_Y, Y),
            (X, X_OR_Y),
            "00 ?? ?? ?? 11 ?? ?? ?? 22",
            "00 ?? ?? ?? 11 ?? ?? ?? 22",
            "00 0? 0? 1? 11 1? 2? 2? 22",
        ),
        (
            (number_or(1, 1), X_OR_Y),
            (number_or(2, 2), X),
            "?0 ?? ?? ?? ?1 ?? ?? ?? ?2",
            "?? ?? ?? ?1 ?1 ?1 ?? ?? 2?",
            "00 00 00 11 11 11 22 22 22",
        ),
        (
            (UNDEFINED, X),
            (X_OR_Y, number_or(1, 1)),
            "0? ?? ?? ?1 11 ?1 ?? ?? 2?",
            "01 01 01 11 11 11 21 21 21",
            "0? 0? 0? 11 11 11 2? 2? 2?",
        ),
        (
            (Form::Varying, number(0)),
            (Y, X),
            "?0 ?0 ?0 ?? ?? ?? ?? ?? ??",
            "0? 0? 0? 0? 0? 0? 0? 0? 0?",
            "00 00 00 11 11 11 22 22 22",
        ),
        (
            (UNDEFINED, UNDEFINED),
            (number_or(2, 3), Form::Varying),
            "?? ?? ?? ?? ?? ?? ?? ?? 2?",
            "2? 2? 2? 2? 2? 2? 2? 2? 2?",
            "0? 0? 0? 1? 1? 1? 2? 2? 2?",
        ),
        (
            (number_or(2, 3), number(1)),
            (UNDEFINED, X_OR_Y),
            "?? ?? ?? ?? ?1 ?? ?? ?? 2?",
            "-? -? -? -? -? -? -? -? -?",
            "00 0? 0? 1? 11 1? 2? 2? 22",
        ),
        (
            (Y, Form::Varying),
            (number_or(0, 1), number_or(0, 2)),
            "0? ?? ?? ?? ?? ?? ?? ?? ??",
            "0? ?? ?? 0? ?? ?? 0? ?? ??",
            "00 0? 0? 10 1? 1? 20 2? 2?",
        ),
    ];
    for (a, b, both, then, back) in rows {
        let (v, w) = (pair(alloc, &copies, a)?, pair(alloc, &copies, b)?);
        let sum = copies.combine(alloc, &v, &w)?;
        assert_eq!(rt; shown(alloc, &sum)?.as_str(), both, "{a:?} or {b:?}");
        let product = copies.extend(alloc, &v, &w)?;
        assert_eq!(rt; shown(alloc, &product)?.as_str(), then, "{a:?}, {b:?}");
        let kept = copies.after(alloc, &restored, &w)?;
        assert_eq!(rt; shown(alloc, &kept)?.as_str(), back, "{b:?}");
    }
    Ok(())
}

// What a semiring makes of two weights: their combine, their extend, whether they are equal, whether the first is zero.
fn answers_for<S: Semiring>(
    alloc: Global,
    semiring: &S,
    a: &S::W,
    b: &S::W,
) -> Result<(S::W, S::W, bool, bool), OutOfMemory>
    requires left { Fits (S.operations semiring.now) a.now }
    requires right { Fits (S.operations semiring.now) b.now }
{
    let a = semiring.copy(alloc, a)?;
    let a = semiring.after(alloc, &semiring.plain(), &a)?;
    let combined = semiring.combine(alloc, &a, b)?;
    let extended = semiring.extend(alloc, &a, b)?;
    Ok((
        combined,
        extended,
        semiring.same(&a, b),
        semiring.is_zero(&a),
    ))
}

fn neutral<S: Semiring>(alloc: Global, semiring: &S) -> Result<(S::W, S::W), OutOfMemory>
    ensures zero { IfOk result (λ p. Fits (S.operations semiring.now) p.0) }
    ensures one { IfOk result (λ p. Fits (S.operations semiring.now) p.1) }
{
    Ok((semiring.zero(alloc)?, semiring.one(alloc)?))
}

#[test]
fn zero_and_one(rt: HostRuntime) -> Result<(), Fail> {
    let alloc = rt.alloc();
    let copies = CopyConst::new(2);
    let (zero, one) = neutral(alloc, &copies)?;
    assert_eq!(rt; forms(&one), [X, Y].as_slice());
    assert!(rt; copies.is_zero(&zero) && !copies.is_zero(&one));
    let weight = pair(alloc, &copies, (number(7), X))?;
    let (both, after, same, none) = answers_for(alloc, &copies, &zero, &weight)?;
    assert_eq!(rt; forms(&both), [number(7), X].as_slice());
    assert_eq!(rt; (forms(&after).len(), same, none), (0, false, true));
    let (both, after, same, none) = answers_for(alloc, &copies, &weight, &zero)?;
    assert_eq!(rt; forms(&both), [number(7), X].as_slice());
    assert_eq!(rt; (forms(&after).len(), same, none), (0, false, false));
    let (both, after, same, none) = answers_for(alloc, &copies, &weight, &one)?;
    assert_eq!(rt; forms(&both), [number_or(7, 1), X_OR_Y].as_slice());
    assert_eq!(rt; forms(&after), [number(7), X].as_slice());
    assert_eq!(rt; (same, none), (false, false));
    Ok(())
}

// The forms of what a weight makes of another, and `None` where it changes nothing.
fn lowered(
    alloc: Global,
    copies: &CopyConst,
    old: (Form, Form),
    weight: (Form, Form),
) -> Result<Option<CopyW>, OutOfMemory> {
    let (old, weight) = (pair(alloc, copies, old)?, pair(alloc, copies, weight)?);
    copies.lowered(alloc, &old, &weight)
}

#[test]
fn what_is_lowered(rt: HostRuntime) -> Result<(), Fail> {
    let alloc = rt.alloc();
    let copies = CopyConst::new(2);
    let (old, weight) = ((number(7), Form::Varying), (UNDEFINED, X));
    assert!(rt; lowered(alloc, &copies, old, old)?.is_none());
    assert!(rt; lowered(alloc, &copies, old, weight)?.is_none());
    let made = lowered(alloc, &copies, weight, old)?;
    assert!(rt; made.is_some_and(|w| forms(&w) == [number(7), Form::Varying].as_slice()));
    let made = lowered(alloc, &copies, old, (X, Y))?;
    assert!(rt; made.is_some_and(|w| forms(&w) == [number_or(7, 1), Form::Varying].as_slice()));
    Ok(())
}

// The form of x where one branch makes it `a` and the other `b`.
fn joined(alloc: Global, a: Form, b: Form) -> Result<Form, OutOfMemory> {
    let copies = CopyConst::new(2);
    let (v, w) = (pair(alloc, &copies, (a, Y))?, pair(alloc, &copies, (b, Y))?);
    let both = copies.combine(alloc, &v, &w)?;
    Ok(forms(&both).first().copied().unwrap_or(UNDEFINED))
}

#[test]
fn branches(rt: HostRuntime) -> Result<(), Fail> {
    let alloc = rt.alloc();
    let (least, most) = (number(i64::MIN), number(i64::MAX));
    for (a, b, both) in [
        (number(7), number(7), number(7)),
        (number(7), number(8), Form::Varying),
        (least, least, least),
        (least, most, Form::Varying),
        (number(-1), number(1), Form::Varying),
        (least, UNDEFINED, least),
        (UNDEFINED, UNDEFINED, UNDEFINED),
        (number(1), X, number_or(1, 1)),
        (number_or(1, 1), number_or(1, 2), number_or(1, 3)),
        (most, Form::Varying, Form::Varying),
    ] {
        assert_eq!(rt; joined(alloc, a, b)?, both, "{a:?} or {b:?}");
        assert_eq!(rt; joined(alloc, b, a)?, both, "{b:?} or {a:?}");
    }
    Ok(())
}

#[test]
fn restored(rt: HostRuntime) -> Result<(), Fail> {
    let alloc = rt.alloc();
    let copies = CopyConst::new(2);
    let callee = pair(alloc, &copies, (number(7), X))?;
    let map = copies.restore(&[0]);
    assert_eq!(rt; map, CopyMap::Restore { vars: 1 });
    let after = copies.after(alloc, &map, &callee)?;
    assert_eq!(rt; forms(&after), [X, X].as_slice());
    let (zero, _) = neutral(alloc, &copies)?;
    assert_eq!(rt; forms(&copies.after(alloc, &map, &zero)?).len(), 0);
    assert!(rt; copies.same_map(&CopyMap::Plain, &copies.plain()));
    assert!(rt; !copies.same_map(&map, &copies.restore(&[0, 1])));
    assert!(rt; !copies.same_map(&copies.restore(&[]), &CopyMap::Plain));
    Ok(())
}

#[test]
fn what_is_not_there_is_left_out(rt: HostRuntime) -> Result<(), Fail> {
    let alloc = rt.alloc();
    let copies = CopyConst::new(2);
    let made = copies.make(
        alloc,
        &[
            (2, number(5)),
            (u32::MAX, number(6)),
            (
                1,
                Form::Meet {
                    constant: None,
                    from: u64::MAX,
                },
            ),
            (1, number(3)),
            (0, number_or(4, 4)),
        ],
    )?;
    assert_eq!(rt; forms(&made), [number(4), X_OR_Y].as_slice());
    assert_eq!(rt;
        copies.restore(&[1, 2, 63, 64, u32::MAX]),
        CopyMap::Restore { vars: 2 }
    );
    assert_eq!(rt;
        CopyConst::new(64).restore(&[63, 0, 64, 63]),
        CopyMap::Restore {
            vars: (1 << 63) + 1
        }
    );
    Ok(())
}

#[test]
fn no_variable(rt: HostRuntime) -> Result<(), Fail> {
    let alloc = rt.alloc();
    let copies = CopyConst::new(0);
    let (zero, one) = neutral(alloc, &copies)?;
    let made = copies.make(alloc, &[(0, number(1))])?;
    assert_eq!(rt; forms(&made).len(), 0);
    assert!(rt; copies.same(&made, &one) && !copies.same(&made, &zero));
    assert!(rt; copies.same_kind(&CopyConst::new(0)) && !copies.same_kind(&CopyConst::new(1)));
    Ok(())
}

// Takes only what threads can share.
fn takes_shared<T: Send + Sync>(_value: &T) {}

#[test]
fn most_variables(rt: HostRuntime) -> Result<(), Fail> {
    let alloc = rt.alloc();
    let copies = CopyConst::new(64);
    let last = Form::Meet {
        constant: None,
        from: 1 << 63,
    };
    let moved = copies.make(alloc, &[(0, last), (63, number(i64::MIN))])?;
    let twice = copies.extend(alloc, &moved, &moved)?;
    takes_shared(&(copies, copies.restore(&[])));
    takes_shared(&twice);
    assert_eq!(rt; forms(&moved).len(), 64);
    assert_eq!(rt; forms(&moved).first(), Some(&last));
    assert_eq!(rt;
        forms(&moved).get(62),
        Some(&Form::Meet {
            constant: None,
            from: 1 << 62
        })
    );
    assert_eq!(rt; forms(&twice).first(), Some(&number(i64::MIN)));
    forms_tell_values();
    weights_map_values();
    Ok(())
}
