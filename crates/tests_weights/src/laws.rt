ghost use Rattle.std.specs.Prelude.{All};
ghost use Rattle.semiring_laws.specs.Semiring.{Fits, FitsMap};

use semiring_laws::{
    NoMap, Reach, Semiring, below_is_an_order, chains_are_short, combination_is_greatest_below,
    combination_is_of_members, combine_all, combine_is_greatest_below, operations_distribute,
    operations_keep_below,
};
use std::alloc::Global;
use std::test::Fail;
use wpds_base::OutOfMemory;

// What a semiring makes of two weights.
#[derive(Clone, Copy, Debug, PartialEq, Eq, Drop)]
struct Answered<W> {
    combined: W,
    extended: W,
    returned: W,
    lowered: Option<W>,
    same: bool,
    is_zero: bool,
}

fn answers_for<S: Semiring>(
    alloc: Global,
    semiring: &S,
    a: &S::W,
    b: &S::W,
) -> Result<Answered<S::W>, OutOfMemory>
    requires left { Fits (S.operations semiring.now) a.now }
    requires right { Fits (S.operations semiring.now) b.now }
{
    let a = semiring.copy(alloc, a)?;
    Ok(Answered {
        combined: semiring.combine(alloc, &a, b)?,
        extended: semiring.extend(alloc, &a, b)?,
        returned: semiring.after(alloc, &semiring.plain(), &a)?,
        lowered: semiring.lowered(alloc, &a, b)?,
        same: semiring.same(&a, b),
        is_zero: semiring.is_zero(&a),
    })
}

fn neutral<S: Semiring>(alloc: Global, semiring: &S) -> Result<(S::W, S::W), OutOfMemory> {
    Ok((semiring.zero(alloc)?, semiring.one(alloc)?))
}

fn alike<S: Semiring>(one: &S, other: &S, map: &S::Ret) -> (bool, bool)
    requires { FitsMap (S.operations one.now) map.now }
{
    (one.same_kind(other), one.same_map(map, &one.plain()))
}

#[test]
fn reachability(rt: HostRuntime) -> Result<(), Fail> {
    let alloc = rt.alloc();
    // two weights, their combine and their extend
    let rows = [
        (false, false, false, false),
        (false, true, true, false),
        (true, false, true, false),
        (true, true, true, true),
    ];
    for (a, b, combined, extended) in rows {
        let wanted = Answered {
            combined,
            extended,
            returned: a,
            lowered: if combined == a { None } else { Some(combined) },
            same: a == b,
            is_zero: !a,
        };
        assert_eq!(rt;
            answers_for(alloc, &Reach, &a, &b)?,
            wanted,
            "at {a} and {b}"
        );
    }
    assert_eq!(rt; neutral(alloc, &Reach)?, (false, true));
    assert_eq!(rt; alike(&Reach, &Reach, &NoMap::Plain), (true, true));
    Ok(())
}

#[test]
fn combinations(rt: HostRuntime) -> Result<(), Fail> {
    let alloc = rt.alloc();
    assert_eq!(rt; combine_all(alloc, &Reach, &[])?, false);
    assert_eq!(rt; combine_all(alloc, &Reach, &[false, false])?, false);
    assert_eq!(rt; combine_all(alloc, &Reach, &[false, true, false])?, true);
    Ok(())
}

#[test]
fn laws() {
    below_is_an_order::<Reach>();
    chains_are_short::<Reach>();
    combination_is_greatest_below::<Reach>();
    combination_is_of_members::<Reach>();
    combine_is_greatest_below::<Reach>();
    operations_distribute::<Reach>();
    operations_keep_below::<Reach>();
}
