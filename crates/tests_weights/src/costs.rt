ghost use Rattle.semiring_laws.specs.Semiring.{Fits};

use cost_weights::{Cost, CostFault, below_is_no_dearer};
use semiring_laws::{NoMap, Semiring};
use std::alloc::Global;
use std::test::Fail;
use wpds_base::OutOfMemory;

const LARGEST: u64 = 1_000_000_000_000_000_000;

#[test]
fn caps(rt: HostRuntime) -> Result<(), Fail> {
    assert_eq!(rt; Cost::new(0).err(), Some(CostFault::CapZero));
    assert_eq!(rt; Cost::new(LARGEST + 1).err(), Some(CostFault::CapTooLarge));
    assert_eq!(rt; Cost::new(u64::MAX).err(), Some(CostFault::CapTooLarge));
    assert_eq!(rt; Cost::new(1)?.number(7), Some(1));
    assert_eq!(rt; Cost::new(LARGEST)?.number(u64::MAX), Some(LARGEST));
    assert_eq!(rt; Cost::new(LARGEST)?.number(7), Some(7));
    Ok(())
}

// What a semiring makes of two weights: their combine, their extend, whether they are equal, whether the first is zero.
fn answers_for<S: Semiring>(
    alloc: Global,
    semiring: &S,
    a: &S::W,
    b: &S::W,
) -> Result<(S::W, S::W, bool, bool), OutOfMemory>
    requires left { Fits (S.operations semiring.now) a.now }
    requires right { Fits (S.operations semiring.now) b.now }
{
    let a = semiring.copy(alloc, a)?;
    let a = semiring.after(alloc, &semiring.plain(), &a)?;
    let combined = semiring.combine(alloc, &a, b)?;
    let extended = semiring.extend(alloc, &a, b)?;
    Ok((
        combined,
        extended,
        semiring.same(&a, b),
        semiring.is_zero(&a),
    ))
}

fn neutral<S: Semiring>(alloc: Global, semiring: &S) -> Result<(S::W, S::W), OutOfMemory> {
    Ok((semiring.zero(alloc)?, semiring.one(alloc)?))
}

#[test]
fn costs(rt: HostRuntime) -> Result<(), Fail> {
    let alloc = rt.alloc();
    // a cap, two numbers, and their sum
    let rows = [
        (100, 2, 1, 3),
        (100, 0, 7, 7),
        (100, 50, 50, 100),
        (100, 50, 51, 100),
        (5, 3, 3, 5),
        (1, 1, 1, 1),
        (LARGEST, LARGEST - 1, 1, LARGEST),
        (LARGEST, LARGEST, LARGEST, LARGEST),
    ];
    for (cap, a, b, sum) in rows {
        let cost = Cost::new(cap)?;
        let answer = answers_for(alloc, &cost, &cost.number(a), &cost.number(b))?;
        assert_eq!(rt;
            answer,
            (Some(a.min(b)), Some(sum), a == b, false),
            "{a} and {b} up to {cap}"
        );
    }
    Ok(())
}

#[test]
fn no_run(rt: HostRuntime) -> Result<(), Fail> {
    let alloc = rt.alloc();
    let cost = Cost::new(100)?;
    let seven = cost.number(7);
    assert_eq!(rt;
        answers_for(alloc, &cost, &None, &seven)?,
        (seven, None, false, true)
    );
    assert_eq!(rt;
        answers_for(alloc, &cost, &seven, &None)?,
        (seven, None, false, false)
    );
    assert_eq!(rt;
        answers_for(alloc, &cost, &None, &None)?,
        (None, None, true, true)
    );
    assert_eq!(rt; neutral(alloc, &cost)?, (None, Some(0)));
    below_is_no_dearer();
    assert!(rt; cost.same_map(&NoMap::Plain, &cost.plain()));
    assert!(rt; cost.same_kind(&Cost::new(100)?) && !cost.same_kind(&Cost::new(101)?));
    Ok(())
}
