use diagram_ops::{apply_table2, apply_table3, apply2, apply3, exists, pick, rename, restrict};
use diagram_store::Diagram;
use std::test::Fail;
use truth_tables::{value2, value3};

// The value on three bits, false where a variable is past them.
fn value_on(d: &Diagram, row: [bool; 3]) -> bool {
    d.has_variables_below(3) && d.value(&row)
}

// The value on picked bits, false where they are too few.
fn true_on(d: &Diagram, bits: &[bool]) -> bool {
    d.has_variables_below(bits.len() as u64) && d.value(bits)
}

const fn row(k: u8) -> [bool; 3] {
    [k & 4 != 0, k & 2 != 0, k & 1 != 0]
}

#[test]
fn table_202(rt: HostRuntime) -> Result<(), Fail> {
    let alloc = rt.alloc();
    let first = Diagram::literal(alloc, 0)?;
    let second = Diagram::literal(alloc, 1)?;
    let third = Diagram::literal(alloc, 2)?;
    let choice = apply3::<202>(alloc, &first, &second, &third)?;
    for k in 0u8..8 {
        let bits = row(k);
        let want = if bits[0] { bits[1] } else { bits[2] };
        assert_eq!(rt; value_on(&choice, bits), want, "on row {k}");
    }
    let copy = choice.copy(alloc)?;
    assert!(rt; copy.same(&choice));
    let restricted = restrict(alloc, &choice, 0, true)?;
    assert!(rt; restricted.same(&second));
    assert!(rt; choice.has_variables_below(3));
    match pick(alloc, &choice, 3)? {
        Some(bits) => assert!(rt; true_on(&choice, bits.as_slice())),
        None => assert!(rt; false),
    }
    Ok(())
}

#[test]
fn sixteen_tables(rt: HostRuntime) -> Result<(), Fail> {
    let alloc = rt.alloc();
    let first = Diagram::literal(alloc, 0)?;
    let second = Diagram::literal(alloc, 1)?;
    for t in 0u8..16 {
        let made = apply_table2(alloc, t, &first, &second)?;
        for k in 0u8..4 {
            let (a, b) = (k & 2 != 0, k & 1 != 0);
            assert_eq!(rt;
                value_on(&made, [a, b, false]),
                (t >> k) & 1 == 1,
                "table {t}"
            );
            assert_eq!(rt; value2(t, a, b), (t >> k) & 1 == 1);
        }
    }
    let third = Diagram::literal(alloc, 2)?;
    let choice = apply_table3(alloc, 202, &first, &second, &third)?;
    assert!(rt; choice.same(&apply3::<202>(alloc, &first, &second, &third)?));
    assert!(rt;
        apply2::<8>(alloc, &first, &second)?.same(&apply_table2(alloc, 8, &first, &second)?)
    );
    Ok(())
}

// All functions of three variables: their values, and no two of them the same.
#[test]
fn all_functions(rt: HostRuntime) -> Result<(), Fail> {
    let alloc = rt.alloc();
    let first = Diagram::literal(alloc, 0)?;
    let second = Diagram::literal(alloc, 1)?;
    let third = Diagram::literal(alloc, 2)?;
    let mut all = Vec::new(alloc);
    for t in 0u8..=255 {
        all.push(apply_table3(alloc, t, &first, &second, &third)?)?;
    }
    for (t, d) in all.iter().enumerate() {
        for k in 0u8..8 {
            assert_eq!(rt; value_on(d, row(k)), (t >> k) & 1 == 1, "table {t}");
        }
        for (u, e) in all.iter().enumerate() {
            assert_eq!(rt; d.same(e), t == u, "tables {t} and {u}");
        }
    }
    Ok(())
}

// The others, by the table of all three bits of each function.
#[test]
fn other_operations(rt: HostRuntime) -> Result<(), Fail> {
    let alloc = rt.alloc();
    let first = Diagram::literal(alloc, 0)?;
    let second = Diagram::literal(alloc, 1)?;
    let third = Diagram::literal(alloc, 2)?;
    for t in [0u8, 255, 202, 150, 232, 23, 105, 64, 30, 141] {
        let d = apply_table3(alloc, t, &first, &second, &third)?;
        let some = exists(alloc, &d, &[1, 7])?;
        let no = restrict(alloc, &d, 2, false)?;
        let yes = restrict(alloc, &d, 1, true)?;
        for k in 0u8..8 {
            let [a, b, c] = row(k);
            let either = value3(t, a, false, c) || value3(t, a, true, c);
            assert_eq!(rt; value_on(&some, [a, b, c]), either, "table {t}");
            assert_eq!(rt;
                value_on(&no, [a, b, c]),
                value3(t, a, b, false),
                "table {t}"
            );
            assert_eq!(rt;
                value_on(&yes, [a, b, c]),
                value3(t, a, true, c),
                "table {t}"
            );
        }
        if d.has_variables_below(3) {
            match pick(alloc, &d, 3)? {
                Some(bits) => assert!(rt; t != 0 && true_on(&d, bits.as_slice())),
                None => assert_eq!(rt; t, 0),
            }
        }
    }
    Ok(())
}

// Variables 0, 1 and 2 become 1, 2 and 5.
#[test]
fn renaming(rt: HostRuntime) -> Result<(), Fail> {
    let alloc = rt.alloc();
    let first = Diagram::literal(alloc, 0)?;
    let second = Diagram::literal(alloc, 1)?;
    let third = Diagram::literal(alloc, 2)?;
    let choice = apply_table3(alloc, 202, &first, &second, &third)?;
    assert!(rt; choice.has_variables_below(3));
    let names = [1u32, 2, 5];
    let renamed = rename(alloc, &choice, &names)?;
    let one = Diagram::literal(alloc, 1)?;
    let two = Diagram::literal(alloc, 2)?;
    let five = Diagram::literal(alloc, 5)?;
    assert!(rt; renamed.same(&apply_table3(alloc, 202, &one, &two, &five)?));
    Ok(())
}
