use diagram_store::TripleTable;
use std::test::Fail;

#[test]
fn numbers_at_three_numbers(rt: HostRuntime) -> Result<(), Fail> {
    let mut table = TripleTable::new(rt.alloc());
    assert_eq!(rt; table.get(1, 2, 3), None);
    for k in 0..1_000 {
        table.insert(k % 10, k / 10 % 10, k / 100, k)?;
    }
    table.insert(3, 2, 1, 7)?;
    assert_eq!(rt; table.get(3, 2, 1), Some(7));
    assert_eq!(rt; table.get(9, 9, 9), Some(999));
    assert_eq!(rt; table.get(10, 0, 0), None);
    Ok(())
}
