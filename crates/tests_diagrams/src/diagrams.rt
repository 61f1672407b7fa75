use diagram_store::{
    Branch, BranchList, Diagram, canonical, constants_are_canonical, independent_variables, node,
    one_meaning, one_reference, value_by_branch,
};
use std::process::Abort;
use std::test::Fail;

const fn branch(var: u32, low: u64, high: u64) -> Branch {
    Branch { var, low, high }
}

// A list of nodes, its root, and whether they are canonical.
type Row<'a> = (&'a [Branch], u64, bool);

fn check_rows(rt: &impl Abort, rows: &[Row]) {
    for (nodes, root, is_canonical) in rows {
        let len = nodes.len();
        assert_eq!(rt;
            canonical(nodes, *root),
            *is_canonical,
            "root {root} of {len} nodes"
        );
    }
}

#[test]
fn short_lists(rt: HostRuntime) {
    let rows: [Row; 12] = [
        // the constants, and a root that names nothing
        (&[], 0, true),
        (&[], 1, true),
        (&[], 2, false),
        // a literal and its inverse
        (&[branch(7, 0, 1)], 2, true),
        (&[branch(7, 1, 0)], 2, true),
        // a node that is not reached
        (&[branch(7, 0, 1)], 1, false),
        // equal branches
        (&[branch(7, 1, 1)], 2, false),
        // variables 0 and 1 both true
        (&[branch(1, 0, 1), branch(0, 0, 2)], 3, true),
        // variables that fall, and that stand still
        (&[branch(0, 0, 1), branch(1, 0, 2)], 3, false),
        (&[branch(1, 0, 1), branch(1, 0, 2)], 3, false),
        // a node that names a later one, and one that names itself
        (&[branch(0, 0, 3), branch(1, 0, 1)], 2, false),
        (&[branch(0, 0, 2)], 2, false),
    ];
    check_rows(&rt, &rows);
}

// Variables 0 and 1 differ: the low branch stands first.
#[test]
fn order_of_nodes(rt: HostRuntime) {
    let low = branch(1, 0, 1);
    let high = branch(1, 1, 0);
    let rows: [Row; 2] = [
        (&[low, high, branch(0, 2, 3)], 4, true),
        (&[high, low, branch(0, 3, 2)], 4, false),
    ];
    check_rows(&rt, &rows);
}

// With two equal nodes, and with one in their place. In the longer lists at least two of variables 0, 1 and 2 are true.
#[test]
fn equal_nodes(rt: HostRuntime) {
    let last = branch(2, 0, 1);
    let both = branch(1, 0, 2);
    let rows: [Row; 3] = [
        (&[last, last, branch(0, 2, 3)], 4, false),
        (
            &[last, both, last, branch(1, 4, 1), branch(0, 3, 5)],
            6,
            false,
        ),
        (&[last, both, branch(1, 2, 1), branch(0, 3, 4)], 5, true),
    ];
    check_rows(&rt, &rows);
}

// Variables 0 and 1 differ, on the four lists of two bits.
#[test]
fn values(rt: HostRuntime) -> Result<(), Fail> {
    let alloc = rt.alloc();
    let nodes = [branch(1, 0, 1), branch(1, 1, 0), branch(0, 2, 3)];
    assert!(rt; canonical(&nodes, 4));
    let differ = Diagram::of_nodes(alloc, &nodes, 4)?;
    assert!(rt; differ.has_variables_below(2));
    assert!(rt; !differ.has_variables_below(1));
    assert!(rt; !differ.value(&[false, false]));
    assert!(rt; differ.value(&[false, true]));
    assert!(rt; differ.value(&[true, false]));
    assert!(rt; !differ.value(&[true, true]));
    assert_eq!(rt; differ.nodes(), nodes.as_slice());
    assert_eq!(rt; node(&nodes, 1), None);
    assert_eq!(rt; node(&nodes, 4), Some(branch(0, 2, 3)));
    assert_eq!(rt; node(&nodes, 5), None);
    let copy = differ.copy(alloc)?;
    assert!(rt; copy.same(&differ));
    assert_eq!(rt; copy.nodes.into_vec().as_slice(), nodes.as_slice());
    Ok(())
}

#[test]
fn constants_and_literals(rt: HostRuntime) -> Result<(), Fail> {
    let alloc = rt.alloc();
    let never = Diagram::constant(alloc, false);
    let always = Diagram::constant(alloc, true);
    let bit = Diagram::literal(alloc, 2)?;
    assert!(rt; !never.same(&always));
    assert!(rt; !bit.same(&always));
    assert!(rt; bit.same(&Diagram::literal(alloc, 2)?));
    assert!(rt; !bit.same(&Diagram::literal(alloc, 1)?));
    assert!(rt; !never.value(&[]));
    assert!(rt; always.value(&[]));
    assert!(rt; bit.has_variables_below(3));
    assert!(rt; !bit.value(&[true, true, false]));
    assert!(rt; bit.value(&[false, false, true]));
    let list = BranchList::from_vec(Vec::new(alloc));
    assert_eq!(rt; list.as_slice(), always.nodes());
    value_by_branch();
    one_reference();
    constants_are_canonical();
    one_meaning();
    independent_variables();
    Ok(())
}
