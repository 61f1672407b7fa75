//! A program that is made by hand, and the value of an expression.

use boolean_programs::{BodyLine, Choice, Expression, Proc, Program, Statement};
use std::alloc::Global;
use truth_tables::Expr;
use wpds_base::{OutOfMemory, Sequence};
use wpds_port::Text;

fn line(line: u32, statement: Statement) -> BodyLine {
    BodyLine {
        line,
        label: None,
        statement,
    }
}

// `bool 1 / global x / proc main() / x := * / assert x / end / query fails ..`, without a query.
fn small(alloc: Global) -> Result<Program, OutOfMemory> {
    let assign = Statement::Assign {
        targets: Sequence::from_vec(vec![in alloc; 0u32]?),
        values: Sequence::from_vec(vec![in alloc; Choice::Star]?),
    };
    let assert = Statement::Assert(Expression::from_expr(Expr::Var(0)));
    let body = vec![in alloc;
        line(4, assign),
        line(5, assert),
        line(6, Statement::EndProc),
    ]?;
    let main = Proc {
        name: Text::of(alloc, b"main")?,
        params: Sequence::from_vec(Vec::new(alloc)),
        locals: Sequence::from_vec(Vec::new(alloc)),
        returns: 0,
        body: Sequence::from_vec(body),
    };
    Ok(Program {
        globals: Sequence::from_vec(vec![in alloc; Text::of(alloc, b"x")?]?),
        procs: Sequence::from_vec(vec![in alloc; main]?),
        queries: Sequence::from_vec(Vec::new(alloc)),
    })
}

#[test]
fn a_program_is_made(rt: HostRuntime) -> Result<(), OutOfMemory> {
    let program = small(rt.alloc())?;
    assert_eq!(rt; program.globals.len(), 1);
    assert_eq!(rt; program.procs.len(), 1);
    assert_eq!(rt; program.queries.len(), 0);
    for main in program.procs.as_slice() {
        assert_eq!(rt; main.body.len(), 3);
    }
    Ok(())
}

#[test]
fn an_expression_has_the_value_of_its_tree(rt: HostRuntime) {
    let first = Expression::from_expr(Expr::Var(0));
    assert!(rt; first.value(&[true, false]));
    assert!(rt; !first.value(&[false, true]));
    assert!(rt; matches!(first.as_expr(), Expr::Var(0)));
}
