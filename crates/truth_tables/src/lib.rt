//! Operators by their truth tables, and the expressions that both languages write with them.
#![tactic(auto)]

mod expr;
mod instances;
mod laws;
mod numbers;
mod operator;
mod part;
mod postfix;
mod reader;
mod reading;
mod shape;
mod stop;
mod tables;
mod variables;

pub use expr::{Expr, eval};
pub use instances::{instance2, instance3};
pub use laws::{one_making, one_tree, variables_among_words};
pub use operator::Operator;
pub use part::Part;
pub use postfix::Postfix;
pub use reading::{ExprRead, read_expr};
pub use tables::{Table2, Table3, value2, value3};
pub use variables::is_variable;
