use document_forms::{
    Action, Document, Expression, ItemText, MapText, Move, PatternText, QueryLine, RuleLine,
    SetText, Symbols, ValueText, WeightText, WeightsLine,
};
use std::alloc::Global;
use truth_tables::{Expr, Part, Postfix};
use wpds_base::{OutOfMemory, Sequence};
use wpds_port::Text;

type Names = Sequence<Text>;

fn names(alloc: Global, name: &[u8]) -> Result<Names, OutOfMemory> {
    Ok(Sequence::from_vec(vec![in alloc; Text::of(alloc, name)?]?))
}

fn expression(alloc: Global, parts: &[Part]) -> Result<Expression, OutOfMemory> {
    let mut built = Postfix::new(alloc);
    for part in parts {
        built.push(*part)?;
    }
    Ok(Expression::from_parts(built))
}

// `wpds 1 / weights relation / controls p / symbols a / variables x /
// rule p a -> p a a : assume ! x return move x=x / query p: => p: .*`
fn small(alloc: Global) -> Result<Document<Names>, OutOfMemory> {
    let assume = Action::Assume(expression(alloc, &[Part::Var(0), Part::Not])?);
    let rule = RuleLine {
        control: 0,
        symbol: 0,
        to: 0,
        right: Symbols::from_vec(alloc, vec![in alloc; 0u32, 0]?)?,
        weight: WeightText::Actions(Sequence::from_vec(vec![in alloc; assume]?)),
        map: Some(MapText {
            restore: Sequence::from_vec(Vec::new(alloc)),
            moves: Sequence::from_vec(vec![in alloc; Move { to: 0, from: 0 }]?),
        }),
    };
    let all = ItemText {
        set: SetText::All,
        star: true,
    };
    let query = QueryLine {
        from: PatternText {
            control: 0,
            items: Sequence::from_vec(Vec::new(alloc)),
        },
        to: PatternText {
            control: 0,
            items: Sequence::from_vec(vec![in alloc; all]?),
        },
    };
    Ok(Document {
        weights: WeightsLine::Relation,
        controls: names(alloc, b"p")?,
        symbols: names(alloc, b"a")?,
        items: names(alloc, b"x")?,
        rules: Sequence::from_vec(vec![in alloc; rule]?),
        queries: Sequence::from_vec(vec![in alloc; query]?),
    })
}

#[test]
fn a_document_is_made(rt: HostRuntime) -> Result<(), OutOfMemory> {
    let document = small(rt.alloc())?;
    assert_eq!(rt; document.weights, WeightsLine::Relation);
    assert_eq!(rt; document.controls.len(), 1);
    assert_eq!(rt; document.rules.len(), 1);
    assert_eq!(rt; document.queries.len(), 1);
    Ok(())
}

// The constant that an expression is, if it is one.
fn constant(expr: &Expr) -> Option<bool> {
    match expr {
        Expr::Const(value) => Some(*value),
        _ => None,
    }
}

// The constant that an expression inverts, if it is the inverse of one.
fn inverted(expr: &Expr) -> Option<bool> {
    match expr {
        Expr::Not(inner) => constant(inner),
        _ => None,
    }
}

#[test]
fn an_expression_is_given_back(rt: HostRuntime) -> Result<(), OutOfMemory> {
    let alloc = rt.alloc();
    let value = ValueText::Is(expression(alloc, &[Part::Const(false), Part::Not])?);
    if let ValueText::Is(expression) = value {
        assert_eq!(rt; inverted(&expression.to_expr(alloc)?), Some(false));
    }
    let variable = expression(alloc, &[Part::Var(7)])?;
    assert!(rt; matches!(&variable.to_expr(alloc)?, Expr::Var(7)));
    // Of two the newest; of none `false`.
    let newest = expression(alloc, &[Part::Const(false), Part::Const(true)])?;
    assert_eq!(rt; constant(&newest.to_expr(alloc)?), Some(true));
    let none = Expression::from_parts(Postfix::new(alloc));
    assert_eq!(rt; constant(&none.to_expr(alloc)?), Some(false));
    Ok(())
}

#[test]
fn symbols_are_those_that_were_given(rt: HostRuntime) -> Result<(), OutOfMemory> {
    assert_eq!(rt; Symbols::one(7).as_slice(), [7u32].as_slice());
    for numbers in [[].as_slice(), &[7], &[9, 7], &[8, 9, 7], &[6, 8, 9, 7]] {
        let symbols = Symbols::from_vec(rt.alloc(), Vec::from_slice(rt.alloc(), numbers)?)?;
        assert_eq!(rt; symbols.as_slice(), numbers);
        assert_eq!(rt; symbols.len(), numbers.len());
    }
    Ok(())
}

// An item of a query is two bytes of text at least: 32 bytes for it are 16 times its text.
#[test]
fn an_item_takes_32_bytes(rt: HostRuntime) {
    assert_eq!(rt; size_of::<ItemText>(), 32);
}
