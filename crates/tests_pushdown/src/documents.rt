use copy_weights::CopyConst;
use cost_weights::Cost;
use document_forms::{
    FactSign, FactSigns, FormText, FormTexts, MapText, Moves, Numbers, VariableForm, WeightText,
};
use document_systems::{DocumentWeights, Names};
use genkill_weights::GenKill;
use relation_weights::Relations;
use semiring_laws::{NoMap, Reach};
use std::alloc::Global;
use wpds_base::OutOfMemory;
use wpds_port::Text;

#[test]
fn values(rt: HostRuntime) {
    let alloc = rt.alloc();
    let none = Names::from_vec(Vec::new(alloc));
    let text = Reach.text_of(alloc, &none, &true).expect(&rt, "an answer");
    assert_eq!(rt; text.as_bytes(), b"reachable".as_slice());
    let text = Reach.text_of(alloc, &none, &false).expect(&rt, "an answer");
    assert_eq!(rt; text.as_bytes(), b"unreachable".as_slice());
    let cost = Cost::new(5).expect(&rt, "an answer");
    for (value, text) in [
        (None, "unreachable"),
        (Some(0), "0"),
        (Some(4), "4"),
        (Some(5), "5 or more"),
    ] {
        let found = cost.text_of(alloc, &none, &value).expect(&rt, "an answer");
        assert_eq!(rt; found.as_bytes(), text.as_bytes(), "{value:?}");
    }
}

// What a weight is worth, by the trait.
fn worth<S: DocumentWeights>(
    semiring: &S,
    alloc: Global,
    text: &WeightText,
) -> Result<S::W, OutOfMemory>
    requires { S.kind.takes semiring.now text.now }
{
    semiring.weight_of(alloc, text)
}

#[test]
fn weights_of_rules(rt: HostRuntime) {
    let alloc = rt.alloc();
    let cost = Cost::new(5).expect(&rt, "an answer");
    assert!(rt; worth(&Reach, alloc, &WeightText::One).expect(&rt, "an answer"));
    assert!(rt; !worth(&Reach, alloc, &WeightText::Zero).expect(&rt, "an answer"));
    assert_eq!(rt;
        worth(&cost, alloc, &WeightText::Zero).expect(&rt, "an answer"),
        None
    );
    for (text, value) in [
        (WeightText::One, 0),
        (WeightText::Number(0), 0),
        (WeightText::Number(4), 4),
        (WeightText::Number(6), 5),
        (WeightText::Number(u64::MAX), 5),
    ] {
        assert_eq!(rt;
            worth(&cost, alloc, &text).expect(&rt, "an answer"),
            Some(value),
            "{text:?}"
        );
    }
}

// What a return map is worth, by the trait.
fn map_worth<S: DocumentWeights>(
    semiring: &S,
    alloc: Global,
    text: &MapText,
) -> Result<S::Ret, OutOfMemory>
    requires { S.kind.takes_map semiring.now text.now }
{
    semiring.map_of(alloc, text)
}

#[test]
fn maps_of_rules(rt: HostRuntime) {
    let alloc = rt.alloc();
    let text = MapText {
        restore: Numbers::from_vec(Vec::new(alloc)),
        moves: Moves::from_vec(Vec::new(alloc)),
    };
    assert_eq!(rt;
        map_worth(&Reach, alloc, &text).expect(&rt, "an answer"),
        NoMap::Plain
    );
    assert_eq!(rt;
        map_worth(&Cost::new(5).expect(&rt, "an answer"), alloc, &text).expect(&rt, "an answer"),
        NoMap::Plain
    );
}

// These names, in order.
fn names(alloc: Global, texts: &[&str]) -> Result<Names, OutOfMemory> {
    let mut names = Vec::new(alloc);
    for text in texts {
        names.push(Text::of(alloc, text.as_bytes())?)?;
    }
    Ok(Names::from_vec(names))
}

// Facts that are generated (true) or killed.
fn signs(alloc: Global, signs: &[(u32, bool)]) -> Result<WeightText, OutOfMemory> {
    let mut list = Vec::new(alloc);
    for (fact, plus) in signs {
        list.push(FactSign {
            fact: *fact,
            plus: *plus,
        })?;
    }
    Ok(WeightText::Facts(FactSigns::from_vec(list)))
}

#[test]
fn weights_over_facts(rt: HostRuntime) {
    let alloc = rt.alloc();
    let semiring = GenKill::<2>;
    let items = names(alloc, &["a", "b", "c"]).expect(&rt, "an answer");
    let some: &[(u32, bool)] = &[(2, true), (1, false), (0, true)];
    let rows = [
        (
            signs(alloc, some).expect(&rt, "an answer"),
            "gen a c kill b",
        ),
        (
            signs(alloc, &[(1, false)]).expect(&rt, "an answer"),
            "gen - kill b",
        ),
        (
            signs(alloc, &[(1, true)]).expect(&rt, "an answer"),
            "gen b kill -",
        ),
        (WeightText::One, "gen - kill -"),
        (WeightText::Zero, "unreachable"),
    ];
    for (text, want) in &rows {
        let weight = worth(&semiring, alloc, text).expect(&rt, "an answer");
        let found = semiring
            .text_of(alloc, &items, &weight)
            .expect(&rt, "an answer");
        assert_eq!(rt; found.as_bytes(), want.as_bytes(), "{text:?}");
    }
    let map = MapText {
        restore: Numbers::from_vec(vec![in alloc; 64].expect(&rt, "an answer")),
        moves: Moves::from_vec(Vec::new(alloc)),
    };
    assert_eq!(rt;
        map_worth(&semiring, alloc, &map).expect(&rt, "an answer"),
        semiring.restore(&[64])
    );
}

// What variables become.
fn forms(alloc: Global, forms: &[(u32, FormText)]) -> Result<WeightText, OutOfMemory> {
    let mut list = Vec::new(alloc);
    for (variable, form) in forms {
        list.push(VariableForm {
            variable: *variable,
            form: *form,
        })?;
    }
    Ok(WeightText::Forms(FormTexts::from_vec(list)))
}

const fn meet(constant: Option<i64>, from: u64) -> FormText {
    FormText::Meet { constant, from }
}

#[test]
fn weights_over_variables(rt: HostRuntime) {
    let alloc = rt.alloc();
    let semiring = CopyConst::new(3);
    let items = names(alloc, &["x", "y", "z"]).expect(&rt, "an answer");
    let all: &[(u32, FormText)] = &[
        (2, FormText::Varying),
        (0, meet(Some(-7), 6)),
        (1, meet(None, 0)),
    ];
    let extreme: &[(u32, FormText)] = &[(0, meet(Some(i64::MIN), 0)), (1, meet(Some(i64::MAX), 0))];
    let rows = [
        (
            forms(alloc, all).expect(&rt, "an answer"),
            "x=-7,y,z y=undef z=?",
        ),
        (
            forms(alloc, &[(1, meet(None, 5))]).expect(&rt, "an answer"),
            "x=x y=x,z z=z",
        ),
        (
            forms(alloc, extreme).expect(&rt, "an answer"),
            "x=-9223372036854775808 y=9223372036854775807 z=z",
        ),
        (WeightText::One, "x=x y=y z=z"),
        (WeightText::Zero, "unreachable"),
    ];
    for (text, want) in &rows {
        let weight = worth(&semiring, alloc, text).expect(&rt, "an answer");
        let found = semiring
            .text_of(alloc, &items, &weight)
            .expect(&rt, "an answer");
        assert_eq!(rt; found.as_bytes(), want.as_bytes(), "{text:?}");
    }
    let none = CopyConst::new(0);
    let weight = worth(&none, alloc, &WeightText::One).expect(&rt, "an answer");
    let found = none
        .text_of(alloc, &names(alloc, &[]).expect(&rt, "an answer"), &weight)
        .expect(&rt, "an answer");
    assert_eq!(rt; found.as_bytes(), b"-".as_slice());
    let map = MapText {
        restore: Numbers::from_vec(vec![in alloc; 2].expect(&rt, "an answer")),
        moves: Moves::from_vec(Vec::new(alloc)),
    };
    assert_eq!(rt;
        map_worth(&semiring, alloc, &map).expect(&rt, "an answer"),
        semiring.restore(&[2])
    );
}

// What is written of the weight of a rule without one.
fn neutral_text(
    semiring: &Relations,
    alloc: Global,
    variables: &[&str],
) -> Result<Text, OutOfMemory> {
    let weight = worth(semiring, alloc, &WeightText::One)?;
    semiring.text_of(alloc, &names(alloc, variables)?, &weight)
}

#[test]
fn relations_between_variables(rt: HostRuntime) {
    let alloc = rt.alloc();
    let two = Relations::new(2);
    let text = neutral_text(&two, alloc, &["y", "x"]).expect(&rt, "an answer");
    let identity = b"relation x' 1 0; x' 0 1; x 2 3; y' 4 0; y' 0 4; y 5 6";
    assert_eq!(rt; text.as_bytes(), identity.as_slice());
    let text = neutral_text(&Relations::new(0), alloc, &[]).expect(&rt, "an answer");
    assert_eq!(rt; text.as_bytes(), b"relation true".as_slice());
    let none = worth(&two, alloc, &WeightText::Zero).expect(&rt, "an answer");
    let text = two
        .text_of(
            alloc,
            &names(alloc, &["y", "x"]).expect(&rt, "an answer"),
            &none,
        )
        .expect(&rt, "an answer");
    assert_eq!(rt; text.as_bytes(), b"unreachable".as_slice());
}
