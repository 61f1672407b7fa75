use crate::Expression;
use wpds_base::Sequence;

/// What the weights of a document are.
#[derive(Clone, Copy, Debug, PartialEq, Eq)]
pub enum WeightsLine {
    /// Reachability.
    Reach,
    /// The least cost, cut at a cap from 1 to 10^18.
    Cost { cap: u64 },
    /// Facts that are generated and killed.
    GenKill,
    /// Variables that are copied or constant.
    Copy,
    /// Relations between the values of variables before and after.
    Relation,
}

/// Numbers of facts or variables, in the order in which they are written.
pub type Numbers = Sequence<u32>;

/// `+FACT` or `-FACT`.
#[derive(Clone, Copy, Debug, PartialEq, Eq)]
pub struct FactSign {
    pub fact: u32,
    /// Whether the sign is `+`: the fact is generated, and not killed.
    pub plus: bool,
}

pub type FactSigns = Sequence<FactSign>;

/// What a variable is after a copy: varying, or the meet of a constant and the old values of
/// variables.
#[derive(Clone, Copy, Debug, PartialEq, Eq)]
pub enum FormText {
    /// `?`, or two different numbers.
    Varying,
    /// The number that is written, if one is, and the variables: bit `v` stands for variable `v`.
    /// `undef` has neither.
    Meet { constant: Option<i64>, from: u64 },
}

/// `X=PARTS`.
#[derive(Clone, Copy, Debug, PartialEq, Eq)]
pub struct VariableForm {
    pub variable: u32,
    pub form: FormText,
}

pub type FormTexts = Sequence<VariableForm>;

/// The value that a variable is given.
#[derive(Debug, Drop)]
pub enum ValueText {
    /// `*`: either value.
    Free,
    /// The value of an expression.
    Is(Expression),
}

/// A target of an assignment, and its value.
#[derive(Debug, Drop)]
pub struct Assignment {
    pub variable: u32,
    pub value: ValueText,
}

pub type Assignments = Sequence<Assignment>;

/// An action of a relation.
#[derive(Debug, Drop)]
pub enum Action {
    /// `assume E`: the expression is true.
    Assume(Expression),
    /// `choose X ..`: these variables have any value.
    Choose(Numbers),
    /// `X, .. := V, ..`: these variables have these values.
    Assign(Assignments),
}

pub type Actions = Sequence<Action>;

/// The weight of a rule as it is written.
#[derive(Debug, Drop)]
pub enum WeightText {
    /// `one`, or no weight.
    One,
    /// `none`: the rule leads nowhere.
    Zero,
    /// A cost, as it is written.
    Number(u64),
    /// Facts that are generated or killed.
    Facts(FactSigns),
    /// What variables become.
    Forms(FormTexts),
    /// Actions, one after the other.
    Actions(Actions),
}
