ghost use Rattle.std.specs.Prelude.{◌≡◌, ◌↔◌, ℕ, List, Option, codes};
ghost use Rattle.semiring_laws.specs.declared.reach.NoMap.{NoMap as NoMapValue};
ghost use Rattle.pushdown_rules.specs.Pushdown.{Pushdown, IsSystem};
ghost use Rattle.pushdown_rules.specs.Answers.{HasNoFeasibleRun};
ghost use Rattle.config_patterns.specs.Membership.{PatternValue, has_member};
ghost use Rattle.document_systems.specs.Systems.{AreTaken};
ghost use Rattle.document_systems.specs.Weights.{cost_kind};
ghost use Rattle.report_text.specs.Listings.{query_line};
ghost use Rattle.document_forms.specs.Documents.{Document};
ghost use Rattle.document_forms.specs.Lawful.{IsDocument};
ghost use Rattle.document_forms.specs.declared.weight.WeightsLine.TheVariants.{Reach as ReachLine, Cost as CostLine, GenKill as GenKillLine, Copy as CopyLine, Relation as RelationLine};
ghost use Rattle.report_text.specs.declared.options.Options.{Options as OptionsValue};
ghost use Rattle.report_text.specs.Reports.{ByQuery, IsBrief};
ghost use Rattle.wpds_app.specs.Reports.{IsReport, IsReported, IsQueryText};
ghost use Rattle.report_laws.specs.Telling.{TellsFeasibility, TellsFeasibilityOver, TellsReachability, TellsCost, TellsCosts, TellsFacts, TellsConstants, TellsRelations};
ghost use Rattle.report_laws.specs.Agreement.{ByBoth, TellOneValue, TellOneValueOver};

use copy_weights::CopyConst;
use cost_weights::{Cost, below_is_no_dearer};
use document_systems::{DocumentWeights, documents_are_systems, unreachable_is_zero};
use genkill_weights::GenKill;
use pushdown_rules::{answers_agree, answers_are_greatest_below, zero_where_infeasible};
use relation_weights::Relations;
use semiring_laws::Reach;
use value_texts::{constants_are_of_runs, facts_are_of_runs, relations_are_of_runs};

/// What is written for a query is `unreachable` exactly when no feasible run leads from its first pattern to its second,
/// whatever its weights.
pub fn unreachable_where_infeasible<S: DocumentWeights>()
    ensures { (p : Pushdown S S.W S.Ret) (items : List (List ℕ)) (i : ℕ) (from to : PatternValue)
        (options : OptionsValue) (text : List ℕ)
        → S.kind.named p.semiring → IsSystem S.operations p
        → IsQueryText S.kind options p items i from to text
        → (text ≡ query_line i (codes "unreachable"))
        ↔ HasNoFeasibleRun (S.operations p.semiring) p (has_member from) (has_member to) }
{
    zero_where_infeasible::<S>();
    answers_are_greatest_below::<S>();
    unreachable_is_zero::<S>();
}

/// What is written for a query with costs: a number below the cap is the cost of a cheapest run, and `CAP or more` says
/// that a run leads there and that each costs at least the cap.
pub fn costs_are_the_cheapest()
    ensures { (p : Pushdown ℕ (Option ℕ) NoMapValue) (items : List (List ℕ)) (i : ℕ)
        (from to : PatternValue) (options : OptionsValue) (text : List ℕ)
        → IsSystem cost_kind.operations p → IsQueryText cost_kind options p items i from to text
        → TellsCost p i from to text }
{
    zero_where_infeasible::<Cost>();
    answers_are_greatest_below::<Cost>();
    below_is_no_dearer();
}

/// What the report on a document with `weights reach` says of each query is so: that some run without a rule of weight
/// `none` leads from a member of its first pattern to one of its second, or that none does.
pub fn reports_tell_reachability()
    ensures { (d : Document) (options : OptionsValue) (report : List ℕ)
        → d.weights ≡ ReachLine → IsReport options d report
        → ByQuery (TellsReachability d) 1 d.queries report }
{}

// The same over a semiring that a document can name and that takes its rules.
fn reports_over_tell_feasibility<S: DocumentWeights>()
    ensures { (s : S) (d : Document) (options : OptionsValue) (report : List ℕ)
        → S.kind.named s → IsDocument d → AreTaken S.kind s d
        → IsReported S.kind options s d report
        → ByQuery (TellsFeasibilityOver S.kind s d) 1 d.queries report }
{
    unreachable_where_infeasible::<S>();
    documents_are_systems::<S>();
}

/// The report on a document says `unreachable` of a query exactly when no feasible run leads from
/// its first pattern to its second, whatever the weights are.
pub fn reports_tell_feasibility()
    ensures { (d : Document) (options : OptionsValue) (report : List ℕ)
        → IsDocument d → IsReport options d report
        → ByQuery (TellsFeasibility d) 1 d.queries report }
{
    reports_over_tell_feasibility::<Reach>();
    reports_over_tell_feasibility::<Cost>();
    reports_over_tell_feasibility::<GenKill<1>>();
    reports_over_tell_feasibility::<GenKill<2>>();
    reports_over_tell_feasibility::<GenKill<4>>();
    reports_over_tell_feasibility::<GenKill<8>>();
    reports_over_tell_feasibility::<GenKill<16>>();
    reports_over_tell_feasibility::<CopyConst>();
    reports_over_tell_feasibility::<Relations>();
}

// Over one semiring two reports of values alone are equal, whatever their directions.
fn brief_reports_over_agree<S: DocumentWeights>()
    ensures { (s : S) (d : Document) (one other : OptionsValue) (report text : List ℕ)
        → S.kind.named s → IsDocument d → AreTaken S.kind s d
        → IsBrief one → IsBrief other
        → IsReported S.kind one s d report → IsReported S.kind other s d text → report ≡ text }
{
    answers_agree::<S>();
    documents_are_systems::<S>();
}

/// Two reports of values alone on a document are equal: backwards and forwards the same values are written.
pub fn brief_reports_agree()
    ensures { (d : Document) (one other : OptionsValue) (report text : List ℕ)
        → IsDocument d → IsBrief one → IsBrief other
        → IsReport one d report → IsReport other d text → report ≡ text }
{
    brief_reports_over_agree::<Reach>();
    brief_reports_over_agree::<Cost>();
    brief_reports_over_agree::<GenKill<1>>();
    brief_reports_over_agree::<GenKill<2>>();
    brief_reports_over_agree::<GenKill<4>>();
    brief_reports_over_agree::<GenKill<8>>();
    brief_reports_over_agree::<GenKill<16>>();
    brief_reports_over_agree::<CopyConst>();
    brief_reports_over_agree::<Relations>();
}

// Over one semiring the texts of two reports begin with the lines of the same values, whatever their directions.
fn reports_over_tell_one_value<S: DocumentWeights>()
    ensures { (s : S) (d : Document) (one other : OptionsValue) (report text : List ℕ)
        → S.kind.named s → IsDocument d → AreTaken S.kind s d
        → IsReported S.kind one s d report → IsReported S.kind other s d text
        → ByBoth (λ i q. TellOneValueOver S.kind s d i) 1 d.queries report text }
{
    answers_agree::<S>();
    documents_are_systems::<S>();
}

/// Two reports on a document have the same values, listings or none, by either direction and any number of workers: of each query
/// both texts begin with the line of one value.
pub fn reports_tell_one_value()
    ensures { (d : Document) (one other : OptionsValue) (report text : List ℕ)
        → IsDocument d → IsReport one d report → IsReport other d text
        → ByBoth (TellOneValue d) 1 d.queries report text }
{
    reports_over_tell_one_value::<Reach>();
    reports_over_tell_one_value::<Cost>();
    reports_over_tell_one_value::<GenKill<1>>();
    reports_over_tell_one_value::<GenKill<2>>();
    reports_over_tell_one_value::<GenKill<4>>();
    reports_over_tell_one_value::<GenKill<8>>();
    reports_over_tell_one_value::<GenKill<16>>();
    reports_over_tell_one_value::<CopyConst>();
    reports_over_tell_one_value::<Relations>();
}

/// The report on a document with `weights cost CAP` says of each query that no run leads there, or the cost of a
/// cheapest run, or that each costs at least the cap.
pub fn reports_tell_costs()
    ensures { (d : Document) (cap : ℕ) (options : OptionsValue) (report : List ℕ)
        → d.weights ≡ CostLine cap → IsDocument d → IsReport options d report
        → ByQuery (TellsCosts cap d) 1 d.queries report }
{
    costs_are_the_cheapest();
    documents_are_systems::<Cost>();
}

/// The report on a document with `weights genkill` says of each query that no feasible run leads there, or names the facts
/// that some run generates, and those that each feasible run kills.
pub fn reports_tell_facts()
    ensures { (d : Document) (options : OptionsValue) (report : List ℕ)
        → d.weights ≡ GenKillLine → IsDocument d → IsReport options d report
        → ByQuery (TellsFacts d) 1 d.queries report }
{
    facts_are_of_runs();
}

/// The report on a document with `weights copy` says of each query that no feasible run leads there, or gives each
/// variable a form that says the meet of what the runs leave in it.
pub fn reports_tell_constants()
    ensures { (d : Document) (options : OptionsValue) (report : List ℕ)
        → d.weights ≡ CopyLine → IsDocument d → IsReport options d report
        → ByQuery (TellsConstants d) 1 d.queries report }
{
    constants_are_of_runs();
    documents_are_systems::<CopyConst>();
    answers_are_greatest_below::<CopyConst>();
    unreachable_is_zero::<CopyConst>();
}

/// The report on a document with `weights relation` says of each query that no feasible run leads there, or has the
/// diagram of the pairs of an old and a new state that some run relates.
pub fn reports_tell_relations()
    ensures { (d : Document) (options : OptionsValue) (report : List ℕ)
        → d.weights ≡ RelationLine → IsDocument d → IsReport options d report
        → ByQuery (TellsRelations d) 1 d.queries report }
{
    relations_are_of_runs();
    documents_are_systems::<Relations>();
    answers_are_greatest_below::<Relations>();
    unreachable_is_zero::<Relations>();
}
