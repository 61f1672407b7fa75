ghost use Rattle.std.specs.Prelude.{◌≡◌, ◌≢◌, ◌↔◌, ℕ, None};
ghost use Rattle.pushdown_rules.specs.Pushdown.{Pushdown, IsSystem};
ghost use Rattle.relation_laws.specs.Building.{Parts};
ghost use Rattle.relation_weights.specs.declared.rel_map.RelMap.{RelMap};
ghost use Rattle.relation_weights.specs.Relations.{relation_operations};
ghost use Rattle.witness_graph.specs.declared.node.Side.{Side as SideValue};
ghost use Rattle.boolean_programs.specs.declared.point.Point.{Point as PointValue};
ghost use Rattle.boolean_programs.specs.Programs.{Program as ProgramValue};
ghost use Rattle.boolean_programs.specs.Structure.{IsRead};
ghost use Rattle.boolean_machine.specs.Machine.{IsReached};
ghost use Rattle.program_laws.specs.ReadPrograms.{IsPoint};
ghost use Rattle.lowering_laws.specs.Lowering.{variables};
ghost use Rattle.lowering_laws.specs.Queries.{entry_pattern, point_pattern};
ghost use Rattle.lowering_laws.specs.Weights.{IsDiagramLowering};
ghost use Rattle.path_sum.specs.declared.answer.Answer.{Answer as AnswerValue};
ghost use Rattle.query_answers.specs.Answering.{IsAnswer};

use lowering_laws::programs_are_decided;
use pushdown_rules::zero_where_infeasible;
use relation_weights::Relations;

/// The answer over the lowering of a program, from main's first line to a point: its value is not
/// the empty relation exactly where some state of some run of the program's machine has the point
/// on top, whatever the direction and the number of workers.
pub fn answers_tell_points()
    ensures { (p : ProgramValue) (point : PointValue) (system : Pushdown ℕ Parts RelMap)
        (by : SideValue) (workers : ℕ) (a : AnswerValue ℕ Parts RelMap)
        → let s = relation_operations (variables p) in IsRead p → IsPoint p point
        → IsSystem relation_operations system → IsDiagramLowering p system
        → IsAnswer relation_operations system by workers (entry_pattern p) (point_pattern p point) a
        → (a.value ≢ s.zero) ↔ IsReached p point }
{
    zero_where_infeasible::<Relations>();
    programs_are_decided();
}
