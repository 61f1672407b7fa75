ghost use Rattle.std.specs.Prelude.{◌≡◌, ℕ, List};
ghost use Rattle.boolean_programs.specs.declared.program.Program.{Program as ProgramValue};
ghost use Rattle.report_text.specs.declared.options.Options.{Options as OptionsValue};
ghost use Rattle.report_text.specs.Reports.{IsBrief};
ghost use Rattle.program_reports.specs.ProgramReports.{IsProgramReport};
ghost use Rattle.report_laws.specs.Agreement.{ByBoth, TellOneVerdict};

/// Two reports on a program agree, listings and traces or none, by either direction and any number of workers: of each point both
/// texts begin with `reachable`, or both are `unreachable`.
pub fn program_reports_tell_one_verdict()
    ensures { (p : ProgramValue) (one other : OptionsValue) (report text : List ℕ)
        → IsProgramReport one p report → IsProgramReport other p text
        → ByBoth TellOneVerdict 1 p.queries report text }
{}

/// Two reports of values alone on a program are equal.
pub fn brief_program_reports_agree()
    ensures { (p : ProgramValue) (one other : OptionsValue) (report text : List ℕ)
        → IsBrief one → IsBrief other
        → IsProgramReport one p report → IsProgramReport other p text → report ≡ text }
{}
