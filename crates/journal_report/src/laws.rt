// What holds of the targets that reports list.
ghost use Rattle.std.specs.Prelude.{◌≡◌, ◌++◌, ℕ, List, true};
ghost use Rattle.std.specs.List.{AllByRecursion};
ghost use Rattle.journal_report.specs.declared.parts.Line.{Line};
ghost use Rattle.journal_report.specs.declared.parts.ReportHead.{ReportHead};
ghost use Rattle.journal_report.specs.Listed.{Lists, OneLists, ListTogether};
ghost use Rattle.journal_report.specs.Report.{report_text};
ghost use Rattle.journal_report.specs.Reports.{is_report, FitsHead, FitsLine};

/// A report's bytes list its targets.
pub fn reports_list_their_targets()
    ensures { (head : ReportHead) (lines : List Line) (original : List ℕ) → FitsHead head → AllByRecursion FitsLine lines →
        is_report head lines ≡ true → Lists (report_text head lines original) lines }
{}

/// Bytes list no other targets than those that they list.
pub fn lists_are_one()
    ensures { (bytes : List ℕ) (lines others : List Line) → Lists bytes lines → Lists bytes others → lines ≡ others }
{}

/// Reports together list no other targets than those that they list.
pub fn together_are_one()
    ensures { (reports : List (List ℕ)) (lines others : List Line) → ListTogether reports lines → ListTogether reports others → lines ≡ others }
{}

/// Further reports list further targets.
pub fn further_reports_go_on()
    ensures { (reports more : List (List ℕ)) (lines rest : List Line) → ListTogether reports lines → ListTogether more rest →
        ListTogether (reports ++ more) (lines ++ rest) }
{}

/// One report, or none, lists its targets together.
pub fn one_lists_together()
    ensures { (reports : List (List ℕ)) (lines : List Line) → OneLists reports lines → ListTogether reports lines }
{}
