//! Laws of the definitions that the contracts cite: each function states some in its contract and does nothing.
ghost use Rattle.fio_world.specs.Scripts.{Scenario};
ghost use Rattle.fio_world.specs.Reports.{GoodReportIsOfWholeRun};

/// A report is good exactly if all events of its script are done; it then ends with how the run has ended.
#[tactic(auto, using(crate::proofs::RunReports::good_report_is_of_whole_run))]
pub fn good_reports_are_of_whole_runs()
    ensures { (scenario : Scenario) → GoodReportIsOfWholeRun scenario }
{}
