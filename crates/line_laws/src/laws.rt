// Laws: functions that do nothing and whose contracts say what holds of every line and timetable.
ghost use Rattle.line_laws.specs.Whole.{SameOverWholePeriods};
ghost use Rattle.line_laws.specs.Runs.{RunsKeepWindows};

/// Carriers of earlier periods say nothing new: no hoist carries two carriers and no tank is held twice over all whole
/// numbers of periods and all whole ticks, negative ones too, exactly where it is so over the natural ones.
pub fn whole_periods()
    ensures { SameOverWholePeriods }
{}

/// In every run of a legal timetable, of however many carriers, each carrier keeps its windows.
pub fn runs_keep_windows()
    ensures { RunsKeepWindows }
{}
