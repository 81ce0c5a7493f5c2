// What the chart's test of a hoist that carries means.
ghost use Rattle.gantt_report.specs.Chart.{CarriesIsTold};

/// In every timetable of every line the chart has a hoist carry at a tick exactly where it does so by the definition:
/// by some move of some period, at the tick or whole periods later.
pub fn carries_is_told()
    ensures { CarriesIsTold }
{}
