// How large the diagram is drawn, and where its marks stand.
ghost use Rattle.std.specs.Prelude.{◌≡◌, ◌≤◌};
ghost use Rattle.timeway.specs.Scales as scales;

use hoist_base::Line;

/// The pixels at the left of the plot, for names.
pub(crate) const MARGIN: u64 = 180;

/// The pixels of one position of the track: less for a long track, more for many tanks.
fn unit(line: &Line) -> u32
    ensures value { result ≡ scales.unit line.now }
    ensures small { result ≤ 2000 }
{
    1 + (240 + 16 * line.tanks().len() as u32) / (line.track() + 2)
}

/// The pixels of the plot upward.
pub(crate) fn plot_height(line: &Line) -> u64
    ensures value { result ≡ scales.plot_height line.now }
    ensures small { result ≤ 4000000 }
{
    unit(line) as u64 * (line.track() as u64 + 2)
}

/// The pixels of the plot to the right.
pub(crate) fn plot_width(line: &Line) -> u64
    ensures value { result ≡ scales.plot_width line.now }
    ensures small { result ≤ 4000 }
{
    640 + 24 * line.move_count() as u64
}

/// Where a position is, in pixels from the top of the plot.
pub(crate) fn pixel_of(line: &Line, at: u32) -> u64
    ensures value { result ≡ scales.pixel_of line.now at }
    ensures small { result ≤ 4000000 }
{
    unit(line) as u64 * (line.track().saturating_sub(at) as u64 + 1)
}

/// The ticks from one mark of the scale to the next.
pub(crate) fn grid_step(period: u32) -> u32
    ensures value { result ≡ scales.grid_step period }
    ensures some { 1 ≤ result }
    ensures small { result ≤ 5000 }
{
    match period {
        0..=8 => 1,
        9..=16 => 2,
        17..=40 => 5,
        41..=80 => 10,
        81..=160 => 20,
        161..=400 => 50,
        401..=800 => 100,
        801..=1600 => 200,
        1601..=4000 => 500,
        4001..=8000 => 1000,
        8001..=16000 => 2000,
        _ => 5000,
    }
}

/// How many marks there are in two periods.
pub(crate) fn grid_count(period: u32) -> u32
    requires { period ≤ 20000 }
    ensures value { result ≡ scales.grid_count period }
    ensures small { result ≤ 40001 }
{
    2 * period / grid_step(period) + 1
}

/// Where a tick of the two periods is, in pixels from the left.
pub(crate) fn tick_pixel(line: &Line, period: u32, tick: u32) -> u64
    requires some { 1 ≤ period }
    requires small { period ≤ 20000 }
    ensures { result ≡ scales.tick_pixel line.now period tick }
{
    MARGIN + tick as u64 * plot_width(line) / (2 * period as u64)
}
