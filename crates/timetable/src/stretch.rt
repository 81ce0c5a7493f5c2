// Stretches of ticks that come again each period.
ghost use Rattle.std.specs.Prelude.{◌≡◌, ◌≢◌, ◌≤◌, pos};
ghost use Rattle.timetable.specs.Stretch.{Meet, IsLeastShift};

/// The ticks from `begin` up to and without `end`; they come again each period.
#[derive(Clone, Copy, Debug)]
pub(crate) struct Stretch {
    pub(crate) begin: u64,
    pub(crate) end: u64,
}

impl Stretch {
    /// The least number of periods, below 0 for earlier ones, by which `other` has to be moved so that it has a tick
    /// in common with this stretch; None where it never has.
    pub(crate) fn first_meeting(self, other: Stretch, period: u32) -> Option<i64>
        requires period { 1 ≤ period }
        requires small { (self.begin ≤ 2000000000) × (self.end ≤ 2000000000) }
        requires other_small { (other.begin ≤ 2000000000) × (other.end ≤ 2000000000) }
        ensures { IsLeastShift (Meet period self.begin self.end other.begin other.end) result }
    {
        if self.begin >= self.end || other.begin >= other.end {
            return None;
        }
        let period = period as u64;
        let back = other.end / period + 1;
        let ahead = (self.begin + back * period - other.end) / period + 1;
        if other.begin + ahead * period < self.end + back * period {
            Some(ahead as i64 - back as i64)
        } else {
            None
        }
    }

    /// The least number of periods other than 0 by which this stretch has to be moved so that it has a tick in common
    /// with itself; None where it never has.
    pub(crate) fn first_return(self, period: u32) -> Option<i64>
        requires period { 1 ≤ period }
        requires small { (self.begin ≤ 2000000000) × (self.end ≤ 2000000000) }
        ensures { IsLeastShift (λ s. Meet period self.begin self.end self.begin self.end s × (s ≢ pos 0)) result }
    {
        match self.first_meeting(self, period) {
            None => None,
            Some(shift) => if shift == 0 { None } else { Some(shift) },
        }
    }
}
