// The worked lines as values, for the tests of all crates.
#![tactic(auto)]

mod build;
mod lines;

pub use build::{Numbers, Row, line_of_rows};
pub use lines::{
    far_tank, one_bath, one_station, rinse_twice, slow_choice, thirteen_stages, two_baths,
    two_hoists, two_stations,
};
