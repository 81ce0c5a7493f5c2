//! Compares the worked lines with their files. The folder `lines` at the top of the repository is the data of this
//! program.
#![tactic(auto)]

ghost use Rattle.std.specs.Prelude.{◌≡◌, ◌↔◌, IfOk, IsTrue};
ghost use Rattle.line_text.specs.Written.{line_file_text};

use hoist_base::Line;
use line_text::write_line;
use std::alloc::{AllocError, Global};
use std::{fs, io};
use worked_lines::{
    far_tank, one_bath, one_station, rinse_twice, slow_choice, thirteen_stages, two_baths,
    two_hoists, two_stations,
};

const FILES: [&str; 9] = [
    "two_stations.toml",
    "one_bath.toml",
    "two_hoists.toml",
    "rinse_twice.toml",
    "one_station.toml",
    "thirteen_stages.toml",
    "far_tank.toml",
    "two_baths.toml",
    "slow_choice.toml",
];

/// The worked line of the file with this number.
fn line_of(alloc: Global, number: usize) -> Option<Line> {
    match number {
        0 => two_stations(alloc),
        1 => one_bath(alloc),
        2 => two_hoists(alloc),
        3 => rinse_twice(alloc),
        4 => one_station(alloc),
        5 => thirteen_stages(alloc),
        6 => far_tank(alloc),
        7 => two_baths(alloc),
        8 => slow_choice(alloc),
        _ => None,
    }
}

/// Whether a file is what is written of the line, byte for byte.
fn is_text_of(alloc: Global, file: &[u8], line: &Line) -> Result<bool, AllocError>
    ensures { IfOk result (λ same. IsTrue same ↔ (file.now ≡ line_file_text line.now)) }
{
    let text = write_line(alloc, line)?;
    Ok(file == text.as_slice())
}

fn main(rt: HostRuntime) -> io::Result<()> {
    let alloc = rt.alloc();
    for number in 0..FILES.len() {
        let name = FILES[number];
        let file = fs::read(&rt, name)?;
        let same = match line_of(alloc, number) {
            Some(line) => is_text_of(alloc, file.as_slice(), &line)?,
            None => false,
        };
        let verdict = if same { "as worked" } else { "differs" };
        println!(rt; "{name}: {verdict}")?;
    }
    Ok(())
}
