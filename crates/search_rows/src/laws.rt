// Laws that name one outcome.
use batch_lines::laws::{batch_is_one, singles_are_one};
use degree_sweep::laws::sweep_is_one;

#[test]
fn one_batch_and_one_sweep(_rt: HostRuntime) {
    singles_are_one();
    batch_is_one();
    sweep_is_one();
}
