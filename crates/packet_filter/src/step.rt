//! Steps of a filter, and those that are left after a skip.

ghost use Rattle.std.specs.Prelude.{◌≡◌, drop, true, ℕ};
ghost use Rattle.packet_filter.specs.Packets.{Packet};
ghost use Rattle.packet_filter.specs.Running.{value_after};

pub use filter_language::step::Step;

/// Returns the steps after the first `len`.
pub(crate) fn later_steps(steps: &[Step], len: usize) -> &[Step]
    ensures { result.now ≡ drop len steps.now }
{
    if len < steps.len() {
        &steps[len..]
    } else {
        &[]
    }
}

/// Returns the steps after the first `len`, and after the steps that these skip if the value is true.
pub(crate) fn steps_if_true(steps: &[Step], len: usize) -> &[Step]
    ensures later { (n : ℕ) × (result.now ≡ drop n steps.now) }
    ensures value { (packet : Packet)
        → value_after result.now 0 true packet ≡ value_after (drop len steps.now) 0 true packet }
{
    let mut later = later_steps(steps, len);
    while let [step, others @ ..] = later {
        let Step::SkipIfTrue(skipped) = step else {
            return later;
        };
        later = later_steps(others, *skipped);
    }
    later
}
