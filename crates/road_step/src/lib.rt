// The steps of the simulated road. The traffic of the streams is in a row of cells, one a stream, which is lent to each part of the step: an array that goes
// in by value would be copied.
#![tactic(auto)]

ghost use Rattle.std.specs.Prelude.{ℕ, ◌<◌, ◌≡◌, eqb};
ghost use Rattle.rules.specs.Colours.{green};
ghost use Rattle.road_streams.specs.Road.{released};
ghost use Rattle.road_step.specs.OnRoad.{Ahead, Further, BeforeEnd, NextOnRoad};
ghost use Rattle.road_step.specs.Passes.{Arriving, ArrivedIn, Releasing, ReleasedIn};

use road_streams::Traffic;
use rules::state::KeptState;
use site_sound::SoundSite;

mod greens;

// Arrivals and detectors: the vehicles that arrive join their queues, and the answer has the bits of the occupied detectors. The streams are bytes, as C hands
// them over, so stream i is read by its number here and in `releases`.
fn arrivals(streams: &[u8], cells: &mut [Traffic]) -> u64
    requires { Arriving streams.now cells.old }
    ensures { ArrivedIn streams.now cells.old cells.new result }
{
    let mut inputs = 0;
    for i in 0..streams.len() / 4 {
        let stream = road_streams::stream_at(streams, i);
        let traffic = road_streams::arrived(stream.rate, cells[i]);
        cells[i] = traffic;
        inputs = greens::with_bit(inputs, stream.detector, 0 < traffic.queued);
    }
    inputs
}

// The release of a stream, by whether its group shows green. In any other colour only the count is written.
fn release(traffic: &mut Traffic, shows_green: bool)
    requires { (traffic.old.gone < 65535) × (traffic.old.count < 20) }
    ensures { (colour : ℕ) → eqb colour green ≡ shows_green → traffic.new ≡ released colour traffic.old }
{
    if shows_green {
        *traffic = road_streams::released(true, *traffic);
    } else {
        traffic.count = 0;
    }
}

// Releases, by the groups that show green.
fn releases(streams: &[u8], greens: u64, cells: &mut [Traffic])
    requires { Releasing streams.now cells.old }
    ensures { ReleasedIn streams.now greens cells.old cells.new }
{
    for i in 0..streams.len() / 4 {
        let stream = road_streams::stream_at(streams, i);
        release(&mut cells[i], greens::is_green(greens, stream.group));
    }
}

// Some steps of the road, each of them arrivals, detectors, the controller, releases by the new colours. The cells take the new traffic, and the last state is
// the answer. A turn of the loop is no function of its own, because the state would then be copied field by field.
pub fn road_steps(
    site: &SoundSite,
    streams: &[u8],
    state: KeptState,
    steps: u32,
    cells: &mut [Traffic],
) -> KeptState
    requires { Ahead site.now streams.now state steps cells.old }
    ensures { Further site.now streams.now state steps cells.old result cells.new }
{
    let mut greens = greens::greens_in(site, state.core);
    let mut last = state;
    for n in 0..steps {
        let inputs = arrivals(streams, cells);
        last = step_whole::kept_stepped(site, last, inputs);
        greens = greens::greens_after(site, last.core, greens);
        releases(streams, greens, cells);
    }
    last
}

// One step of the road, for a caller that watches it.
pub fn road_stepped(
    site: &SoundSite,
    streams: &[u8],
    state: KeptState,
    cells: &mut [Traffic],
) -> KeptState
    requires { BeforeEnd site.now streams.now state cells.old }
    ensures { NextOnRoad site.now streams.now state cells.old result cells.new }
{
    road_steps(site, streams, state, 1, cells)
}
