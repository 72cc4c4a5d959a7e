// The simulated road from the fresh state to its last step, and its results as bytes.
#![tactic(auto)]

ghost use Rattle.std.specs.Prelude.{◌+◌, ◌*◌, ◌≤◌, ◌≡◌, length};
ghost use Rattle.std.proofs.lemmas.List.Edits.{sets};
ghost use Rattle.state_forms.specs.Forms.{parts_of};
ghost use Rattle.road_streams.specs.Road.{traffic_of, result_of};
ghost use Rattle.road_run.specs.Whole.{Startable, RanTo};

use road_streams::Traffic;
use rules::state::KeptState;
use site_sound::SoundSite;

// The result of one stream: its vehicles queued and gone.
fn put_result(results: &mut [u8], at: usize, traffic: Traffic)
    requires { at + 4 ≤ length results.old }
    ensures { results.new ≡ sets results.old at (result_of traffic) }
{
    state_forms::put_two(results, at, traffic.queued);
    state_forms::put_two(results, at + 2, traffic.gone);
}

// The results of the streams, from the buffer's start on.
fn put_results(cells: &[Traffic], results: &mut [u8])
    requires { length cells.now * 4 ≤ length results.old }
    ensures { results.new ≡ sets results.old 0 (parts_of (λ i. result_of (traffic_of cells.now i)) (length cells.now)) }
{
    for (i, traffic) in cells.iter().enumerate() {
        put_result(results, i * 4, *traffic);
    }
}

// The whole road on a site whose streams are not refused: its results, and its last state as the answer.
pub fn run(site: &SoundSite, streams: &[u8], steps: u32, results: &mut [u8]) -> KeptState
    requires { Startable site.now streams.now steps (length results.old) }
    ensures { RanTo site.now streams.now steps results.old result results.new }
{
    let mut cells = [Traffic::NONE; 48];
    let state = road_step::road_steps(site, streams, state_fresh::fresh(), steps, &mut cells);
    put_results(&cells[..streams.len() / 4], results);
    state
}
