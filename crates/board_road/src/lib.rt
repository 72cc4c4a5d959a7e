// The simulated road over the board interface: the settings of a personality, tried on streams of vehicles. The personality is read once and
// the site decoded once.
#![tactic(auto)]

ghost use Rattle.std.specs.Prelude.{◌≡◌, length};
ghost use Rattle.rules.specs.Call.{bound_for};
ghost use Rattle.board_road.specs.RoadCall.{board_verdict, road_answer, last_state, results_after};

use board_answers::answer;
use read_personality::accepted;
use rules::answer::Refusal;
use state_timed::TIMED_BYTES;

#[tactic(auto, using(rules::proofs::Checks::checks), unfolding(rules::specs::Call::bound_for, rules::specs::Call::handed_back, road_streams::specs::Road::streams_verdict, road_streams::specs::Road::road_verdict, road_streams::specs::Road::road_results, road_streams::specs::Road::results_for, crate::specs::RoadCall::board_verdict, crate::specs::RoadCall::last_state, crate::specs::RoadCall::results_after))]
fn tried(
    personality: &[u8],
    streams: &[u8],
    steps: u32,
    state: &mut [u8],
    results: &mut [u8],
) -> Result<u32, Refusal>
    ensures { (result ≡ bound_for (board_verdict personality.now streams.now steps state.old (length results.old)) 0)
        × (state.new ≡ last_state personality.now streams.now steps state.old (length results.old))
        × (results.new ≡ results_after personality.now streams.now steps state.old results.old) }
{
    let p = accepted(personality)?;
    let site = site_whole::sound_site_of(&p);
    if road_streams::bad_streams(&site, streams, steps) {
        return Err(Refusal {
            number: 22,
            place: 0,
        });
    }
    if state.len() != TIMED_BYTES {
        return Err(Refusal {
            number: 13,
            place: 0,
        });
    }
    if results.len() < streams.len() {
        return Err(Refusal {
            number: 14,
            place: 0,
        });
    }
    let last = road_run::run(&site, streams, steps, results);
    state_timed::put_settled(state, last, site.site.times);
    Ok(0)
}

// Runs the streams from the fresh state: the last state and the results of the streams are written, and the answer is 0. It is refused with
// the personality's own number and place, then with 22, then with 13 if the state buffer does not have the length of a state, then with 14
// for a result buffer with less than 4 bytes a stream. A refused road writes nothing.
#[tactic(auto, using(board_answers::proofs::Answers::packed_plain), unfolding(crate::specs::RoadCall::road_answer))]
pub fn road(
    personality: &[u8],
    streams: &[u8],
    steps: u32,
    state: &mut [u8],
    results: &mut [u8],
) -> u64
    ensures { (result ≡ road_answer personality.now streams.now steps state.old (length results.old))
        × (state.new ≡ last_state personality.now streams.now steps state.old (length results.old))
        × (results.new ≡ results_after personality.now streams.now steps state.old results.old) }
{
    answer(tried(personality, streams, steps, state, results))
}
