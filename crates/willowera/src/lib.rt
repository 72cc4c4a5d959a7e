// The calls of the board interface, each one call of its crate. `willowera_c` exports them to C and Rust. The lowest byte of an answer is the
// number of the refusal, 0 if the call is accepted. The bytes above it are the place, or the result of an accepted call.
#![tactic(auto)]

ghost use Rattle.std.specs.Prelude.{◌≡◌, length};
ghost use Rattle.rules.specs.Call.{bound_of};
ghost use Rattle.rules.specs.Personality.{verdict_of};
ghost use Rattle.state_sealed.specs.Sealed.{interface_version};
ghost use Rattle.board_answers.specs.Answers.{packed_verdict, packed_outcome};
ghost use Rattle.board_read.specs.GroupsCall.{groups_answer};
ghost use Rattle.board_read.specs.SectionCall.{section_answer};
ghost use Rattle.board_waits.specs.WaitsCall.{waits_answer, waits_after};
ghost use Rattle.board_fresh.specs.FreshCall.{fresh_answer, fresh_after};
ghost use Rattle.board_retime.specs.RetimeCall.{retime_answer, retime_after};
ghost use Rattle.board_step.specs.StepCall.{step_answer, state_after, colours_after};
ghost use Rattle.board_seal.specs.SealCall.{seal_answer, seal_after, resume_answer, resume_after};
ghost use Rattle.board_panel.specs.PanelCall.{why_length_answer, why_answer, line_after};
ghost use Rattle.board_settings.specs.SettingsCall.{settings_answer};
ghost use Rattle.board_yellow.specs.YellowCall.{yellow_answer};
ghost use Rattle.board_road.specs.RoadCall.{road_answer, last_state, results_after};

pub mod cabinet;

// The version of the interface.
pub fn willowera_version() -> u32
    ensures { result ≡ interface_version }
{
    state_sealed::VERSION as u32
}

// ---- A personality ----

// Accepts a personality (0) or refuses it.
pub fn willowera_read(personality: &[u8]) -> u64
    ensures { result ≡ packed_verdict (verdict_of personality.now) }
{
    board_read::read(personality)
}

// The wait bound of a personality in steps, or its refusal.
pub fn willowera_wait_bound(personality: &[u8]) -> u64
    ensures { result ≡ packed_outcome (bound_of personality.now) }
{
    board_read::wait_bound(personality)
}

// Writes the wait of each phase and of each movement of a personality, two bytes each, and answers how many bytes, or its refusal. A refused
// call writes nothing.
pub fn willowera_waits(personality: &[u8], waits: &mut [u8]) -> u64
    ensures { (result ≡ waits_answer personality.now (length waits.old))
        × (waits.new ≡ waits_after personality.now waits.old) }
{
    board_waits::waits(personality, waits)
}

// The number of signal groups of a personality, or its refusal.
pub fn willowera_groups(personality: &[u8]) -> u64
    ensures { result ≡ groups_answer personality.now }
{
    board_read::groups(personality)
}

// Offset and length of the body of a section, or a refusal.
pub fn willowera_section(personality: &[u8], kind: u16) -> u64
    ensures { result ≡ section_answer personality.now kind }
{
    board_read::section(personality, kind)
}

// ---- A running site ----

// Writes the fresh state of a personality, in which its own times rule, and answers 0. A refused call writes nothing.
pub fn willowera_fresh(personality: &[u8], state: &mut [u8]) -> u64
    ensures { (result ≡ fresh_answer personality.now state.old)
        × (state.new ≡ fresh_after personality.now state.old) }
{
    board_fresh::fresh(personality, state)
}

// One step of 0.1 s: replaces the state by the next state, writes the colours of the groups, and answers the wait bound. A refused step
// changes nothing.
pub fn willowera_step(personality: &[u8], state: &mut [u8], inputs: u64, colours: &mut [u8]) -> u64
    ensures { (result ≡ step_answer personality.now state.old inputs (length colours.old))
        × (state.new ≡ state_after personality.now state.old inputs (length colours.old))
        × (colours.new ≡ colours_after personality.now state.old inputs colours.old) }
{
    board_step::step(personality, state, inputs, colours)
}

// Makes the times of a second personality wait in the state until a phase next starts, and answers 0. A refused call changes nothing.
pub fn willowera_retime(personality: &[u8], state: &mut [u8], new: &[u8]) -> u64
    ensures { (result ≡ retime_answer personality.now state.old new.now)
        × (state.new ≡ retime_after personality.now state.old new.now) }
{
    board_retime::retime(personality, state, new)
}

// How many bytes the line has that says why the phase of a state in running holds, or a refusal. The inputs are those of the step that gave the
// state.
pub fn willowera_why_length(personality: &[u8], state: &[u8], inputs: u64) -> u64
    ensures { result ≡ why_length_answer personality.now state.now inputs }
{
    board_panel::why_length(personality, state, inputs)
}

// Writes the line to the start of a buffer and answers its length, or a refusal. A refused call writes nothing.
pub fn willowera_why(personality: &[u8], state: &[u8], inputs: u64, line: &mut [u8]) -> u64
    ensures { (result ≡ why_answer personality.now state.now inputs (length line.old))
        × (line.new ≡ line_after personality.now state.now inputs line.old) }
{
    board_panel::why(personality, state, inputs, line)
}

// ---- A site without power ----

// Writes the sealed record of a state, and answers 0. A refused call writes nothing.
pub fn willowera_seal(personality: &[u8], state: &[u8], sealed: &mut [u8]) -> u64
    ensures { (result ≡ seal_answer personality.now state.now sealed.old)
        × (sealed.new ≡ seal_after personality.now state.now sealed.old) }
{
    board_seal::seal(personality, state, sealed)
}

// Writes the state of a sealed record, and answers 0. A refused call writes nothing.
pub fn willowera_resume(personality: &[u8], sealed: &[u8], state: &mut [u8]) -> u64
    ensures { (result ≡ resume_answer personality.now sealed.now state.old)
        × (state.new ≡ resume_after personality.now sealed.now state.old) }
{
    board_seal::resume(personality, sealed, state)
}

// ---- Settings of a site ----

// Minimum green and passage time of an approach, or a refusal. The detector is 0 for an advance detector and 1 for a stop-line zone.
pub fn willowera_settings(speed: u32, detector: u32, metres: f64) -> u64
    ensures { result ≡ settings_answer speed detector metres }
{
    board_settings::settings(speed, detector, metres)
}

// The yellow time in steps, or a refusal.
pub fn willowera_yellow(speed: u32, grade: i32) -> u64
    ensures { result ≡ yellow_answer speed grade }
{
    board_yellow::yellow(speed, grade)
}

// Tries the settings of a personality on streams of vehicles, from the fresh state: writes the last state and the results of the streams, and
// answers 0. A refused road writes nothing.
pub fn willowera_road(
    personality: &[u8],
    streams: &[u8],
    steps: u32,
    state: &mut [u8],
    results: &mut [u8],
) -> u64
    ensures { (result ≡ road_answer personality.now streams.now steps state.old (length results.old))
        × (state.new ≡ last_state personality.now streams.now steps state.old (length results.old))
        × (results.new ≡ results_after personality.now streams.now steps state.old results.old) }
{
    board_road::road(personality, streams, steps, state, results)
}
