// Streams of vehicles: what a stream is, which streams a call refuses, and what one step does to the traffic of one stream.
#![tactic(auto)]

ghost use Rattle.std.specs.Prelude.{ℕ, ◌+◌, ◌*◌, ◌≤◌, ◌<◌, ◌&&◌, ◌≡◌, eqb, length, if◌then◌else◌};
ghost use Rattle.laws.specs.Folds.{any_of};
ghost use Rattle.rules.specs.Colours.{green};
ghost use Rattle.road_streams.specs.Road.{stream_count, stream_at, vehicle_group, bad_stream, bad_streams, queues, arrived, released};

use site_sound::SoundSite;

// A stream: the detector that sees its queue, the group that lets it go, and its vehicles an hour.
#[derive(Clone, Copy)]
pub struct Stream {
    pub detector: u8,
    pub group: u8,
    pub rate: u16,
}

// The traffic of one stream: what is left of its rate, the vehicles queued and gone, and its count of green steps with a queue.
#[derive(Clone, Copy)]
pub struct Traffic {
    pub remainder: u16,
    pub queued: u16,
    pub gone: u16,
    pub count: u16,
}

impl Traffic {
    // The traffic of a stream before the first step.
    pub const NONE: Traffic = Traffic {
        remainder: 0,
        queued: 0,
        gone: 0,
        count: 0,
    };
}

// A road has no more streams.
const MOST_STREAMS: usize = 48;

// A vehicle joins for each 36,000 of the sum of the rates: a rate is vehicles an hour, and an hour has 36,000 steps.
const HOUR: u16 = 36000;

// A vehicle leaves on this green step.
const HEADWAY: u16 = 20;

// Stream i of the bytes.
pub fn stream_at(streams: &[u8], i: usize) -> Stream
    requires { 4 * i + 4 ≤ length streams.now }
    ensures { result ≡ stream_at streams.now i }
{
    let at = 4 * i;
    Stream {
        detector: base_bytes::byte_in(streams, at),
        group: base_bytes::byte_in(streams, at + 1),
        rate: base_bytes::two_in(streams, at + 2),
    }
}

// Arrivals of one stream: a sum of 36,000 or more is one vehicle, and the rest is kept.
pub fn arrived(rate: u16, traffic: Traffic) -> Traffic
    requires { (rate ≤ 1800) × (traffic.remainder < 36000) × (traffic.queued < 65535) }
    ensures { result ≡ arrived rate traffic }
{
    let sum = traffic.remainder + rate;
    if sum < HOUR {
        return Traffic {
            remainder: sum,
            ..traffic
        };
    }
    Traffic {
        remainder: sum - HOUR,
        queued: traffic.queued + 1,
        ..traffic
    }
}

// The count after a step: green with a queue is counted; any other colour and an empty queue set the count to 0.
fn count_after(shows_green: bool, traffic: Traffic) -> u16
    requires { traffic.count < 20 }
    ensures { result ≡ (if shows_green && queues traffic then traffic.count + 1 else 0) }
{
    if shows_green && 0 < traffic.queued {
        traffic.count + 1
    } else {
        0
    }
}

// What the stream's group does, by whether it shows green. The 20th step that is counted releases one vehicle, and the count is 0.
pub fn released(shows_green: bool, traffic: Traffic) -> Traffic
    requires { (traffic.gone < 65535) × (traffic.count < 20) }
    ensures { (colour : ℕ) → eqb colour green ≡ shows_green → result ≡ released colour traffic }
{
    let count = count_after(shows_green, traffic);
    if count == HEADWAY {
        return Traffic {
            queued: traffic.queued - 1,
            gone: traffic.gone + 1,
            count: 0,
            ..traffic
        };
    }
    Traffic { count, ..traffic }
}

// Whether group g is a vehicle group of the site.
fn vehicle_group(site: &SoundSite, g: u8) -> bool
    ensures { result ≡ vehicle_group site.now g }
{
    let own = &site.site;
    g < own.size.groups && own.groups[usize::from(g)].mark != 2
}

// Whether a stream has a rate above 1,800, or a detector or vehicle group that the site does not have.
fn bad_stream(site: &SoundSite, stream: Stream) -> bool
    ensures { result ≡ bad_stream site.now stream }
{
    1800 < stream.rate
        || stream.detector >= site.site.size.detectors
        || !vehicle_group(site, stream.group)
}

// Whether some stream is bad.
fn some_bad(site: &SoundSite, streams: &[u8]) -> bool
    ensures { result ≡ any_of (λ i. bad_stream site.now (stream_at streams.now i)) (stream_count streams.now) }
{
    (0..streams.len() / 4).any(|i| bad_stream(site, stream_at(streams, i)))
}

// 22: the bytes are not whole streams, there are more than 48 streams or more than 180,000 steps, or a stream is bad.
pub fn bad_streams(site: &SoundSite, streams: &[u8], steps: u32) -> bool
    ensures { result ≡ bad_streams site.now streams.now steps }
{
    streams.len() % 4 != 0
        || MOST_STREAMS < streams.len() / 4
        || 180000 < steps
        || some_bad(site, streams)
}
