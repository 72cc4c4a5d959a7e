// The road program. From standard input it reads a two-byte length, a personality of that length, the number of steps in four bytes, and streams of 4 bytes
// to the end. It prints a header and a line a stream: detector, group, rate, the vehicles that arrived, those queued and gone, and the longest queue. A
// refusal prints its line instead. The longest queue is watched here, after each step of the road. A read or a write that fails ends the program with its
// error.
#![tactic(auto)]

ghost use Rattle.std.specs.Prelude.{◌≡◌, length, IfOk};
ghost use Rattle.road_run.specs.Whole.{AtStart};
ghost use Rattle.run_road.specs.Watch.{Rows, May};

use read_personality::accepted;
use road_streams::{Stream, Traffic, bad_streams};
use rules::answer::Refusal;
use run_input::next_bytes;
use site_sound::SoundSite;
use site_whole::sound_site_of;
use std::alloc::Global;
use std::io;
use std::io::Read;

// The line of a refusal.
fn refuse(rt: &impl Print, number: u8, place: usize) -> io::Result<()> {
    println!(rt; "refused {number} {place}")
}

// The line of a stream.
fn show_stream(rt: &impl Print, stream: Stream, traffic: Traffic, longest: u16) -> io::Result<()> {
    let Stream {
        detector,
        group,
        rate,
    } = stream;
    let Traffic { queued, gone, .. } = traffic;
    let arrived = u64::from(queued) + u64::from(gone);
    println!(rt; "{detector} {group} {rate} {arrived} {queued} {gone} {longest}")
}

// The table. The streams are bytes, so stream i is read by its number.
#[tactic(auto, unfolding(road_streams::specs::Road::stream_count))]
fn show(rt: &impl Print, streams: &[u8], cells: &[Traffic], longest: &[u16]) -> io::Result<()>
    requires { Rows streams.now cells.now longest.now }
{
    println!(rt; "detector group rate arrived queued gone longest")?;
    for i in 0..streams.len() / 4 {
        let stream = road_streams::stream_at(streams, i);
        show_stream(rt, stream, cells[i], longest[i])?;
    }
    Ok(())
}

// Raises the longest queue of each stream to the queue it has now. The longest queues are a row of their own, because the road's step is lent the traffic alone.
// Both rows have room for 48 streams, so the number of streams in the bytes ends the loop.
#[tactic(auto, unfolding(road_streams::specs::Road::stream_count))]
fn watch(streams: &[u8], cells: &[Traffic], longest: &mut [u16])
    requires { Rows streams.now cells.now longest.old }
    ensures { length longest.new ≡ length longest.old }
{
    for i in 0..streams.len() / 4 {
        longest[i] = longest[i].max(cells[i].queued);
    }
}

// The steps of the road, watched.
fn run(site: &SoundSite, streams: &[u8], steps: u32, cells: &mut [Traffic], longest: &mut [u16])
    requires { AtStart site.now streams.now steps cells.old × Rows streams.now cells.old longest.old }
    ensures { Rows streams.now cells.new longest.new }
{
    let mut state = state_fresh::fresh();
    for n in 0..steps {
        state = road_step::road_stepped(site, streams, state, cells);
        watch(streams, cells, longest);
    }
}

// The road and its table.
fn run_and_show(rt: &impl Print, site: &SoundSite, streams: &[u8], steps: u32) -> io::Result<()>
    requires { May site.now streams.now steps }
{
    let mut cells = [Traffic::NONE; 48];
    let mut longest = [0u16; 48];
    run(site, streams, steps, &mut cells, &mut longest);
    show(rt, streams, &cells, &longest)
}

// The site of a personality, if neither it nor the streams are refused.
fn site_for(personality: &[u8], streams: &[u8], steps: u32) -> Result<SoundSite, Refusal>
    ensures { IfOk result (λ site. May site streams.now steps) }
{
    let p = accepted(personality)?;
    let site = sound_site_of(&p);
    if bad_streams(&site, streams, steps) {
        return Err(Refusal {
            number: 22,
            place: 0,
        });
    }
    Ok(site)
}

// The checks, and then the road.
fn try_road(rt: &impl Print, personality: &[u8], streams: &[u8], steps: u32) -> io::Result<()> {
    match site_for(personality, streams, steps) {
        Ok(site) => run_and_show(rt, &site, streams, steps),
        Err(Refusal { number, place }) => refuse(rt, number, place),
    }
}

// The road of a personality that should have `size` bytes. One that is cut short is refused before its own checks, and so is a cut number of steps. At most
// 196 bytes of streams are read, one stream more than a road may have.
fn read_road<R: Read>(rt: &impl Print, alloc: Global, input: &mut R, size: u16) -> io::Result<()> {
    let personality = next_bytes(alloc, input, u64::from(size))?;
    if personality.len() < usize::from(size) {
        return refuse(rt, 16, 0);
    }
    let number = next_bytes(alloc, input, 4)?;
    if number.len() < 4 {
        return refuse(rt, 16, 0);
    }
    let streams = next_bytes(alloc, input, 196)?;
    try_road(rt, &personality, &streams, base_bytes::four_at(&number, 0))
}

fn main(rt: HostRuntime) -> io::Result<()> {
    let alloc = rt.alloc();
    let mut input = rt.stdin();
    let head = next_bytes(alloc, &mut input, 2)?;
    if head.len() < 2 {
        return refuse(&rt, 16, 0);
    }
    read_road(&rt, alloc, &mut input, base_bytes::two_at(&head, 0))
}
