// The function of `bench` as the measuring program calls it.

#![tactic(auto)]

ghost use Rattle.std.specs.Prelude.{◌≡◌};
ghost use Rattle.bench.specs.Bench.{events_answer, events_leave};

// Takes up the trail and carries out the events: 41 to 47 with the second number of 43 and 44, or how many were accepted.
#[unsafe(no_mangle)]
pub extern "C" fn conform_bench_events(trail: &mut [u8], events: &[u8]) -> u64
    ensures answer { result ≡ events_answer trail.old events.now }
    ensures trail_after { trail.new ≡ events_leave trail.old events.now }
{
    bench::conform_bench_events(trail, events)
}
