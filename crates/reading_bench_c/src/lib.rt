// What C calls: each call of reading_bench under its own name, with the same line and the same
// contract. include/reading_bench.h declares them. A slice is passed as a pointer and a length.
#![tactic(auto)]

ghost use Rattle.reading_bench.specs.Calls.{BenchBound, BenchVerdict};
ghost use Rattle.reading_bench.specs.Calls.{BenchMargins, BenchSchedule};

// Writes the bound of a load: 4 bytes, little-endian.
#[unsafe(no_mangle)]
pub extern "C" fn bench_bound(load: &[u8], out: &mut [u8]) -> u32
    ensures { BenchBound load.now out.old result out.new }
{
    reading_bench::bench_bound(load, out)
}

// Writes the verdict of a load: 1 byte, 1 for yes and 0 for no.
#[unsafe(no_mangle)]
pub extern "C" fn bench_verdict(load: &[u8], out: &mut [u8]) -> u32
    ensures { BenchVerdict load.now out.old result out.new }
{
    reading_bench::bench_verdict(load, out)
}

// Writes all margins of a load: 96 bytes, 4 to a row, little-endian two's complement.
#[unsafe(no_mangle)]
pub extern "C" fn bench_margins(load: &[u8], out: &mut [u8]) -> u32
    ensures { BenchMargins load.now out.old result out.new }
{
    reading_bench::bench_margins(load, out)
}

// Writes the schedule file of a load: the starts of its run, from fresh to Done.
#[unsafe(no_mangle)]
pub extern "C" fn bench_schedule(load: &[u8], out: &mut [u8]) -> u32
    ensures { BenchSchedule load.now out.old result out.new }
{
    reading_bench::bench_schedule(load, out)
}
