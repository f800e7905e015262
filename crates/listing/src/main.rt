// The listing program: reads a policy followed by a trace, and prints what became of each check.
#![tactic(auto)]

ghost use Rattle.std.specs.Prelude.{◌≤◌, length};
ghost use Rattle.std.specs.Io.KnownBytes.{Consumes};

use answers::Refusal;
use lines::{Filled, Run};
use policy::Policy;
use std::io;
use std::io::Read;
use walk::Walk;

// The longest input, which is also the length of the buffers for input and output: arrays, since the program takes no memory but its own.
const INPUT_MOST: usize = 65536;

// Reads until the buffer is full, the input ends or a read fails, which counts as the end: the bytes that it read, which the input
// then no longer has. `read_exact` and `read_to_end` do not say what was read before a read that failed.
fn read_full<'b, R: Read>(input: &mut R, buffer: &'b mut [u8]) -> &'b [u8]
    ensures bound { length result.now ≤ length buffer.old }
    ensures bytes { Consumes (R.remaining input.old) (R.remaining input.new) result.now }
{
    let mut done = 0;
    while done < buffer.len() {
        match input.read(&mut buffer[done..]) {
            Ok(0) | Err(_) => break,
            Ok(n) => done += n,
        }
    }
    &buffer[..done]
}

// Whether there is input past what was read.
fn more_follows(input: &mut impl Read) -> bool {
    input.read(&mut [0u8; 1]).is_ok_and(|n| n != 0)
}

// The only line of an input that is refused as a whole.
fn print_refused(rt: &impl Print, why: Refusal) -> io::Result<()> {
    let mut line = [0u8; lines::LINE_MOST];
    let len = lines::refused_line(why.number(), 0, &mut line);
    rt.write_all(&line[..len])
}

// One write for each page. It stops where the text ends, or where the output takes no more. A `loop`, since each page says where the
// next one begins.
fn print_pages(rt: &impl Print, run: &Run<'_>) -> io::Result<()> {
    let mut page = [0u8; INPUT_MOST];
    let mut place = 0;
    loop {
        let Filled { next, len } = lines::fill(run, place, &mut page);
        if next == place {
            return Ok(());
        }
        rt.write_all(&page[..len])?;
        place = next;
    }
}

// Runs the trace, with room for an answer to each word of the longest input.
fn print_run(rt: &impl Print, policy: &Policy, trace: &[u8]) -> io::Result<()> {
    let mut answers = [0u8; INPUT_MOST / 2];
    let report = runner::run::<Walk>(policy, trace, &mut answers);
    let run = Run {
        policy,
        trace,
        answers: &answers,
        report: report.into(),
    };
    print_pages(rt, &run)
}

// The policy, and where it is accepted the run of the trace after it.
fn print_listing(rt: &impl Print, input: &[u8]) -> io::Result<()> {
    let mut policy = [0u64; policy::WORDS];
    let (head, trace) = input.split_at(policy::cut(input));
    match policy::read(head, &mut policy) {
        Ok(()) => print_run(rt, &policy, trace),
        Err(why) => print_refused(rt, why),
    }
}

// An output that takes no more ends the program, and quietly.
fn main(rt: HostRuntime) {
    let mut stdin = rt.stdin();
    let mut buffer = [0u8; INPUT_MOST];
    let input = read_full(&mut stdin, &mut buffer);
    let _ = if input.len() == INPUT_MOST && more_follows(&mut stdin) {
        print_refused(&rt, Refusal::LeftOver)
    } else {
        print_listing(&rt, input)
    };
}
