// Document 01's cases on both sides, run: reads them, one a line, and prints each with what became of it, by the functions that
// a host calls. A line is a name, ` | ` and commands parted by `;`, each a word and its list: `call 3 | room 1; run 03 00`. A
// list is decimal numbers, or bytes of two hexadecimal digits; `x62` after a value says that it stands 62 times in all.
#![tactic(auto)]

ghost use Rattle.std.specs.Prelude.{◌<◌, ◌≤◌, length, IfOk};
ghost use Rattle.std.specs.Io.KnownBytes.{Consumes, IsAtEnd};

mod command;
mod list;
mod station;

use command::{Command, Lists};
use station::Station;
use std::io::{self, Read};

// The longest input that is read, into an array: the program takes no memory but its own.
const INPUT_MOST: usize = 65536;

// A line. One without a name before a bar is told as it is. The letter between them, a space, belongs to neither.
fn case(rt: &impl Print, line: &[u8], lists: &mut Lists) -> io::Result<()> {
    let mut halves = line.splitn(2, |letter| *letter == b'|');
    let (Some([name @ .., _]), Some(commands)) = (halves.next(), halves.next()) else {
        return rt.write_all(line);
    };
    rt.write_all(name)?;
    rt.print(':')?;
    let mut station = Station::new();
    for text in commands.split_inclusive(|letter| *letter == b';') {
        match Command::parse(text.strip_suffix(b";").unwrap_or(text), lists) {
            Some(command) => station.obey(rt, command)?,
            None => station::unknown(rt)?,
        }
    }
    Ok(())
}

// Reads until the buffer is full or the input ends: the bytes that it read, which the input then no longer has.
fn read_full<'b, R: Read>(input: &mut R, buffer: &'b mut [u8]) -> io::Result<&'b [u8]>
    ensures bound { IfOk result (λ read. length read.now ≤ length buffer.old) }
    ensures bytes { IfOk result (λ read. Consumes (R.remaining input.old) (R.remaining input.new) read.now) }
    ensures end { IfOk result (λ read. length read.now < length buffer.old → IsAtEnd (R.remaining input.new)) }
{
    let mut done = 0;
    while done < buffer.len() {
        let n = input.read(&mut buffer[done..])?;
        if n == 0 {
            break;
        }
        done += n;
    }
    Ok(&buffer[..done])
}

// Each line with what became of it.
fn main(rt: HostRuntime) -> io::Result<()> {
    let mut buffer = [0u8; INPUT_MOST];
    let input = read_full(&mut rt.stdin(), &mut buffer)?;
    let mut lists = Lists::new();
    for line in input.split_inclusive(|letter| *letter == b'\n') {
        case(&rt, line.strip_suffix(b"\n").unwrap_or(line), &mut lists)?;
        rt.print('\n')?;
    }
    Ok(())
}
