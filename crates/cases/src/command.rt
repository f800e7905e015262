// A command, read from its text: a space, its word, and its list.

ghost use Rattle.std.specs.Prelude.{◌≤◌, length, IsSome, IfSome};

use arrayvec::ArrayVec;
use std::str;

// The most values of a list: as many as a belief record has.
const VALUES_MOST: usize = record::WORDS;

// The values of a list.
type Values<T> = ArrayVec<T, VALUES_MOST>;

// Room for the values of a command, lent to one after the other: so no memory is asked for.
#[derive(Drop)]
pub(crate) struct Lists {
    words: Values<u64>,
    bytes: Values<u8>,
}

impl Lists {
    pub(crate) fn new() -> Self {
        Lists {
            words: Values::new(),
            bytes: Values::new(),
        }
    }
}

#[derive(Clone, Copy, Debug)]
pub(crate) enum Command<'a> {
    // These say what stands: a policy, a state, and a room or a target, which is none where the list is not one number.
    Policy(&'a [u64]),
    Walk(&'a [u64]),
    Record(&'a [u64]),
    Passed(&'a [u64]),
    Number(Option<u64>),
    // These ask something of it: by bytes, by the room of a buffer, by a signer or a target.
    After(&'a [u8]),
    Walks(&'a [u8]),
    Records(&'a [u8]),
    Read(&'a [u8]),
    Run(&'a [u8]),
    Steps(&'a [u8]),
    Write(Option<u64>),
    Derive(Option<u64>),
    Call(u8),
    Enable(u8),
    Disable(u8),
    Revert(u8),
    Check(u8),
}

impl<'a> Command<'a> {
    // None where the text is not one, as where there is none.
    pub(crate) fn parse(text: &[u8], lists: &'a mut Lists) -> Option<Self>
        ensures { IsSome result → 1 ≤ length text.now }
    {
        let text = str::from_utf8(text)
            .ok()?
            .strip_prefix(' ')?
            .trim_start_matches(' ');
        let (word, list) = text.split_once(' ').unwrap_or((text, ""));
        let Lists { words, bytes } = lists;
        // Zeros before a word count for nothing, as those before a number.
        Some(match word.trim_start_matches('0') {
            "policy" => Command::Policy(values(list, decimal, words)?),
            "walk" => Command::Walk(values(list, decimal, words)?),
            "record" => Command::Record(values(list, decimal, words)?),
            "passed" => Command::Passed(values(list, decimal, words)?),
            "room" | "target" => Command::Number(number(list, words)?),
            "after" => Command::After(values(list, hexadecimal, bytes)?),
            "walks" => Command::Walks(values(list, hexadecimal, bytes)?),
            "records" => Command::Records(values(list, hexadecimal, bytes)?),
            "read" => Command::Read(values(list, hexadecimal, bytes)?),
            "run" => Command::Run(values(list, hexadecimal, bytes)?),
            "steps" => Command::Steps(values(list, hexadecimal, bytes)?),
            "write" => Command::Write(number(list, words)?),
            "derive" => Command::Derive(number(list, words)?),
            "call" => Command::Call(index(list, words)?),
            "enable" => Command::Enable(index(list, words)?),
            "disable" => Command::Disable(index(list, words)?),
            "revert" => Command::Revert(index(list, words)?),
            "check" => Command::Check(index(list, words)?),
            _ => return None,
        })
    }
}

// A list's one number: none where it has none or more.
fn number(list: &str, words: &mut Values<u64>) -> Option<Option<u64>> {
    match values(list, decimal, words)? {
        [number] => Some(Some(*number)),
        _ => Some(None),
    }
}

// A signer or a target, which a host gives as a byte.
fn index(list: &str, words: &mut Values<u64>) -> Option<u8> {
    u8::try_from(number(list, words)??).ok()
}

// A list's values, parted by spaces: `x62` says how often the one before it stands in all. None where a value is not one, or has no room.
fn values<'a, T: Copy + Default, F: Fn(&str) -> Option<T>>(
    list: &str,
    parse: F,
    values: &'a mut Values<T>,
) -> Option<&'a [T]>
    requires { F.IsAlwaysCallable parse }
    ensures { IfSome result (λ list. length list.now ≤ 4096) }
{
    values.clear();
    for token in list.split(' ').filter(|token| !token.is_empty()) {
        let (value, more) = match token.strip_prefix('x') {
            Some(times) => (*values.last()?, decimal(times)?.checked_sub(1)?),
            None => (parse(token)?, 1),
        };
        for _ in 0..more {
            values.try_push(value).ok()?;
        }
    }
    Some(values.as_slice())
}

// A number in decimal. The library would take a sign before it.
fn decimal(token: &str) -> Option<u64> {
    if token.starts_with('+') {
        return None;
    }
    token.parse().ok()
}

// A byte of two hexadecimal digits. The library would take small letters and a sign, too.
fn hexadecimal(token: &str) -> Option<u8> {
    let is_digit = |letter| matches!(letter, b'0'..=b'9' | b'A'..=b'F');
    if token.len() != 2 || !token.bytes().all(is_digit) {
        return None;
    }
    u8::from_str_radix(token, 16).ok()
}
