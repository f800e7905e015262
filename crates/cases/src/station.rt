// What a case stands on, and what its commands make of it.

use crate::command::Command;
use crate::list::List;
use galmuvesh::{
    galmuvesh_derivation_check, galmuvesh_derivation_write, galmuvesh_passed_call,
    galmuvesh_passed_check, galmuvesh_passed_disable, galmuvesh_passed_enable,
    galmuvesh_passed_revert, galmuvesh_passed_run, galmuvesh_policy_read, galmuvesh_policy_write,
    galmuvesh_record_operate, galmuvesh_record_run, galmuvesh_walk_operate, galmuvesh_walk_run,
};
use std::convert::AsSlice;
use std::{fmt, io};

// The C interface gives a refusal as its number: this is of none.
const ACCEPTED: u8 = 0;

// What every byte that is lent is before the call, so that one left alone is seen: no answer, step or header is like it.
const LENT: u8 = 0xEE;

// What a figure that is lent is before the call, so that one left alone is told, too: no figure is as large.
const UNWRITTEN: u64 = u64::MAX;

// The longest buffer that is lent: two bytes more than the largest policy has.
const ROOM_MOST: usize = 260;

type Policy = [u64; policy::WORDS];

type Walk = [u64; walk::WORDS];

type Record = [u64; record::WORDS];

type Passed = [u64; galmuvesh::WORDS];

// A policy, a state of each engine, and the room or target that was said last.
#[derive(Drop)]
pub(crate) struct Station {
    policy: Policy,
    walk: Walk,
    record: Record,
    passed: Passed,
    number: Option<u64>,
}

impl Station {
    // The document's policy and fresh states, so that a case says all that it needs.
    pub(crate) fn new() -> Self {
        let mut policy = [0; policy::WORDS];
        put(&mut policy, &[0, 3, 2, 3, 1]);
        Station {
            policy,
            walk: [0; walk::WORDS],
            record: [0; record::WORDS],
            passed: [0; galmuvesh::WORDS],
            number: Some(0),
        }
    }

    pub(crate) fn obey(&mut self, rt: &impl Print, command: Command<'_>) -> io::Result<()> {
        match command {
            Command::Policy(words) => set(rt, &mut self.policy, words),
            Command::Walk(words) => set(rt, &mut self.walk, words),
            Command::Record(words) => set(rt, &mut self.record, words),
            Command::Passed(words) => set(rt, &mut self.passed, words),
            Command::Number(number) => {
                self.number = number;
                Ok(())
            }
            Command::After(bytes) => self.after(rt, bytes),
            Command::Walks(bytes) => self.ask(
                rt,
                Engine::Walk,
                &self.walk,
                bytes,
                galmuvesh_walk_operate,
            ),
            Command::Records(bytes) => self.ask(
                rt,
                Engine::Record,
                &self.record,
                bytes,
                galmuvesh_record_operate,
            ),
            Command::Read(bytes) => self.read(rt, bytes),
            Command::Run(trace) => self.run(rt, trace),
            Command::Steps(steps) => self.steps(rt, steps),
            Command::Write(room) => self.write(rt, room),
            Command::Derive(room) => self.derive(rt, room),
            Command::Call(signer) => self.pass(rt, signer, galmuvesh_passed_call),
            Command::Enable(target) => self.pass(rt, target, galmuvesh_passed_enable),
            Command::Disable(target) => self.pass(rt, target, galmuvesh_passed_disable),
            Command::Revert(target) => self.pass(rt, target, galmuvesh_passed_revert),
            Command::Check(target) => self.check(rt, target),
        }
    }

    // Words in order, from state to state of walk and record: `?` for each that either refuses.
    fn after(&mut self, rt: &impl Print, bytes: &[u8]) -> io::Result<()> {
        let (words, rest) = bytes.as_chunks::<2>();
        if words.is_empty() || !rest.is_empty() {
            unknown(rt)?;
        }
        for word in words {
            let word = u16::from_be_bytes(*word);
            let mut answer = LENT;
            let by_walk = galmuvesh_walk_operate(&self.policy, &mut self.walk, word, &mut answer);
            let by_record = galmuvesh_record_operate(
                &self.policy,
                &mut self.record,
                word,
                &mut answer,
            );
            if by_walk != ACCEPTED || by_record != ACCEPTED {
                unknown(rt)?;
            }
        }
        Ok(())
    }

    // Words asked of an engine from a state on, which stays: what became of each, `kept` where the state came back as it was.
    fn ask<S: AsSlice<u64> + Copy + PartialEq, F: Fn(&Policy, &mut S, u16, &mut u8) -> u8>(
        &self,
        rt: &impl Print,
        engine: Engine,
        before: &S,
        bytes: &[u8],
        operate: F,
    ) -> io::Result<()>
        requires { F.IsAlwaysCallable operate }
    {
        let (words, rest) = bytes.as_chunks::<2>();
        if words.len() != 1 || !rest.is_empty() {
            unknown(rt)?;
        }
        let mut state = *before;
        for word in words {
            let mut answer = LENT;
            let number = operate(
                &self.policy,
                &mut state,
                u16::from_be_bytes(*word),
                &mut answer,
            );
            print!(rt; " {engine} {number} {answer:02X}")?;
            if state == *before {
                rt.print(" kept")?;
            } else {
                print!(rt; " {}", List(state.as_slice()))?;
            }
        }
        Ok(())
    }

    // The bytes of what becomes the policy, the number, and the value, which is lent as 35 sevens.
    fn read(&mut self, rt: &impl Print, bytes: &[u8]) -> io::Result<()> {
        self.policy = [7; policy::WORDS];
        let number = galmuvesh_policy_read(bytes, &mut self.policy);
        print!(rt; " {} {number} {}", List(bytes), List(&self.policy))
    }

    // A trace by each engine.
    fn run(&self, rt: &impl Print, trace: &[u8]) -> io::Result<()> {
        for engine in [Engine::Walk, Engine::Record, Engine::Passed] {
            print!(rt; " {engine}")?;
            lend(rt, self.number, |answers, figure| {
                engine.run(&self.policy, trace, answers, figure)
            })?;
        }
        Ok(())
    }

    fn write(&self, rt: &impl Print, room: Option<u64>) -> io::Result<()> {
        lend(rt, room, |bytes, figure| {
            galmuvesh_policy_write(&self.policy, bytes, figure)
        })
    }

    fn derive(&self, rt: &impl Print, room: Option<u64>) -> io::Result<()> {
        let Some(target) = self.target() else {
            return unknown(rt);
        };
        lend(rt, room, |steps, figure| {
            galmuvesh_derivation_write(&self.policy, &self.walk, target, steps, figure)
        })
    }

    // The steps that are checked, number and figure.
    fn steps(&self, rt: &impl Print, steps: &[u8]) -> io::Result<()> {
        let Some(target) = self.target() else {
            return unknown(rt);
        };
        let mut figure = UNWRITTEN;
        let number = galmuvesh_derivation_check(
            &self.policy,
            &self.walk,
            target,
            steps,
            &mut figure,
        );
        print!(rt; " {} {number} {figure}", List(steps))
    }

    // An operation on the passed state: its number, and where it is accepted the state that it gives.
    fn pass<F: FnOnce(&Policy, &mut Passed, u8) -> u8>(
        &mut self,
        rt: &impl Print,
        of: u8,
        operate: F,
    ) -> io::Result<()>
        requires { F.IsAlwaysCallable operate }
    {
        let number = operate(&self.policy, &mut self.passed, of);
        print!(rt; " {number}")?;
        if number == ACCEPTED {
            print!(rt; " {}", List(&self.passed))?;
        }
        Ok(())
    }

    // A check of the passed state: its number, and where it is accepted the answer.
    fn check(&self, rt: &impl Print, target: u8) -> io::Result<()> {
        let mut answer = LENT;
        let number = galmuvesh_passed_check(&self.policy, &self.passed, target, &mut answer);
        print!(rt; " {number}")?;
        if number == ACCEPTED {
            print!(rt; " {answer:02X}")?;
        }
        Ok(())
    }

    // The number that was said last as a target, which a host gives as a byte.
    fn target(&self) -> Option<u8> {
        self.number.and_then(|number| u8::try_from(number).ok())
    }
}

#[derive(Clone, Copy, Debug)]
enum Engine {
    Walk,
    Record,
    Passed,
}

impl Engine {
    fn run(self, policy: &Policy, trace: &[u8], answers: &mut [u8], figure: &mut u64) -> u8 {
        match self {
            Engine::Walk => galmuvesh_walk_run(policy, trace, answers, figure),
            Engine::Record => galmuvesh_record_run(policy, trace, answers, figure),
            Engine::Passed => galmuvesh_passed_run(policy, trace, answers, figure),
        }
    }
}

impl fmt::Display for Engine {
    fn fmt<W: fmt::Write>(&self, f: &mut fmt::Formatter<W>) -> fmt::Result {
        match self {
            Engine::Walk => write!(f, "walk"),
            Engine::Record => write!(f, "record"),
            Engine::Passed => write!(f, "passed"),
        }
    }
}

// What stands for a command that is not understood.
pub(crate) fn unknown(rt: &impl Print) -> io::Result<()> {
    rt.print(" ?")
}

// The values, so many as there is room for, and zeros after them.
fn put(to: &mut [u64], values: &[u64]) {
    to.fill(0);
    for (word, value) in to.iter_mut().zip(values) {
        *word = *value;
    }
}

fn set(rt: &impl Print, to: &mut [u64], values: &[u64]) -> io::Result<()> {
    if to.len() < values.len() {
        unknown(rt)?;
    }
    put(to, values);
    Ok(())
}

// A buffer of some room lent to be written into: number and figure, and the bytes.
fn lend<F: FnOnce(&mut [u8], &mut u64) -> u8>(
    rt: &impl Print,
    room: Option<u64>,
    write: F,
) -> io::Result<()>
    requires { F.IsAlwaysCallable write }
{
    let mut space = [LENT; ROOM_MOST];
    let Some(buffer) = room.and_then(|room| space.get_mut(..room as usize)) else {
        return unknown(rt);
    };
    let mut figure = UNWRITTEN;
    let number = write(buffer, &mut figure);
    print!(rt; " {number} {figure} {}", List(buffer))
}
