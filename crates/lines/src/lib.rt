// The text of a listing: its lines, and the pages that a buffer of any size takes of them.
#![tactic(auto)]

ghost use Rattle.std.specs.Prelude.{◌≡◌, ◌+◌, ◌<◌, ◌≤◌, ◌++◌, length};
ghost use Rattle.arrayvec.specs.ArrayString.{array_string_len};
ghost use Rattle.answers.specs.Account.{report_of};
ghost use Rattle.lines.specs.Text.{item, start, verdict};
ghost use Rattle.lines.specs.Text.{policy_line, check_line, end_line, refused_line, last_line, word_line};
ghost use Rattle.lines.specs.Page.{words_run, report_in, run_line, run_page};
ghost use Rattle.lines.specs.Promise.{Delivers, Lined, Fills};

use answers::Report;
use arrayvec::ArrayString;
use policy::Policy;
use words::{Operation, Word};

// Room for the longest line: three numbers of at most 20 digits, and "forbidden" between them.
pub const LINE_MOST: usize = 80;

// A line that is composed. It always has room, and `push_str` and `push` ask for a proof of that; `write!` would not say that it succeeds.
// It is lent and composed anew, and not handed out: a page has many lines, and each would be copied.
type Line = ArrayString<LINE_MOST>;

// A run's report as a listing tells it: the number for no, 0 for none, and the figure. A number, and not a `Refusal`: a page answers
// for every report, that of a host with numbers of its own too.
#[derive(Clone, Copy)]
pub struct Told {
    pub number: u8,
    pub figure: u64,
}

impl From<Report> for Told {
    ghost from_gives = { λ report told. report_in told ≡ report_of report };

    fn from(report: Report) -> Told {
        match report {
            Ok(figure) => Told { number: 0, figure },
            Err(stop) => Told {
                number: stop.why.number(),
                figure: stop.at,
            },
        }
    }
}

// A run that is listed: what it ran, what it answered, and its report.
#[derive(Clone, Copy)]
pub struct Run<'a> {
    pub policy: &'a Policy,
    pub trace: &'a [u8],
    pub answers: &'a [u8],
    pub report: Told,
}

// Where the next page begins, and how many bytes this one has.
#[derive(Clone, Copy)]
pub struct Filled {
    pub next: usize,
    pub len: usize,
}

// A number, and the character that ends it.
#[inline]
fn push_item(line: &mut Line, n: u64, end: char)
    requires ascii { end < 128 }
    requires room { array_string_len line.old + 21 ≤ LINE_MOST }
    ensures text { line.new.bytes ≡ line.old.bytes ++ item n end }
    ensures len { array_string_len line.new ≤ array_string_len line.old + 21 }
{
    line.push_str(itoa::Buffer::new().format(n));
    line.push(end);
}

// The start by its name, which ends the policy's line.
fn start(full: bool) -> &'static str
    ensures text { result.now ≡ start full }
    ensures len { length result.now ≤ 6 }
{
    if full { "full\n" } else { "empty\n" }
}

// The verdict by its name.
fn verdict(granted: bool) -> &'static str
    ensures text { result.now ≡ verdict granted }
    ensures len { length result.now ≤ 10 }
{
    if granted { "granted " } else { "forbidden " }
}

// The policy's line.
fn policy_text(line: &mut Line, policy: &Policy)
    ensures { line.new.bytes ≡ policy_line policy.now }
{
    line.clear();
    line.push_str("policy ");
    push_item(line, policy::signers(policy), ' ');
    push_item(line, policy::targets(policy), ' ');
    line.push_str(start(policy::is_full(policy)));
}

// A check's line. The answer is a byte with its kind, as C reads it and as a page takes it.
fn check_text(line: &mut Line, index: usize, target: u8, answer: u8)
    ensures { line.new.bytes ≡ check_line index target answer }
{
    line.clear();
    push_item(line, index as u64, ' ');
    push_item(line, target as u64, ' ');
    line.push_str(verdict(answer / 64 == 1));
    push_item(line, (answer % 64) as u64, '\n');
}

// The last line where every word was run.
fn end_text(line: &mut Line, words: u64)
    ensures { line.new.bytes ≡ end_line words }
{
    line.clear();
    line.push_str("end ");
    push_item(line, words, '\n');
}

// The last line where a word, or all of it, was refused.
fn refused_text(line: &mut Line, number: u8, index: u64)
    ensures { line.new.bytes ≡ refused_line number index }
{
    line.clear();
    line.push_str("refused ");
    push_item(line, number as u64, ' ');
    push_item(line, index, '\n');
}

// A line to the front of a buffer, whole or not at all: how many bytes it has.
fn deliver(line: &Line, out: &mut [u8]) -> Option<usize>
    ensures { Delivers result out.old out.new line.now.bytes }
{
    let len = line.len();
    if out.len() < len {
        return None;
    }
    out[..len].copy_from_slice(line.as_str().as_bytes());
    Some(len)
}

// The policy's line. Each of these four answers how many bytes it wrote, as it is promised: none where the buffer is too short.
pub fn policy_line(policy: &Policy, out: &mut [u8]) -> usize
    ensures { Lined result out.old out.new (policy_line policy.now) }
{
    let mut line = Line::new();
    policy_text(&mut line, policy);
    deliver(&line, out).unwrap_or(0)
}

// A check's line, by its word index, its target and its answer byte.
pub fn check_line(index: usize, target: u8, answer: u8, out: &mut [u8]) -> usize
    ensures { Lined result out.old out.new (check_line index target answer) }
{
    let mut line = Line::new();
    check_text(&mut line, index, target, answer);
    deliver(&line, out).unwrap_or(0)
}

// The last line of a run that was accepted.
pub fn end_line(words: u64, out: &mut [u8]) -> usize
    ensures { Lined result out.old out.new (end_line words) }
{
    let mut line = Line::new();
    end_text(&mut line, words);
    deliver(&line, out).unwrap_or(0)
}

// The last line of a run that was refused, and the only one of a refused policy.
pub fn refused_line(number: u8, index: u64, out: &mut [u8]) -> usize
    ensures { Lined result out.old out.new (refused_line number index) }
{
    let mut line = Line::new();
    refused_text(&mut line, number, index);
    deliver(&line, out).unwrap_or(0)
}

impl Run<'_> {
    // How many words of the trace were run.
    fn words(&self) -> usize
        ensures { result ≡ words_run self.now.trace.now self.now.report.figure }
    {
        (self.trace.len() / 2).min(self.report.figure as usize)
    }

    // A word's line where it is a check, nothing where it is not, or is refused. Where the answers are too few the check was not granted.
    fn word(&self, line: &mut Line, index: usize)
        ensures { line.new.bytes ≡ word_line self.now.policy.now self.now.trace.now self.now.answers.now index }
    {
        line.clear();
        let word = words::word_at(self.trace, index);
        let Ok(Word { op, index: at }) = policy::decode(self.policy, word, index) else {
            return;
        };
        if let Operation::Check(target) = op {
            let answer = self.answers.get(index).copied().unwrap_or(0);
            check_text(line, at, target, answer);
        }
    }

    // The last line, by the report.
    fn last(&self, line: &mut Line)
        ensures { line.new.bytes ≡ last_line self.now.report.number self.now.report.figure }
    {
        let Told { number, figure } = self.report;
        if number == 0 {
            end_text(line, figure)
        } else {
            refused_text(line, number, figure)
        }
    }

    // The line at a place of the listing: the policy's, those of the words that were run, the last.
    fn line(&self, line: &mut Line, place: usize)
        ensures { line.new.bytes ≡ run_line self.now place }
    {
        if place == 0 {
            policy_text(line, self.policy)
        } else if place - 1 < self.words() {
            self.word(line, place - 1)
        } else {
            self.last(line)
        }
    }
}

// A page of the listing of a run: as many whole lines from a place on as the buffer takes. A buffer of LINE_MOST bytes takes at least one.
pub fn fill(run: &Run<'_>, from: usize, out: &mut [u8]) -> Filled
    ensures { Fills result out.old out.new (run_page run.now (length out.old) from) }
{
    let mut line = Line::new();
    let mut page = Filled { next: from, len: 0 };
    for place in from..run.words() + 2 {
        run.line(&mut line, place);
        let Some(more) = deliver(&line, &mut out[page.len..]) else {
            return page;
        };
        page = Filled {
            next: place + 1,
            len: page.len + more,
        };
    }
    page
}
