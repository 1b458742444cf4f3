// Judges modules by tests 1 to 4, and prints a line for each: `good`, or `refused 2 at 40`. Standard input is a list
// of commands (tools/layout_cases.py).
#![tactic(auto)]

ghost use Rattle.std.specs.Prelude.{◌≡◌, ◌≢◌, ◌<◌, ◌≤◌, length, IfOk, OnErr};
ghost use Rattle.layout_cases.specs.Commands.{NumberRead, NumberFailed, ReplaceFailed};

use module_tests::module_refusal;
use program_support::input::read_full;
use program_support::print::Lines;
use refusal::Refusal;
use std::io;
use std::io::Read;

// Room for a module and more.
const ROOM: usize = 70000;

// The most commands.
const COMMANDS: u32 = 1000000;

// What tests 1 to 4 say of a module, if they are asked.
type Verdict = Option<Result<(), Refusal>>;

// Judges the first n bytes.
fn judge(base: &[u8], n: usize) -> Verdict
    requires { n ≤ length base.now }
{
    Some(module_refusal(&base[..n]))
}

// A number of four bytes, no larger than the room.
fn read_number<R: Read>(input: &mut R) -> io::Result<usize>
    ensures ok { IfOk result (λ n. n ≤ 70000) }
    ensures number { IfOk result (λ n. NumberRead (R.remaining input.old) (R.remaining input.new) n) }
    ensures err { OnErr result (NumberFailed (R.remaining input.old) (R.remaining input.new)) }
{
    let mut b = [0u8; 4];
    read_full(input, &mut b)?;
    let n = u32::from_le_bytes([b[0], b[1], b[2], 0]) as usize;
    Ok(n.min(ROOM))
}

fn read_byte(input: &mut impl Read) -> io::Result<u8> {
    let mut b = [0u8; 1];
    read_full(input, &mut b)?;
    Ok(b[0])
}

// After a command: the length of the base, and the verdict.
#[derive(Clone, Copy)]
struct Step {
    n: usize,
    verdict: Verdict,
}

// A new base.
fn replace<R: Read>(input: &mut R, base: &mut [u8; ROOM]) -> io::Result<Step>
    ensures ok { IfOk result (λ r. r.n ≤ 70000) }
    ensures err { OnErr result (ReplaceFailed (R.remaining input.old) (R.remaining input.new) base.old base.new) }
{
    let n = read_number(input)?;
    read_full(input, &mut base[..n])?;
    let verdict = judge(base, n);
    Ok(Step { n, verdict })
}

// The base cut.
fn cut(input: &mut impl Read, base: &[u8; ROOM], n: usize) -> io::Result<Step>
    requires { n ≤ 70000 }
    ensures { IfOk result (λ r. r.n ≤ 70000) }
{
    let end = read_number(input)?;
    let verdict = judge(base, end);
    Ok(Step { n, verdict })
}

// The base with a byte changed.
fn change(input: &mut impl Read, base: &mut [u8; ROOM], n: usize) -> io::Result<Step>
    requires { n ≤ 70000 }
    ensures ok { IfOk result (λ r. r.n ≤ 70000) }
    ensures err { OnErr result (base.new ≡ base.old) }
{
    let place = read_number(input)?;
    let value = read_byte(input)?;
    if ROOM <= place {
        return Ok(Step { n, verdict: None });
    }
    let old = base[place];
    base[place] = value;
    let verdict = judge(base, n);
    base[place] = old;
    Ok(Step { n, verdict })
}

// The base made longer, as far as there is room.
fn lengthen(input: &mut impl Read, base: &mut [u8; ROOM], n: usize) -> io::Result<Step>
    requires { n ≤ 70000 }
    ensures ok { IfOk result (λ r. r.n ≤ 70000) }
    ensures err { OnErr result (base.new ≡ base.old) }
{
    let more = read_number(input)?;
    if ROOM - n < more {
        return Ok(Step { n, verdict: None });
    }
    let end = n + more;
    base[n..end].fill(0);
    let verdict = judge(base, end);
    Ok(Step { n: end, verdict })
}

// One command. If a read fails, only M (77), a new base, may have written into the base.
fn run<R: Read>(input: &mut R, command: u8, base: &mut [u8; ROOM], n: usize) -> io::Result<Step>
    requires { n ≤ 70000 }
    ensures ok { IfOk result (λ r. r.n ≤ 70000) }
    ensures replace_err { OnErr result (command ≡ 77 → ReplaceFailed (R.remaining input.old) (R.remaining input.new) base.old base.new) }
    ensures other_err { OnErr result (command ≢ 77 → base.new ≡ base.old) }
{
    match command {
        b'M' => replace(input, base),
        b'T' => cut(input, base, n),
        b'B' => change(input, base, n),
        _ => lengthen(input, base, n),
    }
}

fn put_verdict(lines: &mut Lines<impl Print>, verdict: Verdict) -> io::Result<()> {
    match verdict {
        None => Ok(()),
        Some(Ok(())) => lines.put_text(b"good\n"),
        Some(Err(refusal)) => lines.put_refused(refusal.number(), refusal.place()),
    }
}

fn main(rt: HostRuntime) -> io::Result<()> {
    let mut input = rt.stdin();
    let mut base = [0u8; ROOM];
    let mut lines = Lines::new(&rt);
    let mut n: usize = 0;
    for _ in 0..COMMANDS {
        let mut command = [0u8; 1];
        if read_full(&mut input, &mut command)? < 1 {
            break;
        }
        let step = run(&mut input, command[0], &mut base, n)?;
        put_verdict(&mut lines, step.verdict)?;
        n = step.n;
    }
    lines.flush()
}
