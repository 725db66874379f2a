// What the programs share: writing a text, the file that a program's argument names, standard input as it comes, and its lines.
//
// No public function but `for_each_line` has a `requires`, and that one asks no more than a step which may be called. What is read and
// whether it is written is the system's, and no contract can say it; bytes that were read lie within the buffer that was lent for
// them. What is said of the arguments, of a file that cannot be read and of output that cannot be written goes to standard error.
//
// All that is read is read into a buffer that is lent, of a fixed size: no program can run out of memory.
#![tactic(auto)]

ghost use Rattle.std.specs.Prelude.{◌≡◌, ◌≤◌, ℕ, length, get_or, IfOk, IfSome, OnErr};

use std::env::{Env, FillError};
use std::io::{Input, Print, Read};
use std::rt::Files;
use std::{fs, io, str};

// An argument of any length fits: the system hands a program no longer one.
const NAME_MOST: usize = 131072;

// ---- the system

// The system, as far as the programs use it: arguments, files, standard input and output, and bytes for standard error,
// which no trait of std has. A test may bring its own.
pub trait System: Env + Files + Input + Print {
    // Writes a text to standard error. Where even that is lost nothing is left to do.
    fn complain(&self, text: &[u8]);
}

impl System for HostRuntime {
    fn complain(&self, text: &[u8]) {
        let _ = self.stderr().write_all(text);
    }
}

// A program cannot do what it is asked for. What there is to say of that stands on standard error already.
#[derive(Clone, Copy, Debug, PartialEq, Eq)]
pub struct Failure;

// Says on standard error what stands in the way.
pub fn failed(rt: &impl System, why: &[u8]) -> Failure {
    rt.complain(why);
    Failure
}

// ---- room

// Room for so many bytes, all of them 0. It ensures its length, which lending needs: a check that counts the zeros of a large array runs
// out of stack.
pub fn room<const N: usize>() -> [u8; N]
    ensures value { N ≡ length result }
    ensures by_index { (i : ℕ) → get_or result i 0 ≡ 0 }
{
    [0; N]
}

// ---- writing

// Writes a text to standard output, all of it and at once.
pub fn say(rt: &impl System, text: &[u8]) -> Result<(), Failure> {
    rt.write_all(text)
        .map_err(|_| failed(rt, b"cannot write\n"))
}

// ---- arguments

// The bytes of the argument of this number, UTF-8 or not. One that is longer than the buffer is not handed out, and counts as one
// without bytes, as one that is not there.
pub fn argument<'a>(rt: &impl System, number: usize, buf: &'a mut [u8]) -> &'a [u8]
    ensures { length result.now ≤ length buf.old }
{
    let Ok(n) = rt.arg(number, buf) else {
        return &[];
    };
    &buf[..n]
}

// How many arguments the program has, its name being one.
pub fn argument_count(rt: &impl System) -> usize {
    (0..usize::MAX)
        .find(|number| !is_given(rt, *number))
        .unwrap_or(usize::MAX)
}

// Is there an argument of this number. One that has bytes is too long for a buffer that has no room.
fn is_given(rt: &impl System, number: usize) -> bool {
    !matches!(rt.arg(number, &mut []), Err(FillError::NotPresent))
}

// Has the program its one argument. Where it has none, or more than one, the usage line is written.
pub fn has_argument(rt: &impl System, usage: &[u8]) -> Result<(), Failure> {
    if argument_count(rt) == 2 {
        Ok(())
    } else {
        Err(failed(rt, usage))
    }
}

// ---- the file that the argument names

// The file that the program's one argument names, as `named_file` has it; none where there is not one argument. That the bytes lie
// within the buffer is said of a result beside an argument, here, in `named_file` and in `read_piece`: no invariant of a type can hold
// it.
pub fn argument_file<'a>(
    rt: &impl System,
    usage: &[u8],
    buf: &'a mut [u8],
) -> Result<&'a [u8], Failure>
    ensures { IfOk result (λ bytes. length bytes.now ≤ length buf.old) }
{
    has_argument(rt, usage)?;
    named_file(rt, buf)
}

// The file that the program's argument names, from its first byte to its end or as far as buf goes. Where it cannot be
// opened or read to its end, `cannot read` and its name are written. A path is text, so a name that is no UTF-8 cannot be opened.
// It is not inlined, so that the room of the name is on the stack while the file is read and no longer.
#[inline(never)]
pub fn named_file<'a>(rt: &impl System, buf: &'a mut [u8]) -> Result<&'a [u8], Failure>
    ensures { IfOk result (λ bytes. length bytes.now ≤ length buf.old) }
{
    let mut space = room::<NAME_MOST>();
    let name = argument(rt, 1, &mut space);
    let Ok(n) = read_file(rt, name, buf) else {
        rt.complain(b"cannot read ");
        rt.complain(name);
        return Err(failed(rt, b"\n"));
    };
    Ok(&buf[..n])
}

// How many bytes the file of this name gave. Of one that cannot be read to its end nothing is read.
fn read_file(rt: &impl System, name: &[u8], buf: &mut [u8]) -> io::Result<usize>
    ensures { IfOk result (λ n. n ≤ length buf.new) }
{
    let Ok(path) = str::from_utf8(name) else {
        return Err(io::Error::from(io::ErrorKind::NotFound));
    };
    let mut file = fs::open(rt, path)?;
    let (n, end) = fill(&mut file, buf);
    end.map(|()| n)
}

// Reads until buf is full, the input ends or a read fails: how many bytes that gave, and how it ended.
fn fill(reader: &mut impl Read, buf: &mut [u8]) -> (usize, io::Result<()>)
    ensures { result.0 ≤ length buf.new }
{
    let mut filled = 0;
    while filled < buf.len() {
        match reader.read(&mut buf[filled..]) {
            Ok(0) => break,
            Ok(n) => filled += n,
            Err(why) => return (filled, Err(why)),
        }
    }
    (filled, Ok(()))
}

// ---- standard input, whole and as it comes

// Standard input to its end, or as far as buf goes. A read that fails counts as the end.
pub fn read_input<'a>(rt: &impl System, buf: &'a mut [u8]) -> &'a [u8]
    ensures { length result.now ≤ length buf.old }
{
    let (n, _) = fill(&mut rt.reader(), buf);
    &buf[..n]
}

// One read of standard input, of at most so many bytes: what is there, be it less; nothing at its end. Where it cannot be
// read that is written.
pub fn read_piece<'a>(rt: &impl System, most: usize, buf: &'a mut [u8]) -> Result<&'a [u8], Failure>
    ensures prefix_len { IfOk result (λ bytes. length bytes.now ≤ length buf.old) }
    ensures length_le_most { IfOk result (λ bytes. length bytes.now ≤ most) }
{
    let room = most.min(buf.len());
    let Ok(n) = rt.reader().read(&mut buf[..room]) else {
        return Err(failed(rt, b"cannot read standard input\n"));
    };
    Ok(&buf[..n])
}

// ---- lines of standard input

// The next line of standard input without its end, LF or CR LF. Of a line that is longer than the buffer the rest is
// passed over. There is none where the input has ended; a read that fails counts as the end.
pub fn read_line<'a>(rt: &impl System, buf: &'a mut [u8]) -> Option<&'a [u8]>
    ensures { IfSome result (λ line. length line.now ≤ length buf.old) }
{
    let mut n = 0;
    let mut is_there = false;
    for byte in rt.reader().bytes() {
        let Ok(byte) = byte else {
            break;
        };
        is_there = true;
        if byte == b'\n' {
            break;
        }
        if n < buf.len() {
            buf[n] = byte;
            n += 1;
        }
    }
    let line = &buf[..n];
    is_there.then_some(line.strip_suffix(b"\r").unwrap_or(line))
}

// Hands each line of standard input to a step, as `read_line` reads it, until there is none or a step fails.
//
// Nothing says that an input ends, so the lines are counted, up to a number that no input uses up.
pub fn for_each_line<F: FnMut(&[u8]) -> Result<(), Failure>>(
    rt: &impl System,
    buf: &mut [u8],
    mut step: F,
) -> Result<(), Failure>
    requires { F.IsAlwaysCallable step }
    ensures { OnErr result ((state : F) × (line : _) × (next : F) × F.step state line result next) }
{
    for _ in 0..u64::MAX {
        let Some(line) = read_line(rt, buf) else {
            return Ok(());
        };
        step(line)?;
    }
    Ok(())
}
