// Shows what each tone on standard input reads as under the sheet in a file, or why the sheet is refused and which row
// stands at the refusal's place. A tone is a line of eight hexadecimal digits, the bit pattern of its f32 in kHz.
#![tactic(auto)]

use shell::{Failure, System, argument_file, for_each_line, say};
use shown_tones::{print_sheet, print_tone};

const USAGE: &[u8] =
    b"usage: show_tones SHEET < TONES, a tone a line as the 8 hexadecimal digits of its f32 in kHz\n";

// What the line reads as. Each room of the program is of a fixed size: there is no heap, and it cannot run out of
// memory.
fn show_line(rt: &impl System, sheet: &[u8], line: &[u8]) -> Result<(), Failure> {
    let mut text = [0; 4096];
    let n = print_tone(sheet, line, &mut text);
    say(rt, &text[..n])
}

// Nothing is printed of an accepted sheet but its lines. It is not inlined, so that no room for a text is on the stack while the file is
// read.
#[inline(never)]
fn show_sheet(rt: &impl System, sheet: &[u8]) -> Result<(), Failure> {
    let mut text = [0; 4096];
    let n = print_sheet(sheet, &mut text);
    if n > 0 {
        return say(rt, &text[..n]);
    }
    let mut space = [0; 80];
    for_each_line(rt, &mut space, |line| show_line(rt, sheet, line))
}

fn show(rt: &impl System) -> Result<(), Failure> {
    let mut space = [0; 65536];
    let sheet = argument_file(rt, USAGE, &mut space)?;
    show_sheet(rt, sheet)
}

// A failure has been told; the status stays 0, since the commands at the root make it of what is printed.
fn main(rt: HostRuntime) {
    let _ = show(&rt);
}
