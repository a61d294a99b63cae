// Makes host calls from a script on standard input, through the public entries, and prints each answer. The script's own comments say what its
// commands are.
#![tactic(auto)]

mod say; // say.rt: what is printed
mod reading; // reading.rt: the commands that read a machine
mod commands; // commands.rt: what a line asks, and all that needs no frames

ghost use Rattle.console_script.specs.Words.{first_line, line_of};
ghost use Rattle.std.specs.Prelude.{Some};
ghost use Rattle.console_frames.specs.Calls.{held, held_by};
ghost use Rattle.console_script.specs.Stored.{stored};
ghost use Rattle.console.specs.Lendings.{OverFrames};
ghost use Rattle.console.specs.Turns.{Turned, Played};
ghost use Rattle.console.specs.Said.{no_machine};

use crate::commands::{Lent, ask, no_machine, obey};
use crate::say::say_answer;
use console_frames::{Call, with_frames};
use console_script::stores::{self, Program, Stores};
use console_script::{Line, bytes_of, cut, first_line, front, next_line, three_each, two_each};
use model::Vm;

// A call over frames, lent its image and as much of the copy store and the backtrace store as it asks; the machine as it then is.
// (The stores one by one: of a part of a store that is a field of a struct, the proof does not tell what the store holds behind the call.)
fn over_frames(
    rt: &impl Print,
    m: Vm,
    call: Call,
    lent: Lent,
    image: &[u8],
    program: &mut Program,
    stack: &mut stores::Stack,
    cells: &mut stores::Cells,
    copy: &mut [u64],
    trace: &mut [u64],
    frames: &mut stores::Frames,
) -> Vm
    ensures { OverFrames m call image.now lent (held (stored program.old) stack.old cells.old copy.old trace.old frames.old) result (held (stored program.new) stack.new cells.new copy.new trace.new frames.new) }
{
    let words = two_each(lent.copy, copy.len());
    let entries = three_each(lent.trace, trace.len());
    let lent_copy = &mut copy[..words];
    let lent_trace = &mut trace[..entries];
    let answer = with_frames(
        m,
        call,
        image,
        &mut program.constants,
        &mut program.structs,
        &mut program.functions,
        &mut program.text,
        &mut program.main,
        &mut program.main_places,
        &mut program.other,
        &mut program.other_places,
        stack,
        cells,
        lent_copy,
        lent_trace,
        frames,
    );
    say_answer(rt, m, answer, cells, trace)
}

// One line; the machine as it then is.
fn turn(rt: &impl Print, m: Vm, l: Line, script: &[u8], stores: &mut Stores) -> Vm
    ensures { Turned (line_of script.now l) m (held_by stores.old) result (held_by stores.new) }
{
    let line = bytes_of(script, l);
    let mut space = [0u8; 16384];
    let Some((call, lent)) = ask(line, &mut space) else {
        return obey(rt, m, line, l.number, stores);
    };
    let image = front(&space, lent.image);
    over_frames(
        rt,
        m,
        call,
        lent,
        image,
        &mut stores.program,
        &mut stores.stack,
        &mut stores.cells,
        &mut stores.copy,
        &mut stores.trace,
        &mut stores.frames,
    )
}

// The script, line by line.
fn play(rt: &impl Print, script: &[u8], stores: &mut Stores)
    ensures { Played script.now (Some (first_line script.now)) no_machine (held_by stores.old) (held_by stores.new) }
{
    let mut m = no_machine();
    let mut next = Some(first_line(script));
    // Where the next line begins is read off this one, so this is no `for`.
    while let Some(l) = next {
        m = turn(rt, m, l, script, stores);
        next = next_line(l, script);
    }
}

fn main(rt: HostRuntime) {
    let mut input = [0u8; 131072];
    let n = streams::read_full(&mut rt.reader(), &mut input);
    let program = Program {
        constants: [0; 512],
        structs: [0; 512],
        functions: [0; 512],
        text: [0; 16384],
        main: [0; 8192],
        main_places: [0; 8192],
        other: [0; 8192],
        other_places: [0; 8192],
    };
    let mut stores = Stores {
        program,
        stack: [0; 2048],
        cells: [0; 4096],
        copy: [0; 2048],
        trace: [0; 768],
        frames: [0; 1024],
    };
    play(&rt, cut(&input, 0, n), &mut stores);
}
