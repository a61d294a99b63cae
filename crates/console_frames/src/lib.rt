// The calls over frames: for each the frames are laid into a slice of records, and kept in numbers after it.
#![tactic(auto)]

ghost use Rattle.std.specs.Prelude.{◌≡◌};
ghost use Rattle.model.specs.Stores.{stores_of};
ghost use Rattle.console_frames.specs.Resting.{all_laid, all_kept};
ghost use Rattle.console_frames.specs.Calls.{held, Called, Bridged};

use console_damage::{frame_in, put_frame};
use frames::read_frame;
use layout::lent::ProgramStores;
use model::{Frame, Halt, Refusal, Vm};

// The frames that rest in words, as records.
pub fn lay(frames: &mut [Frame], words: &[u64])
    ensures { frames.new ≡ all_laid words.now frames.old }
{
    for i in (0..frames.len()).rev() {
        frames[i] = frame_in(words, i);
    }
}

// The records, kept in words.
pub fn keep(frames: &[Frame], words: &mut [u64])
    ensures { words.new ≡ all_kept frames.now words.old }
{
    for i in (0..frames.len()).rev() {
        put_frame(words, i, read_frame(frames, i));
    }
}

// A call over frames. The image of Load is lent beside it. An enum, and no closure: which call it is comes with the line, and what it asks for is held and
// looked at before it is made.
#[derive(Clone, Copy)]
pub enum Call {
    New,
    Load,
    Begin,
    Continue(u64),
    Abandon,
    Trace,
    Strict(bool),
}

// What a call answers.
#[derive(Clone, Copy)]
pub enum Answer {
    Made(Result<Vm, Refusal>),
    Ran(Result<Halt, Refusal>),
    Traced(Result<usize, Refusal>),
    Set(Result<Vm, Refusal>),
}

// The call, over frames that are laid before it and kept after it. The program's stores are lent one by one, as slices: each may be of any length, and
// Load writes them all.
pub fn act(
    m: Vm,
    call: Call,
    image: &[u8],
    constants: &mut [u64],
    structs: &mut [u64],
    functions: &mut [u64],
    text: &mut [u8],
    main: &mut [u8],
    main_places: &mut [u32],
    other: &mut [u8],
    other_places: &mut [u32],
    stack: &mut [u64],
    cells: &mut [u64],
    frames: &mut [Frame],
    copy: &mut [u64],
    trace: &mut [u64],
    words: &mut [u64],
) -> Answer
    ensures { Called m call image.now (all_laid words.old frames.old) (held (stores_of constants.old structs.old functions.old text.old main.old main_places.old other.old other_places.old) stack.old cells.old copy.old trace.old words.old) result frames.new (held (stores_of constants.new structs.new functions.new text.new main.new main_places.new other.new other_places.new) stack.new cells.new copy.new trace.new words.new) }
{
    lay(frames, words);
    // The stores as one value, for the calls that read them: New and Load write them.
    let program = ProgramStores {
        constants,
        structs,
        functions,
        text,
        main,
        main_places,
        other,
        other_places,
    };
    match call {
        Call::New => {
            let s = machine::new(m.run.on, functions, text, frames);
            keep(frames, words);
            Answer::Made(s)
        }
        Call::Load => {
            let s = machine::load(
                m.run.on,
                image,
                constants,
                structs,
                functions,
                text,
                main,
                main_places,
                other,
                other_places,
                frames,
            );
            keep(frames, words);
            Answer::Made(s)
        }
        Call::Begin => {
            let x = machine::begin(m, &program, stack, cells, frames, copy);
            keep(frames, words);
            Answer::Ran(x)
        }
        Call::Continue(units) => {
            let x = machine::continue_run(m, units, &program, stack, cells, frames, copy, trace);
            keep(frames, words);
            Answer::Ran(x)
        }
        Call::Abandon => {
            let x = machine::abandon(m, &program, stack, cells, frames, copy, trace);
            keep(frames, words);
            Answer::Ran(x)
        }
        Call::Trace => Answer::Traced(machine::backtrace(
            m,
            program.functions,
            program.text,
            program.main,
            program.main_places,
            program.other,
            program.other_places,
            stack,
            frames,
            trace,
        )),
        Call::Strict(strict) => Answer::Set(machine::set_strict(
            m, strict, &program, stack, cells, frames, copy,
        )),
    }
}

// The call, over frames that rest in words.
pub fn with_frames(
    m: Vm,
    call: Call,
    image: &[u8],
    constants: &mut [u64],
    structs: &mut [u64],
    functions: &mut [u64],
    text: &mut [u8],
    main: &mut [u8],
    main_places: &mut [u32],
    other: &mut [u8],
    other_places: &mut [u32],
    stack: &mut [u64],
    cells: &mut [u64],
    copy: &mut [u64],
    trace: &mut [u64],
    words: &mut [u64],
) -> Answer
    ensures { Bridged m call image.now (held (stores_of constants.old structs.old functions.old text.old main.old main_places.old other.old other_places.old) stack.old cells.old copy.old trace.old words.old) result (held (stores_of constants.new structs.new functions.new text.new main.new main_places.new other.new other_places.new) stack.new cells.new copy.new trace.new words.new) }
{
    let none = Frame {
        function: 0,
        position: 0,
        base: 0,
        entered: 0,
    };
    let mut frames = [none; 256];
    act(
        m,
        call,
        image,
        constants,
        structs,
        functions,
        text,
        main,
        main_places,
        other,
        other_places,
        stack,
        cells,
        &mut frames,
        copy,
        trace,
        words,
    )
}
