// The run's loop: from function to function, over the call frames that the host lends.
#![tactic(auto)]

ghost use Rattle.std.specs.Prelude.{◌≡◌, ◌+◌, ◌≤◌, ◌<◌, ◌^◌, length, take};
ghost use Rattle.model.specs.Values.{fault_number};
ghost use Rattle.model.specs.Steps.{World};
ghost use Rattle.run_arms.specs.Links.{Around, frame_in, entered};
ghost use Rattle.run_steps.specs.Links.{Ready, ExecPost};
ghost use Rattle.run_loop.specs.Links.{code_in, is_on, stands_paused, goes_on, goes_in, is_over, is_stopped, is_paused, Under, TurnsPost};

use frames::{push_frame, read_frame};
use layout::reads::{part, second};
use model::{Fault, Frame};
use run_arms::{Fixed, Going};
use run_steps::Event;

// How it is with a run: it goes on, it has ended, it is paused before an instruction that its units do not pay for, or a fault has stopped it.
#[derive(Clone, Copy)]
pub enum Turn {
    On,
    Over,
    Paused,
    Stopped(Fault),
}

// How far a run has come: the machine, when its current frame was entered, and how it is with it.
#[derive(Clone, Copy)]
pub struct Course {
    pub going: Going,
    pub entered: u64,
    pub turn: Turn,
}

// The number that a fault comes back as.
#[tactic(auto, unfolding(model::specs::Values::fault_number))]
pub fn fault_number(f: Fault) -> u8
    ensures { result ≡ fault_number f }
{
    match f {
        Fault::UnknownOpcode => 1,
        Fault::NotCarried => 2,
        Fault::CodeEnds => 3,
        Fault::TooFewValues => 4,
        Fault::WrongKind(_) => 5,
        Fault::OutOfRange => 6,
        Fault::NoLastResult => 7,
        Fault::ZeroDivisor => 8,
        Fault::NotFinite => 26,
        Fault::StackFull => 9,
        Fault::FramesFull => 10,
        Fault::CellsFull => 11,
        Fault::TooDeep => 12,
        Fault::NoFunction => 14,
    }
}

// The frame of the machine, which was entered when the run had spent so many units.
pub fn frame_of(g: Going, entered: u64) -> Frame
    ensures { result ≡ frame_in g entered }
{
    Frame {
        function: g.function,
        position: g.position,
        base: g.base,
        entered,
    }
}

// The steps inside the current function, whose code its word names: main and the others have separate stores. n bytes of text are taken.
fn advance(
    k: Fixed,
    g: Going,
    n: usize,
    constants: &[u64],
    functions: &[u64],
    text: &[u8],
    main: &[u8],
    other: &[u8],
    stack: &mut [u64],
    cells: &mut [u64],
) -> Event
    requires { ((w : World) × (a : Around) × Ready w a k g (code_in functions.now main.now other.now g.function) constants.now functions.now (take n text.now) stack.old cells.old) × (n ≤ length text.now) }
    ensures { (w : World) (a : Around) → Ready w a k g (code_in functions.now main.now other.now g.function) constants.now functions.now (take n text.now) stack.old cells.old → ExecPost w a k g stack.old cells.old result stack.new cells.new }
{
    let i = g.function;
    let word = second(functions, i);
    let taken = &text[..n];
    if i == 0 {
        let code = part(main, word);
        return run_steps::exec(k, g, code, constants, functions, taken, stack, cells);
    }
    let code = part(other, word);
    run_steps::exec(k, g, code, constants, functions, taken, stack, cells)
}

// Whether a run goes on.
fn is_on(turn: Turn) -> bool
    ensures { result ≡ is_on turn }
{
    match turn {
        Turn::On => true,
        _ => false,
    }
}

// Whether a run is paused.
pub fn stands_paused(turn: Turn) -> bool
    ensures { result ≡ stands_paused turn }
{
    match turn {
        Turn::Paused => true,
        _ => false,
    }
}

// A run that starts, or goes on, at g.
fn begun(g: Going, entered: u64) -> Course
    ensures { result ≡ goes_on g entered }
{
    Course {
        going: g,
        entered,
        turn: Turn::On,
    }
}

// A call: function i is entered, with base b, at the units that are spent now.
fn called(g: Going, i: usize, b: usize) -> Course
    requires { g.callers + 1 < 2 ^ 64 }
    ensures { result ≡ goes_in g (g.callers + 1) (entered i b g.spent) }
{
    let callee = Going {
        function: i,
        position: 0,
        base: b,
        callers: g.callers + 1,
        ..g
    };
    begun(callee, g.spent)
}

// The current frame is dropped: where its caller stands, which is then the innermost.
fn drop_frame(g: Going) -> usize
    requires { 0 < g.callers }
    ensures { g.callers ≡ result + 1 }
{
    g.callers - 1
}

// A return: back in the caller f, which stood at i.
fn resumed(g: Going, i: usize, f: Frame) -> Course
    ensures { result ≡ goes_in g i f }
{
    let caller = Going {
        function: f.function,
        position: f.position,
        base: f.base,
        callers: i,
        ..g
    };
    begun(caller, f.entered)
}

// A run that has ended.
fn over(g: Going, entered: u64) -> Course
    ensures { result ≡ is_over g entered }
{
    Course {
        going: g,
        entered,
        turn: Turn::Over,
    }
}

// A run that a fault has stopped.
fn stopped(g: Going, entered: u64, f: Fault) -> Course
    ensures { result ≡ is_stopped g entered f }
{
    Course {
        going: g,
        entered,
        turn: Turn::Stopped(f),
    }
}

// A run that is paused.
fn paused(g: Going, entered: u64) -> Course
    ensures { result ≡ is_paused g entered }
{
    Course {
        going: g,
        entered,
        turn: Turn::Paused,
    }
}

// The run from start on, whose frame was entered at so many units, up to its end or a fault, or as far as its units reach.
pub fn turns(
    k: Fixed,
    start: Going,
    entered: u64,
    n: usize,
    constants: &[u64],
    functions: &[u64],
    text: &[u8],
    main: &[u8],
    other: &[u8],
    stack: &mut [u64],
    cells: &mut [u64],
    frames: &mut [Frame],
) -> Course
    requires { (w : World) × Under w k start entered n constants.now functions.now text.now main.now other.now stack.old cells.old frames.old }
    ensures { (w : World) → Under w k start entered n constants.now functions.now text.now main.now other.now stack.old cells.old frames.old → TurnsPost w k start entered stack.old cells.old frames.old result stack.new cells.new frames.new }
{
    let mut c = begun(start, entered);
    // How many frames are entered the code says, so this is no `for`.
    while is_on(c.turn) {
        match advance(
            k, c.going, n, constants, functions, text, main, other, stack, cells,
        ) {
            Event::Over(g) => {
                let next = over(g, c.entered);
                c = next;
            }
            Event::Call(g, i, b) => {
                let f = frame_of(g, c.entered);
                push_frame(frames, g.callers, f);
                let next = called(g, i, b);
                c = next;
            }
            Event::Back(g) => {
                let i = drop_frame(g);
                let f = read_frame(frames, i);
                let next = resumed(g, i, f);
                c = next;
            }
            Event::Stopped(g, fault) => {
                let next = stopped(g, c.entered, fault);
                c = next;
            }
            Event::Paused(g) => {
                let next = paused(g, c.entered);
                c = next;
            }
        }
    }
    c
}
