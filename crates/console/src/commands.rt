// What a line asks, and all that needs no frames.
ghost use Rattle.std.specs.Prelude.{◌≡◌};
ghost use Rattle.console.specs.Asks.{lent_whole, ask_new, ask_strict, ask_start, ask_traced, ask_continue, ask_load, ask_of, is_code, is_constant, is_name, is_look, is_read, is_said, group_of};
ghost use Rattle.console.specs.Said.{no_machine, after_damage};
ghost use Rattle.console_damage.specs.Sums.{sum_of};
ghost use Rattle.console_damage.specs.Damage.{frame_args, frame_asked};
ghost use Rattle.console_frames.specs.Calls.{held_by};
ghost use Rattle.console.specs.Turns.{obeyed};

use crate::{reading, say};
use console_damage::{mixed_bytes, mixed_counts, mixed_places, mixed_words};
use console_emission::Kind;
use console_frames::Call;
use console_script::{Args, Most, stores, word};
use emission_code::current_offset;
use emission_functions::get_function_idx;
use layout::reads::same_bytes;
use model::{Counts, Frame, Run, Vm};

// How much a call over frames is lent: bytes of the space, which are its image, and places of the copy store and of the backtrace store.
#[derive(Clone, Copy)]
pub struct Lent {
    pub image: usize,
    pub copy: usize,
    pub trace: usize,
}

// A call that is lent the copy store and the backtrace store whole.
#[tactic(auto, unfolding(crate::specs::Asks::lent_whole))]
fn lent_whole(image: usize) -> Lent
    ensures { result ≡ lent_whole image }
{
    let whole = console_script::whole();
    Lent {
        image,
        copy: whole,
        trace: whole,
    }
}

// `new`.
#[tactic(auto, unfolding(crate::specs::Asks::ask_new))]
fn ask_new(line: &[u8]) -> Option<(Call, Lent)>
    ensures { result ≡ ask_new line.now }
{
    if !console_script::words_from(line, 1).is_empty() {
        return None;
    }
    Some((Call::New, lent_whole(0)))
}

// `strict 0`, `strict 1`.
#[tactic(auto, unfolding(crate::specs::Asks::ask_strict))]
fn ask_strict(line: &[u8]) -> Option<(Call, Lent)>
    ensures { result ≡ ask_strict line.now }
{
    let most = Most {
        a: 1,
        b: 0,
        c: 0,
        d: 0,
        e: 0,
    };
    let args = console_script::read_args(line, 1, 2, most)?;
    Some((Call::Strict(args.a == 1), lent_whole(0)))
}

// `start`, `start ROOM`.
#[tactic(auto, unfolding(crate::specs::Asks::ask_start))]
fn ask_start(line: &[u8]) -> Option<(Call, Lent)>
    ensures { result ≡ ask_start line.now }
{
    let lent = Lent {
        image: 0,
        copy: console_script::read_room(line, 1)?,
        trace: console_script::whole(),
    };
    Some((Call::Begin, lent))
}

// A call that is lent so much of the backtrace store as word k says: `trace`, `trace ROOM`, `abandon`, `abandon ROOM`.
#[tactic(auto, unfolding(crate::specs::Asks::ask_traced))]
fn ask_traced(call: Call, line: &[u8], k: usize) -> Option<(Call, Lent)>
    ensures { result ≡ ask_traced call line.now k }
{
    let lent = Lent {
        image: 0,
        copy: console_script::whole(),
        trace: console_script::read_room(line, k)?,
    };
    Some((call, lent))
}

// `continue UNITS`, `continue UNITS ROOM`.
#[tactic(auto, unfolding(crate::specs::Asks::ask_continue))]
fn ask_continue(line: &[u8]) -> Option<(Call, Lent)>
    ensures { result ≡ ask_continue line.now }
{
    let units = console_script::decimal(word(line, 1))?;
    ask_traced(Call::Continue(units), line, 2)
}

// `image HEX`. Its bytes go into space.
#[tactic(auto, unfolding(crate::specs::Asks::ask_load))]
fn ask_load(line: &[u8], space: &mut stores::Space) -> Option<(Call, Lent)>
    ensures { record { asked = result; space = space.new } ≡ ask_load line.now space.old }
{
    let size = console_script::read_bytes(console_script::words_from(line, 1), space)?;
    Some((Call::Load, lent_whole(size)))
}

// The call over frames that a line asks; none where it asks something else.
pub fn ask(line: &[u8], space: &mut stores::Space) -> Option<(Call, Lent)>
    ensures { record { asked = result; space = space.new } ≡ ask_of line.now space.old }
{
    let what = word(line, 0);
    if same_bytes(what, b"new") {
        return ask_new(line);
    }
    if same_bytes(what, b"trace") {
        return ask_traced(Call::Trace, line, 1);
    }
    if same_bytes(what, b"start") {
        return ask_start(line);
    }
    if same_bytes(what, b"continue") {
        return ask_continue(line);
    }
    if same_bytes(what, b"abandon") {
        return ask_traced(Call::Abandon, line, 1);
    }
    if same_bytes(what, b"image") {
        return ask_load(line, space);
    }
    if same_bytes(what, b"strict") {
        return ask_strict(line);
    }
    None
}

// The commands that need no frames, in groups. An enum, and no table of closures: which command it is comes with the line, and each has its own rule, which
// the match names.
#[derive(Clone, Copy)]
pub enum Group {
    Emit(Kind),
    Look,
    Read,
    Count,
    Result,
    Poke,
    Frame,
    Sum,
    Said,
    Unknown,
}

// The words of each group stand in a function of its own, as they stand in a definition of its own: one that takes the words would be no plainer.
fn is_code(what: &[u8]) -> bool
    ensures { result ≡ is_code what.now }
{
    same_bytes(what, b"op")
        | same_bytes(what, b"op1")
        | same_bytes(what, b"op2")
        | same_bytes(what, b"op3")
}

fn is_constant(what: &[u8]) -> bool
    ensures { result ≡ is_constant what.now }
{
    same_bytes(what, b"scalar")
        | same_bytes(what, b"boolean")
        | same_bytes(what, b"string")
        | same_bytes(what, b"reference")
}

fn is_name(what: &[u8]) -> bool
    ensures { result ≡ is_name what.now }
{
    same_bytes(what, b"struct") | same_bytes(what, b"begin") | same_bytes(what, b"end")
}

fn is_look(what: &[u8]) -> bool
    ensures { result ≡ is_look what.now }
{
    same_bytes(what, b"offset")
        | same_bytes(what, b"find")
        | same_bytes(what, b"save")
        | same_bytes(what, b"list")
}

fn is_read(what: &[u8]) -> bool
    ensures { result ≡ is_read what.now }
{
    same_bytes(what, b"last")
        | same_bytes(what, b"stack")
        | same_bytes(what, b"header")
        | same_bytes(what, b"element")
        | same_bytes(what, b"text")
}

// A blank line, or a comment.
fn is_said(what: &[u8]) -> bool
    ensures { result ≡ is_said what.now }
{
    if what.len() == 0 {
        return true;
    }
    what[0] == b'#'
}

fn group_of(what: &[u8]) -> Group
    ensures { result ≡ group_of what.now }
{
    if is_said(what) {
        return Group::Said;
    }
    if is_code(what) {
        return Group::Emit(Kind::Code);
    }
    if is_constant(what) {
        return Group::Emit(Kind::Constant);
    }
    if is_name(what) {
        return Group::Emit(Kind::Name);
    }
    if is_look(what) {
        return Group::Look;
    }
    if is_read(what) {
        return Group::Read;
    }
    if same_bytes(what, b"patch") {
        return Group::Emit(Kind::Patch);
    }
    if same_bytes(what, b"count") {
        return Group::Count;
    }
    if same_bytes(what, b"result") {
        return Group::Result;
    }
    if same_bytes(what, b"poke") {
        return Group::Poke;
    }
    if same_bytes(what, b"frame") {
        return Group::Frame;
    }
    if same_bytes(what, b"sum") {
        return Group::Sum;
    }
    Group::Unknown
}

// A comment that begins with `#!` is echoed.
fn echo(rt: &impl Print, line: &[u8]) {
    if same_bytes(word(line, 0), b"#!") {
        say::say(rt, console_script::words_from(line, 1));
        say::say(rt, b"\n");
    }
}

// `save`: the image, in hex, from so much room.
fn save(rt: &impl Print, c: Counts, room: usize, program: &stores::Program) {
    let mut space = [0u8; 16384];
    let n = console_script::at_most(room, space.len());
    match image_save::save(c, &program.lent(), &mut space[..n]) {
        Ok(size) => {
            say::say_count(rt, b"image ", size);
            say::say(rt, b" ");
            say::say_bytes(rt, console_script::front(&space, size));
        }
        Err(e) => say::say_refused(rt, e),
    }
}

// `list`: the listing, from so much room.
fn list(rt: &impl Print, c: Counts, room: usize, p: &stores::Program) {
    let mut space = [0u8; 16384];
    let n = console_script::at_most(room, space.len());
    let told = listing::disassemble(c, &p.functions, &p.text, &p.main, &p.other, &mut space[..n]);
    match told {
        Ok(size) => say::say(rt, console_script::front(&space, size)),
        Err(e) => say::say_refused(rt, e),
    }
}

// `find HEX`.
fn find(rt: &impl Print, c: Counts, line: &[u8], number: u64, p: &stores::Program) {
    let mut space = [0u8; 16384];
    let read = console_script::read_bytes(console_script::words_from(line, 1), &mut space);
    let Some(size) = read else {
        say::say_unknown(rt, number);
        return;
    };
    let name = console_script::front(&space, size);
    say::say_told(rt, get_function_idx(c, name, &p.functions, &p.text));
}

// `offset`, `find HEX`, `save`, `list`, the last two with the ROOM of the space that they are lent.
fn look(rt: &impl Print, c: Counts, line: &[u8], number: u64, p: &stores::Program) {
    let what = word(line, 0);
    if same_bytes(what, b"offset") {
        say::say_told(rt, current_offset(c, &p.functions));
        return;
    }
    if same_bytes(what, b"find") {
        find(rt, c, line, number, p);
        return;
    }
    let Some(room) = console_script::read_room(line, 1) else {
        say::say_unknown(rt, number);
        return;
    };
    if same_bytes(what, b"save") {
        save(rt, c, room, p);
        return;
    }
    list(rt, c, room, p);
}

// Damage is not answered, unless it is not understood.
#[tactic(auto, unfolding(crate::specs::Said::after_damage))]
fn damaged(rt: &impl Print, m: Vm, d: Option<Vm>, number: u64) -> Vm
    ensures { result ≡ after_damage m d }
{
    let Some(damaged) = d else {
        say::say_unknown(rt, number);
        return m;
    };
    damaged
}

fn poked(rt: &impl Print, good: bool, number: u64) {
    if !good {
        say::say_unknown(rt, number);
    }
}

// The numbers of a frame's line.
fn frame_args(line: &[u8], end: usize) -> Option<Args>
    ensures { result ≡ frame_args line.now end }
{
    let most = 0xFFFF_FFFF_FFFF;
    console_script::read_args(
        line,
        1,
        end,
        Most {
            a: most,
            b: most,
            c: most,
            d: most,
            e: most,
        },
    )
}

// `frame I` shows a frame, `frame I FUNCTION POSITION BASE ENTERED` puts one.
#[tactic(auto, unfolding(console_damage::specs::Damage::frame_asked))]
fn frame(rt: &impl Print, line: &[u8], number: u64, frames: &mut [u64])
    ensures { frames.new ≡ frame_asked line.now frames.old }
{
    if let Some(one) = frame_args(line, 2) {
        say::say_frame(rt, console_damage::frame_in(frames, one.a as usize));
        return;
    }
    let Some(all) = frame_args(line, 6) else {
        say::say_unknown(rt, number);
        return;
    };
    let f = Frame {
        function: all.b as usize,
        position: all.c as usize,
        base: all.d as usize,
        entered: all.e,
    };
    console_damage::put_frame(frames, all.a as usize, f);
}

// The checksum of the counts, the last result, the run that is under way and all stores.
fn sum(m: Vm, s: &stores::Stores) -> u64
    ensures { result ≡ sum_of m s.now.program.constants s.now.program.structs s.now.program.functions s.now.program.text s.now.program.main s.now.program.main_places s.now.program.other s.now.program.other_places s.now.stack s.now.cells s.now.copy s.now.trace s.now.frames }
{
    let p = &s.program;
    let a = mixed_counts(0, m);
    let b = mixed_words(a, &p.constants);
    let c = mixed_words(b, &p.structs);
    let d = mixed_words(c, &p.functions);
    let e = mixed_bytes(d, &p.text);
    let f = mixed_bytes(e, &p.main);
    let g = mixed_places(f, &p.main_places);
    let h = mixed_bytes(g, &p.other);
    let i = mixed_places(h, &p.other_places);
    let j = mixed_words(i, &s.stack);
    let k = mixed_words(j, &s.cells);
    let n = mixed_words(k, &s.copy);
    let o = mixed_words(n, &s.trace);
    mixed_words(o, &s.frames)
}

// A line that needs no frames; the machine as it then is.
#[tactic(auto, unfolding(crate::specs::Turns::obeyed, crate::specs::Turns::obeyed_by, crate::specs::Turns::with_frames))]
pub fn obey(rt: &impl Print, m: Vm, line: &[u8], number: u64, stores: &mut stores::Stores) -> Vm
    ensures { record { m = result; held = held_by stores.new } ≡ obeyed line.now m (held_by stores.old) }
{
    let group = group_of(word(line, 0));
    match group {
        Group::Emit(kind) => {
            let e = console_emission::emit(m.run.on, m.program, kind, line, &mut stores.program);
            return say::say_emitted(rt, m, e, number);
        }
        Group::Count => return damaged(rt, m, console_damage::with_count(m, line), number),
        Group::Result => return damaged(rt, m, console_damage::with_result(m, line), number),
        Group::Poke => {
            let good = console_damage::poke(
                line,
                &mut stores.program,
                &mut stores.stack,
                &mut stores.cells,
            );
            poked(rt, good, number);
        }
        Group::Frame => frame(rt, line, number, &mut stores.frames),
        Group::Look => look(rt, m.program, line, number, &stores.program),
        Group::Read => reading::read(
            rt,
            m,
            line,
            number,
            &stores.program.text,
            &stores.stack,
            &stores.cells,
        ),
        Group::Sum => say::say_sum(rt, sum(m, stores)),
        Group::Said => echo(rt, line),
        Group::Unknown => say::say_unknown(rt, number),
    }
    m
}

// A machine before any is made: nothing is in good order yet.
pub fn no_machine() -> Vm
    ensures { result ≡ no_machine }
{
    let program = Counts {
        constants: 0,
        structs: 0,
        functions: 0,
        text: 0,
        current: 0,
    };
    let run = Run {
        on: false,
        given: 0,
        spent: 0,
        returns: 0,
        mark: 0,
        saved: 0,
    };
    Vm {
        program,
        stack: 0,
        frames: 0,
        cells: 0,
        last: None,
        run,
        strict: false,
    }
}
