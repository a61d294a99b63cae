// The machine's entries for a host in C: numbers and slices alone. `include/chaffwheel.h` declares them, docs/EMBEDDING.md shows their use.
#![tactic(auto)]

pub mod checking; // checking.rt: an image is checked before it is installed
pub mod emission; // emission.rt: a program is written
pub mod reading; // reading.rt: a machine is read

ghost use Rattle.std.specs.Prelude.{◌≡◌, false, List, [], ℕ};
ghost use Rattle.model.specs.declared.Vm.{Vm};
ghost use Rattle.model.specs.Stores.{Stores};
ghost use Rattle.model.specs.Loading.{save_of, list_of};
ghost use Rattle.model.specs.Machines.{begins, continues, abandons, set_strict, backtrace_in, load_machine_of, new_machine_of};
ghost use Rattle.layout.specs.Links.{names_lent};
ghost use Rattle.model.specs.Stores.{stores_of as lent};
ghost use Rattle.listing.specs.Links.{lent as listed};
ghost use Rattle.run_ends.specs.Links.{program_lent};
ghost use Rattle.machine.specs.Links.{run_lent};
ghost use Rattle.embed_words.specs.Coding.{vm_in, slices_refusal, at_entry, at_listing, unmade, changed_coded, through, RunThrough, start_through, out_through};

use embed_answers::{tell, tell_changed, tell_run, tell_started, tell_unmade};
use embed_refusals::{
    crossed_idle, crossed_order, crossed_running, out_refusal, record_ok, slices_refusal,
};
use embed_words::vm_of;
use layout::lent::ProgramStores;
use machine::running::order;
use machine::starting::no_place;
use machine::tracing::trace_order;
use machine::{abandon, backtrace, begin, continue_run, load, new, set_strict};
use model::Frame;

// A machine over a new program. Where a run is under way in the record, that is told first (25), so what is made is made with none.
#[unsafe(no_mangle)]
pub extern "C" fn chaffwheel_new(
    vm: &mut [u64],
    functions: &mut [u64],
    text: &mut [u8],
    frames: &mut [Frame],
    answer: &mut [u64],
) -> u32
    ensures { (rest : Stores) → record {
      coded = record { number = result; vm = vm.new; answer = answer.new };
      stores = names_lent rest functions.new text.new;
      frames = frames.new;
    } ≡ start_through vm.old answer.old (names_lent rest functions.old text.old) frames.old
        (new_machine_of false (names_lent rest functions.old text.old) frames.old) }
{
    let why = out_refusal(vm, 1, answer);
    if why == 0 {
        let made = new(false, functions, text, frames);
        return tell_started(made, vm, answer);
    }
    why
}

// What loading answers where the record refuses: what is wrong with the image comes before a record or an answer that is too short. vm is any record.
fn unloaded(why: u32, image: &[u8], answer: &mut [u64]) -> u32
    ensures { (w : List ℕ) (s : Stores) (fs : List Frame) → record { number = result; vm = w; answer = answer.new }
        ≡ unmade why (load_machine_of false image.now s fs).answer w answer.old }
{
    let made = no_place(image);
    tell_unmade(why, made, answer)
}

// A machine over the program of an image.
#[unsafe(no_mangle)]
pub extern "C" fn chaffwheel_load(
    image: &[u8],
    vm: &mut [u64],
    constants: &mut [u64],
    structs: &mut [u64],
    functions: &mut [u64],
    text: &mut [u8],
    main: &mut [u8],
    main_places: &mut [u32],
    other: &mut [u8],
    other_places: &mut [u32],
    frames: &mut [Frame],
    answer: &mut [u64],
) -> u32
    ensures { record {
      coded = record { number = result; vm = vm.new; answer = answer.new };
      stores = lent constants.new structs.new functions.new text.new
          main.new main_places.new other.new other_places.new;
      frames = frames.new;
    } ≡ start_through vm.old answer.old
        (lent constants.old structs.old functions.old text.old
        main.old main_places.old other.old other_places.old) frames.old
        (load_machine_of false image.now
        (lent constants.old structs.old functions.old text.old
        main.old main_places.old other.old other_places.old) frames.old) }
{
    let why = out_refusal(vm, 1, answer);
    if why == 0 {
        let made = load(
            false,
            image,
            constants,
            structs,
            functions,
            text,
            main,
            main_places,
            other,
            other_places,
            frames,
        );
        return tell_started(made, vm, answer);
    }
    unloaded(why, image, answer)
}

// Whether the machine is strict from now on. It tells nothing, so no words are asked for an answer; and no backtrace is written, so what is promised is so
// of any store for one.
#[unsafe(no_mangle)]
pub extern "C" fn chaffwheel_set_strict(
    strict: bool,
    vm: &mut [u64],
    constants: &[u64],
    structs: &[u64],
    functions: &[u64],
    text: &[u8],
    main: &[u8],
    main_places: &[u32],
    other: &[u8],
    other_places: &[u32],
    stack: &[u64],
    cells: &[u64],
    frames: &[Frame],
    copy: &[u64],
) -> u32
    ensures { (trace : List ℕ) → record { number = result; vm = vm.new; answer = [] }
        ≡ through at_entry (slices_refusal vm.old 0 []) vm.old [] (changed_coded (set_strict strict (vm_in vm.old)
        (program_lent structs.now constants.now functions.now text.now
        main.now main_places.now other.now other_places.now)
        (run_lent stack.now cells.now frames.now copy.now trace)) vm.old []) }
{
    let stores = ProgramStores {
        constants,
        structs,
        functions,
        text,
        main,
        main_places,
        other,
        other_places,
    };
    let good = record_ok(vm);
    if good {
        let m = vm_of(vm);
        let changed = set_strict(m, strict, &stores, stack, cells, frames, copy);
        return tell_changed(changed, vm);
    }
    19
}

// A run of the machine is begun: the stack is copied, and all frames were entered at 0 units. No backtrace is written, so what is promised is so of any
// store for one.
#[unsafe(no_mangle)]
pub extern "C" fn chaffwheel_begin(
    vm: &mut [u64],
    constants: &[u64],
    structs: &[u64],
    functions: &[u64],
    text: &[u8],
    main: &[u8],
    main_places: &[u32],
    other: &[u8],
    other_places: &[u32],
    stack: &[u64],
    cells: &[u64],
    frames: &mut [Frame],
    copy: &mut [u64],
    answer: &mut [u64],
) -> u32
    ensures { (trace : List ℕ) → RunThrough begins vm.old answer.old
        (program_lent structs.now constants.now functions.now text.now
        main.now main_places.now other.now other_places.now)
        (run_lent stack.now cells.now frames.old copy.old trace)
        (record { number = result; vm = vm.new; answer = answer.new })
        (run_lent stack.now cells.now frames.new copy.new trace) }
{
    let stores = ProgramStores {
        constants,
        structs,
        functions,
        text,
        main,
        main_places,
        other,
        other_places,
    };
    let why = slices_refusal(vm, 5, answer);
    let m = vm_of(vm);
    if why == 0 {
        let result = begin(m, &stores, stack, cells, frames, copy);
        return tell_run(result, vm, answer);
    }
    let good = order(m, &stores, stack, cells, frames, copy);
    crossed_running(why, m, good)
}

// The machine's run goes on, with `units` more.
#[unsafe(no_mangle)]
pub extern "C" fn chaffwheel_continue(
    units: u64,
    vm: &mut [u64],
    constants: &[u64],
    structs: &[u64],
    functions: &[u64],
    text: &[u8],
    main: &[u8],
    main_places: &[u32],
    other: &[u8],
    other_places: &[u32],
    stack: &mut [u64],
    cells: &mut [u64],
    frames: &mut [Frame],
    copy: &[u64],
    trace: &mut [u64],
    answer: &mut [u64],
) -> u32
    ensures { RunThrough (continues units) vm.old answer.old
        (program_lent structs.now constants.now functions.now text.now
        main.now main_places.now other.now other_places.now)
        (run_lent stack.old cells.old frames.old copy.now trace.old)
        (record { number = result; vm = vm.new; answer = answer.new })
        (run_lent stack.new cells.new frames.new copy.now trace.new) }
{
    let stores = ProgramStores {
        constants,
        structs,
        functions,
        text,
        main,
        main_places,
        other,
        other_places,
    };
    let why = slices_refusal(vm, 5, answer);
    let m = vm_of(vm);
    if why == 0 {
        let result = continue_run(m, units, &stores, stack, cells, frames, copy, trace);
        return tell_run(result, vm, answer);
    }
    let good = order(m, &stores, stack, cells, frames, copy);
    crossed_idle(why, m, good)
}

// The machine's run is abandoned.
#[unsafe(no_mangle)]
pub extern "C" fn chaffwheel_abandon(
    vm: &mut [u64],
    constants: &[u64],
    structs: &[u64],
    functions: &[u64],
    text: &[u8],
    main: &[u8],
    main_places: &[u32],
    other: &[u8],
    other_places: &[u32],
    stack: &mut [u64],
    cells: &[u64],
    frames: &mut [Frame],
    copy: &[u64],
    trace: &mut [u64],
    answer: &mut [u64],
) -> u32
    ensures { RunThrough abandons vm.old answer.old
        (program_lent structs.now constants.now functions.now text.now
        main.now main_places.now other.now other_places.now)
        (run_lent stack.old cells.now frames.old copy.now trace.old)
        (record { number = result; vm = vm.new; answer = answer.new })
        (run_lent stack.new cells.now frames.new copy.now trace.new) }
{
    let stores = ProgramStores {
        constants,
        structs,
        functions,
        text,
        main,
        main_places,
        other,
        other_places,
    };
    let why = slices_refusal(vm, 5, answer);
    let m = vm_of(vm);
    if why == 0 {
        let result = abandon(m, &stores, stack, cells, frames, copy, trace);
        return tell_run(result, vm, answer);
    }
    let good = order(m, &stores, stack, cells, frames, copy);
    crossed_idle(why, m, good)
}

// The backtrace of the machine's frames.
#[unsafe(no_mangle)]
pub extern "C" fn chaffwheel_backtrace(
    vm: &[u64],
    functions: &[u64],
    text: &[u8],
    main: &[u8],
    main_places: &[u32],
    other: &[u8],
    other_places: &[u32],
    stack: &[u64],
    frames: &[Frame],
    out: &mut [u64],
    answer: &mut [u64],
) -> u32
    ensures { (structs constants : List ℕ) → record { coded = record { number = result; vm = vm.now; answer = answer.new }; out = out.new }
        ≡ out_through at_entry (slices_refusal vm.now 1 answer.old) vm.now answer.old out.old
        (λ m. backtrace_in m (program_lent structs constants functions.now text.now
        main.now main_places.now other.now other_places.now)
        stack.now frames.now out.old) }
{
    let why = slices_refusal(vm, 1, answer);
    let m = vm_of(vm);
    if why == 0 {
        let told = backtrace(
            m,
            functions,
            text,
            main,
            main_places,
            other,
            other_places,
            stack,
            frames,
            out,
        );
        return tell(told, answer);
    }
    let good = trace_order(
        m,
        functions,
        text,
        main,
        main_places,
        other,
        other_places,
        stack,
        frames,
    );
    crossed_order(why, good)
}

// The image of the program.
#[unsafe(no_mangle)]
#[tactic(auto, unfolding(layout::specs::Lent::program_lent))]
pub extern "C" fn chaffwheel_save(
    vm: &[u64],
    constants: &[u64],
    structs: &[u64],
    functions: &[u64],
    text: &[u8],
    main: &[u8],
    main_places: &[u32],
    other: &[u8],
    other_places: &[u32],
    out: &mut [u8],
    answer: &mut [u64],
) -> u32
    ensures { record { coded = record { number = result; vm = vm.now; answer = answer.new }; out = out.new }
        ≡ out_through at_entry (slices_refusal vm.now 1 answer.old) vm.now answer.old out.old
        (λ (m : Vm). save_of m.program (lent constants.now structs.now functions.now text.now
        main.now main_places.now other.now other_places.now) out.old) }
{
    let stores = ProgramStores {
        constants,
        structs,
        functions,
        text,
        main,
        main_places,
        other,
        other_places,
    };
    embed_images::save(vm, &stores, out, answer)
}

// The listing of the program.
#[unsafe(no_mangle)]
pub extern "C" fn chaffwheel_disassemble<'a>(
    vm: &[u64],
    functions: &[u64],
    text: &[u8],
    main: &'a [u8],
    other: &'a [u8],
    out: &mut [u8],
    answer: &mut [u64],
) -> u32
    ensures { (rest : Stores) → record { coded = record { number = result; vm = vm.now; answer = answer.new }; out = out.new }
        ≡ out_through at_listing (slices_refusal vm.now 1 answer.old) vm.now answer.old out.old
        (λ (m : Vm). list_of m.program (listed rest functions.now text.now main.now other.now) out.old) }
{
    embed_images::disassemble(vm, functions, text, main, other, out, answer)
}
