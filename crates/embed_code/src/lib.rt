// Emission of code over a machine's record in words: what crosses is refused, or the entry's own rule makes the answer, in words too. A host in C calls it through `embed`.
#![tactic(auto)]

ghost use Rattle.std.specs.Prelude.{◌≡◌, Bool};
ghost use Rattle.model.specs.declared.Counts.{Counts};
ghost use Rattle.model.specs.Stores.{Stores};
ghost use Rattle.model.specs.Emission.{add_op_of, add_op1_of, add_op2_of, add_op3_of, patch_of, current_offset_of};
ghost use Rattle.layout.specs.Links.{code_lent, bytes_lent};
ghost use Rattle.embed_words.specs.Coding.{vm_in, slices_refusal, at_entry, told_coded, through, Emits};

use embed_answers::{answer_told, tell_emitted};
use embed_refusals::{crossed_running, slices_refusal};
use embed_words::vm_of;
use emission_code::{code_order, patch_order};

// Appends an opcode to the code of the current function, with the given place. The four stay apart: what differs is one call that is lent five stores to write,
// which are then judged too, so a closure for it would be lent the five anew, and each of the four would be longer than it is.
pub fn add_op(
    vm: &mut [u64],
    op: u8,
    place: u32,
    functions: &mut [u64],
    main: &mut [u8],
    main_places: &mut [u32],
    other: &mut [u8],
    other_places: &mut [u32],
    answer: &mut [u64],
) -> u32
    ensures { Emits (λ (running : Bool) (c : Counts). add_op_of running c op place) vm.old answer.old
        (λ (rest : Stores). code_lent rest functions.old main.old main_places.old other.old other_places.old)
        result vm.new answer.new
        (λ (rest : Stores). code_lent rest functions.new main.new main_places.new other.new other_places.new) }
{
    let why = slices_refusal(vm, 1, answer);
    let m = vm_of(vm);
    let c = m.program;
    if why == 0 {
        let done = emission_code::add_op(
            m.run.on,
            c,
            op,
            place,
            functions,
            main,
            main_places,
            other,
            other_places,
        );
        return tell_emitted(done, vm, answer);
    }
    let good = code_order(c, functions, main, main_places, other, other_places);
    crossed_running(why, m, good)
}

// Appends an opcode and an operand.
pub fn add_op1(
    vm: &mut [u64],
    op: u8,
    a: u16,
    place: u32,
    functions: &mut [u64],
    main: &mut [u8],
    main_places: &mut [u32],
    other: &mut [u8],
    other_places: &mut [u32],
    answer: &mut [u64],
) -> u32
    ensures { Emits (λ (running : Bool) (c : Counts). add_op1_of running c op a place) vm.old answer.old
        (λ (rest : Stores). code_lent rest functions.old main.old main_places.old other.old other_places.old)
        result vm.new answer.new
        (λ (rest : Stores). code_lent rest functions.new main.new main_places.new other.new other_places.new) }
{
    let why = slices_refusal(vm, 1, answer);
    let m = vm_of(vm);
    let c = m.program;
    if why == 0 {
        let done = emission_code::add_op1(
            m.run.on,
            c,
            op,
            a,
            place,
            functions,
            main,
            main_places,
            other,
            other_places,
        );
        return tell_emitted(done, vm, answer);
    }
    let good = code_order(c, functions, main, main_places, other, other_places);
    crossed_running(why, m, good)
}

// Appends an opcode and two operands.
pub fn add_op2(
    vm: &mut [u64],
    op: u8,
    a: u16,
    b: u16,
    place: u32,
    functions: &mut [u64],
    main: &mut [u8],
    main_places: &mut [u32],
    other: &mut [u8],
    other_places: &mut [u32],
    answer: &mut [u64],
) -> u32
    ensures { Emits (λ (running : Bool) (c : Counts). add_op2_of running c op a b place) vm.old answer.old
        (λ (rest : Stores). code_lent rest functions.old main.old main_places.old other.old other_places.old)
        result vm.new answer.new
        (λ (rest : Stores). code_lent rest functions.new main.new main_places.new other.new other_places.new) }
{
    let why = slices_refusal(vm, 1, answer);
    let m = vm_of(vm);
    let c = m.program;
    if why == 0 {
        let done = emission_code::add_op2(
            m.run.on,
            c,
            op,
            a,
            b,
            place,
            functions,
            main,
            main_places,
            other,
            other_places,
        );
        return tell_emitted(done, vm, answer);
    }
    let good = code_order(c, functions, main, main_places, other, other_places);
    crossed_running(why, m, good)
}

// Appends an opcode and three operands.
pub fn add_op3(
    vm: &mut [u64],
    op: u8,
    a: u16,
    b: u16,
    d: u16,
    place: u32,
    functions: &mut [u64],
    main: &mut [u8],
    main_places: &mut [u32],
    other: &mut [u8],
    other_places: &mut [u32],
    answer: &mut [u64],
) -> u32
    ensures { Emits (λ (running : Bool) (c : Counts). add_op3_of running c op a b d place) vm.old answer.old
        (λ (rest : Stores). code_lent rest functions.old main.old main_places.old other.old other_places.old)
        result vm.new answer.new
        (λ (rest : Stores). code_lent rest functions.new main.new main_places.new other.new other_places.new) }
{
    let why = slices_refusal(vm, 1, answer);
    let m = vm_of(vm);
    let c = m.program;
    if why == 0 {
        let done = emission_code::add_op3(
            m.run.on,
            c,
            op,
            a,
            b,
            d,
            place,
            functions,
            main,
            main_places,
            other,
            other_places,
        );
        return tell_emitted(done, vm, answer);
    }
    let good = code_order(c, functions, main, main_places, other, other_places);
    crossed_running(why, m, good)
}

// Overwrites two bytes of the code of the current function.
pub fn patch_u16_value_at(
    vm: &mut [u64],
    offset: u16,
    arg: u16,
    functions: &[u64],
    main: &mut [u8],
    other: &mut [u8],
    answer: &mut [u64],
) -> u32
    ensures { Emits (λ (running : Bool) (c : Counts). patch_of running c offset arg) vm.old answer.old
        (λ (rest : Stores). bytes_lent rest functions.now main.old other.old)
        result vm.new answer.new (λ (rest : Stores). bytes_lent rest functions.now main.new other.new) }
{
    let why = slices_refusal(vm, 1, answer);
    let m = vm_of(vm);
    let c = m.program;
    if why == 0 {
        let done = emission_code::patch_u16_value_at(
            m.run.on, c, offset, arg, functions, main, other,
        );
        return tell_emitted(done, vm, answer);
    }
    let good = patch_order(c, functions, main, other);
    crossed_running(why, m, good)
}

// The length of the code of the current function.
pub fn current_offset(vm: &[u64], functions: &[u64], answer: &mut [u64]) -> u32
    ensures { record { number = result; vm = vm.now; answer = answer.new }
        ≡ through at_entry (slices_refusal vm.now 1 answer.old) vm.now answer.old
        (told_coded (current_offset_of (vm_in vm.now).program functions.now) vm.now answer.old) }
{
    let why = slices_refusal(vm, 1, answer);
    let m = vm_of(vm);
    let c = m.program;
    let told = emission_code::current_offset(c, functions);
    answer_told(why, told, answer)
}
