// Emission of constants, struct names and functions over a machine's record in words: what crosses is refused, or the entry's own rule makes the answer, in words too. A host in C calls it through `embed`.
#![tactic(auto)]

ghost use Rattle.std.specs.Prelude.{◌≡◌, Bool, []};
ghost use Rattle.model.specs.declared.Counts.{Counts};
ghost use Rattle.model.specs.declared.Constant.TheVariants as k;
ghost use Rattle.model.specs.Stores.{Stores};
ghost use Rattle.model.specs.Emission.{add_constant_of, add_struct_of, begin_function_of, end_function_of, function_idx_of};
ghost use Rattle.layout.specs.Links.{constants_lent, structs_lent, names_lent};
ghost use Rattle.embed_words.specs.Coding.{vm_in, slices_refusal, at_entry, emitted_coded, told_coded, through, Emits};

use embed_answers::{answer_told, tell_emitted};
use embed_refusals::{crossed_running, slices_refusal};
use embed_words::vm_of;
use emission_constants::{add_constant, constant_order};
use emission_functions::function_order;
use emission_structs::struct_order;
use model::Constant;
use program::order::counts_ok;

// Appends a constant: lent is the text of a string or a reference.
fn emit_constant(
    vm: &mut [u64],
    constant: Constant,
    lent: &[u8],
    constants: &mut [u64],
    text: &mut [u8],
    answer: &mut [u64],
) -> u32
    ensures { Emits (λ (running : Bool) (c : Counts). add_constant_of running c constant lent.now) vm.old answer.old
        (λ (rest : Stores). constants_lent rest constants.old text.old)
        result vm.new answer.new (λ (rest : Stores). constants_lent rest constants.new text.new) }
{
    let why = slices_refusal(vm, 1, answer);
    let m = vm_of(vm);
    let c = m.program;
    if why == 0 {
        let done = add_constant(m.run.on, c, constant, lent, constants, text);
        return tell_emitted(done, vm, answer);
    }
    let good = constant_order(c, constants, text);
    crossed_running(why, m, good)
}

// Appends a scalar to the constants: its 64 bits, kept as they are.
pub fn add_scalar(
    vm: &mut [u64],
    bits: u64,
    constants: &mut [u64],
    text: &mut [u8],
    answer: &mut [u64],
) -> u32
    ensures { Emits (λ (running : Bool) (c : Counts). add_constant_of running c (k.Scalar bits) []) vm.old answer.old
        (λ (rest : Stores). constants_lent rest constants.old text.old)
        result vm.new answer.new (λ (rest : Stores). constants_lent rest constants.new text.new) }
{
    emit_constant(vm, Constant::Scalar(bits), b"", constants, text, answer)
}

// Appends a boolean to the constants.
pub fn add_boolean(
    vm: &mut [u64],
    value: bool,
    constants: &mut [u64],
    text: &mut [u8],
    answer: &mut [u64],
) -> u32
    ensures { Emits (λ (running : Bool) (c : Counts). add_constant_of running c (k.Boolean value) []) vm.old answer.old
        (λ (rest : Stores). constants_lent rest constants.old text.old)
        result vm.new answer.new (λ (rest : Stores). constants_lent rest constants.new text.new) }
{
    emit_constant(vm, Constant::Boolean(value), b"", constants, text, answer)
}

// Appends a string to the constants.
pub fn add_string(
    vm: &mut [u64],
    lent: &[u8],
    constants: &mut [u64],
    text: &mut [u8],
    answer: &mut [u64],
) -> u32
    ensures { Emits (λ (running : Bool) (c : Counts). add_constant_of running c k.String lent.now) vm.old answer.old
        (λ (rest : Stores). constants_lent rest constants.old text.old)
        result vm.new answer.new (λ (rest : Stores). constants_lent rest constants.new text.new) }
{
    emit_constant(vm, Constant::String, lent, constants, text, answer)
}

// Appends a function reference to the constants.
pub fn add_reference(
    vm: &mut [u64],
    lent: &[u8],
    constants: &mut [u64],
    text: &mut [u8],
    answer: &mut [u64],
) -> u32
    ensures { Emits (λ (running : Bool) (c : Counts). add_constant_of running c k.FunctionReference lent.now) vm.old answer.old
        (λ (rest : Stores). constants_lent rest constants.old text.old)
        result vm.new answer.new (λ (rest : Stores). constants_lent rest constants.new text.new) }
{
    emit_constant(
        vm,
        Constant::FunctionReference,
        lent,
        constants,
        text,
        answer,
    )
}

// The number of a struct name, which is added where it is not known. This and `begin_function` stay apart from `emit_constant`: one function for all would
// take two closures that are lent the stores anew, one to write and one to judge, and a call of it is as long as the body here.
pub fn add_struct_info(
    vm: &mut [u64],
    name: &[u8],
    structs: &mut [u64],
    text: &mut [u8],
    answer: &mut [u64],
) -> u32
    ensures { Emits (λ (running : Bool) (c : Counts). add_struct_of running c name.now) vm.old answer.old
        (λ (rest : Stores). structs_lent rest structs.old text.old)
        result vm.new answer.new (λ (rest : Stores). structs_lent rest structs.new text.new) }
{
    let why = slices_refusal(vm, 1, answer);
    let m = vm_of(vm);
    let c = m.program;
    if why == 0 {
        let done = emission_structs::add_struct_info(m.run.on, c, name, structs, text);
        return tell_emitted(done, vm, answer);
    }
    let good = struct_order(c, structs, text);
    crossed_running(why, m, good)
}

// Begins a function, which is then current.
pub fn begin_function(
    vm: &mut [u64],
    name: &[u8],
    functions: &mut [u64],
    text: &mut [u8],
    answer: &mut [u64],
) -> u32
    ensures { Emits (λ (running : Bool) (c : Counts). begin_function_of running c name.now) vm.old answer.old
        (λ (rest : Stores). names_lent rest functions.old text.old)
        result vm.new answer.new (λ (rest : Stores). names_lent rest functions.new text.new) }
{
    let why = slices_refusal(vm, 1, answer);
    let m = vm_of(vm);
    let c = m.program;
    if why == 0 {
        let done = emission_functions::begin_function(m.run.on, c, name, functions, text);
        return tell_emitted(done, vm, answer);
    }
    let good = function_order(c, functions, text);
    crossed_running(why, m, good)
}

// Makes main current.
pub fn end_function(vm: &mut [u64], answer: &mut [u64]) -> u32
    ensures { record { number = result; vm = vm.new; answer = answer.new }
        ≡ through at_entry (slices_refusal vm.old 1 answer.old) vm.old answer.old
        (emitted_coded (end_function_of (vm_in vm.old).run.on (vm_in vm.old).program) vm.old answer.old) }
{
    let why = slices_refusal(vm, 1, answer);
    let m = vm_of(vm);
    let c = m.program;
    if why == 0 {
        let done = emission_functions::end_function(m.run.on, c);
        return tell_emitted(done, vm, answer);
    }
    let good = counts_ok(c);
    crossed_running(why, m, good)
}

// The newest function of a name.
pub fn get_function_idx(
    vm: &[u64],
    name: &[u8],
    functions: &[u64],
    text: &[u8],
    answer: &mut [u64],
) -> u32
    ensures { (rest : Stores) → record { number = result; vm = vm.now; answer = answer.new }
        ≡ through at_entry (slices_refusal vm.now 1 answer.old) vm.now answer.old
        (told_coded (function_idx_of (vm_in vm.now).program name.now (names_lent rest functions.now text.now))
        vm.now answer.old) }
{
    let why = slices_refusal(vm, 1, answer);
    let m = vm_of(vm);
    let c = m.program;
    let told = emission_functions::get_function_idx(c, name, functions, text);
    answer_told(why, told, answer)
}
