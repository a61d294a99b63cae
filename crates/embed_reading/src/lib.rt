// What is read of a machine's record in words: what crosses is refused, or an entry's own rule makes the answer, in words too. A host in C calls it through `embed`.
#![tactic(auto)]

ghost use Rattle.std.specs.Prelude.{◌≡◌};
ghost use Rattle.model.specs.declared.Vm.{Vm};
ghost use Rattle.model.specs.Values.{value_of};
ghost use Rattle.model.specs.Readers.{last_result_of, stack_value_of, block_header_of, element_of, text_bytes_of};
ghost use Rattle.embed_words.specs.Coding.{vm_in, slices_refusal, at_entry, value_refusal, shown_coded, headed_coded, through, out_through};

use embed_answers::answer_told;
use embed_refusals::{lent_room, slices_refusal, value_refusal};
use embed_words::vm_of;
use readers::text_bytes;
use value::words::value_of;

// The last result.
pub fn last_result(vm: &[u64], answer: &mut [u64]) -> u32
    ensures { record { number = result; vm = vm.now; answer = answer.new }
        ≡ through at_entry (slices_refusal vm.now 2 answer.old) vm.now answer.old
        (shown_coded (last_result_of (vm_in vm.now)) vm.now answer.old) }
{
    let why = slices_refusal(vm, 2, answer);
    let m = vm_of(vm);
    let shown = readers::last_result(m);
    answer_told(why, shown, answer)
}

// The value at i, from the bottom of the stack.
pub fn stack_value(vm: &[u64], i: usize, stack: &[u64], answer: &mut [u64]) -> u32
    ensures { record { number = result; vm = vm.now; answer = answer.new }
        ≡ through at_entry (slices_refusal vm.now 2 answer.old) vm.now answer.old
        (shown_coded (stack_value_of (vm_in vm.now) i stack.now) vm.now answer.old) }
{
    let why = slices_refusal(vm, 2, answer);
    let m = vm_of(vm);
    let shown = readers::stack_value(m, i, stack);
    answer_told(why, shown, answer)
}

// The header of a list or struct: how many elements it has, the struct's number, and the depth.
pub fn block_header(vm: &[u64], kind: u64, payload: u64, cells: &[u64], answer: &mut [u64]) -> u32
    ensures { record { number = result; vm = vm.now; answer = answer.new }
        ≡ through at_entry (value_refusal vm.now kind payload 3 answer.old) vm.now answer.old
        (headed_coded (block_header_of (vm_in vm.now) (value_of kind payload) cells.now) vm.now answer.old) }
{
    let why = value_refusal(vm, kind, payload, 3, answer);
    let m = vm_of(vm);
    let v = value_of(kind, payload);
    let headed = readers::block_header(m, v, cells);
    answer_told(why, headed, answer)
}

// Element i of a list, or field i of a struct.
pub fn element(
    vm: &[u64],
    kind: u64,
    payload: u64,
    i: usize,
    cells: &[u64],
    answer: &mut [u64],
) -> u32
    ensures { record { number = result; vm = vm.now; answer = answer.new }
        ≡ through at_entry (value_refusal vm.now kind payload 2 answer.old) vm.now answer.old
        (shown_coded (element_of (vm_in vm.now) (value_of kind payload) i cells.now) vm.now answer.old) }
{
    let why = value_refusal(vm, kind, payload, 2, answer);
    let m = vm_of(vm);
    let v = value_of(kind, payload);
    let shown = readers::element(m, v, i, cells);
    answer_told(why, shown, answer)
}

// The bytes of a string or a function reference, into out, and how many they are.
pub fn text(
    vm: &[u64],
    kind: u64,
    payload: u64,
    text: &[u8],
    out: &mut [u8],
    answer: &mut [u64],
) -> u32
    ensures { record { coded = record { number = result; vm = vm.now; answer = answer.new }; out = out.new }
        ≡ out_through at_entry (value_refusal vm.now kind payload 1 answer.old) vm.now answer.old out.old
        (λ (m : Vm). text_bytes_of m (value_of kind payload) text.now out.old) }
{
    let why = value_refusal(vm, kind, payload, 1, answer);
    let m = vm_of(vm);
    let v = value_of(kind, payload);
    let room = lent_room(why, out.len());
    let told = text_bytes(m, v, text, &mut out[..room]);
    answer_told(why, told, answer)
}
