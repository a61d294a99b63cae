// What a host in C reads of a machine. A value that is shown stands in answer[0] and answer[1], its kind and its payload; a value that the host hands in is two such words.
ghost use Rattle.std.specs.Prelude.{◌≡◌};
ghost use Rattle.model.specs.declared.Vm.{Vm};
ghost use Rattle.model.specs.Values.{value_of};
ghost use Rattle.model.specs.Readers.{last_result_of, stack_value_of, block_header_of, element_of, text_bytes_of};
ghost use Rattle.embed_words.specs.Coding.{vm_in, slices_refusal, at_entry, value_refusal, shown_coded, headed_coded, through, out_through};

// The last result.
#[unsafe(no_mangle)]
pub extern "C" fn chaffwheel_last_result(vm: &[u64], answer: &mut [u64]) -> u32
    ensures { record { number = result; vm = vm.now; answer = answer.new }
        ≡ through at_entry (slices_refusal vm.now 2 answer.old) vm.now answer.old
        (shown_coded (last_result_of (vm_in vm.now)) vm.now answer.old) }
{
    embed_reading::last_result(vm, answer)
}

// The value at i, from the bottom of the stack.
#[unsafe(no_mangle)]
pub extern "C" fn chaffwheel_stack_value(
    vm: &[u64],
    i: usize,
    stack: &[u64],
    answer: &mut [u64],
) -> u32
    ensures { record { number = result; vm = vm.now; answer = answer.new }
        ≡ through at_entry (slices_refusal vm.now 2 answer.old) vm.now answer.old
        (shown_coded (stack_value_of (vm_in vm.now) i stack.now) vm.now answer.old) }
{
    embed_reading::stack_value(vm, i, stack, answer)
}

// The header of a list or struct: how many elements it has, the struct's number, and the depth.
#[unsafe(no_mangle)]
pub extern "C" fn chaffwheel_block_header(
    vm: &[u64],
    kind: u64,
    payload: u64,
    cells: &[u64],
    answer: &mut [u64],
) -> u32
    ensures { record { number = result; vm = vm.now; answer = answer.new }
        ≡ through at_entry (value_refusal vm.now kind payload 3 answer.old) vm.now answer.old
        (headed_coded (block_header_of (vm_in vm.now) (value_of kind payload) cells.now) vm.now answer.old) }
{
    embed_reading::block_header(vm, kind, payload, cells, answer)
}

// Element i of a list, or field i of a struct.
#[unsafe(no_mangle)]
pub extern "C" fn chaffwheel_element(
    vm: &[u64],
    kind: u64,
    payload: u64,
    i: usize,
    cells: &[u64],
    answer: &mut [u64],
) -> u32
    ensures { record { number = result; vm = vm.now; answer = answer.new }
        ≡ through at_entry (value_refusal vm.now kind payload 2 answer.old) vm.now answer.old
        (shown_coded (element_of (vm_in vm.now) (value_of kind payload) i cells.now) vm.now answer.old) }
{
    embed_reading::element(vm, kind, payload, i, cells, answer)
}

// The bytes of a string or a function reference, into out, and how many they are.
#[unsafe(no_mangle)]
pub extern "C" fn chaffwheel_text(
    vm: &[u64],
    kind: u64,
    payload: u64,
    text: &[u8],
    out: &mut [u8],
    answer: &mut [u64],
) -> u32
    ensures { record { coded = record { number = result; vm = vm.now; answer = answer.new }; out = out.new }
        ≡ out_through at_entry (value_refusal vm.now kind payload 1 answer.old) vm.now answer.old out.old
        (λ (m : Vm). text_bytes_of m (value_of kind payload) text.now out.old) }
{
    embed_reading::text(vm, kind, payload, text, out, answer)
}
