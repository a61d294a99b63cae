// Emission for a host in C: a program is written into the stores that the host lends. Where a number is told it stands in answer[0].
ghost use Rattle.std.specs.Prelude.{◌≡◌, Bool, []};
ghost use Rattle.model.specs.declared.Counts.{Counts};
ghost use Rattle.model.specs.declared.Constant.TheVariants as k;
ghost use Rattle.model.specs.Stores.{Stores};
ghost use Rattle.model.specs.Emission.{add_op_of, add_op1_of, add_op2_of, add_op3_of, patch_of, current_offset_of, add_constant_of, add_struct_of, begin_function_of, end_function_of, function_idx_of};
ghost use Rattle.layout.specs.Links.{code_lent, bytes_lent, constants_lent, structs_lent, names_lent};
ghost use Rattle.embed_words.specs.Coding.{vm_in, slices_refusal, at_entry, emitted_coded, told_coded, through, Emits};

// Appends an opcode to the code of the current function, with the given place.
#[unsafe(no_mangle)]
pub extern "C" fn chaffwheel_add_op(
    vm: &mut [u64],
    op: u8,
    place: u32,
    functions: &mut [u64],
    main: &mut [u8],
    main_places: &mut [u32],
    other: &mut [u8],
    other_places: &mut [u32],
    answer: &mut [u64],
) -> u32
    ensures { Emits (λ (running : Bool) (c : Counts). add_op_of running c op place) vm.old answer.old
        (λ (rest : Stores). code_lent rest functions.old main.old main_places.old other.old other_places.old)
        result vm.new answer.new
        (λ (rest : Stores). code_lent rest functions.new main.new main_places.new other.new other_places.new) }
{
    embed_code::add_op(
        vm,
        op,
        place,
        functions,
        main,
        main_places,
        other,
        other_places,
        answer,
    )
}

// Appends an opcode and an operand.
#[unsafe(no_mangle)]
pub extern "C" fn chaffwheel_add_op1(
    vm: &mut [u64],
    op: u8,
    a: u16,
    place: u32,
    functions: &mut [u64],
    main: &mut [u8],
    main_places: &mut [u32],
    other: &mut [u8],
    other_places: &mut [u32],
    answer: &mut [u64],
) -> u32
    ensures { Emits (λ (running : Bool) (c : Counts). add_op1_of running c op a place) vm.old answer.old
        (λ (rest : Stores). code_lent rest functions.old main.old main_places.old other.old other_places.old)
        result vm.new answer.new
        (λ (rest : Stores). code_lent rest functions.new main.new main_places.new other.new other_places.new) }
{
    embed_code::add_op1(
        vm,
        op,
        a,
        place,
        functions,
        main,
        main_places,
        other,
        other_places,
        answer,
    )
}

// Appends an opcode and two operands.
#[unsafe(no_mangle)]
pub extern "C" fn chaffwheel_add_op2(
    vm: &mut [u64],
    op: u8,
    a: u16,
    b: u16,
    place: u32,
    functions: &mut [u64],
    main: &mut [u8],
    main_places: &mut [u32],
    other: &mut [u8],
    other_places: &mut [u32],
    answer: &mut [u64],
) -> u32
    ensures { Emits (λ (running : Bool) (c : Counts). add_op2_of running c op a b place) vm.old answer.old
        (λ (rest : Stores). code_lent rest functions.old main.old main_places.old other.old other_places.old)
        result vm.new answer.new
        (λ (rest : Stores). code_lent rest functions.new main.new main_places.new other.new other_places.new) }
{
    embed_code::add_op2(
        vm,
        op,
        a,
        b,
        place,
        functions,
        main,
        main_places,
        other,
        other_places,
        answer,
    )
}

// Appends an opcode and three operands.
#[unsafe(no_mangle)]
pub extern "C" fn chaffwheel_add_op3(
    vm: &mut [u64],
    op: u8,
    a: u16,
    b: u16,
    d: u16,
    place: u32,
    functions: &mut [u64],
    main: &mut [u8],
    main_places: &mut [u32],
    other: &mut [u8],
    other_places: &mut [u32],
    answer: &mut [u64],
) -> u32
    ensures { Emits (λ (running : Bool) (c : Counts). add_op3_of running c op a b d place) vm.old answer.old
        (λ (rest : Stores). code_lent rest functions.old main.old main_places.old other.old other_places.old)
        result vm.new answer.new
        (λ (rest : Stores). code_lent rest functions.new main.new main_places.new other.new other_places.new) }
{
    embed_code::add_op3(
        vm,
        op,
        a,
        b,
        d,
        place,
        functions,
        main,
        main_places,
        other,
        other_places,
        answer,
    )
}

// Overwrites two bytes of the code of the current function.
#[unsafe(no_mangle)]
pub extern "C" fn chaffwheel_patch_u16_value_at(
    vm: &mut [u64],
    offset: u16,
    arg: u16,
    functions: &[u64],
    main: &mut [u8],
    other: &mut [u8],
    answer: &mut [u64],
) -> u32
    ensures { Emits (λ (running : Bool) (c : Counts). patch_of running c offset arg) vm.old answer.old
        (λ (rest : Stores). bytes_lent rest functions.now main.old other.old)
        result vm.new answer.new (λ (rest : Stores). bytes_lent rest functions.now main.new other.new) }
{
    embed_code::patch_u16_value_at(vm, offset, arg, functions, main, other, answer)
}

// Appends a scalar to the constants: its 64 bits, kept as they are.
#[unsafe(no_mangle)]
pub extern "C" fn chaffwheel_add_scalar(
    vm: &mut [u64],
    bits: u64,
    constants: &mut [u64],
    text: &mut [u8],
    answer: &mut [u64],
) -> u32
    ensures { Emits (λ (running : Bool) (c : Counts). add_constant_of running c (k.Scalar bits) []) vm.old answer.old
        (λ (rest : Stores). constants_lent rest constants.old text.old)
        result vm.new answer.new (λ (rest : Stores). constants_lent rest constants.new text.new) }
{
    embed_tables::add_scalar(vm, bits, constants, text, answer)
}

// Appends a boolean to the constants.
#[unsafe(no_mangle)]
pub extern "C" fn chaffwheel_add_boolean(
    vm: &mut [u64],
    value: bool,
    constants: &mut [u64],
    text: &mut [u8],
    answer: &mut [u64],
) -> u32
    ensures { Emits (λ (running : Bool) (c : Counts). add_constant_of running c (k.Boolean value) []) vm.old answer.old
        (λ (rest : Stores). constants_lent rest constants.old text.old)
        result vm.new answer.new (λ (rest : Stores). constants_lent rest constants.new text.new) }
{
    embed_tables::add_boolean(vm, value, constants, text, answer)
}

// Appends a string to the constants.
#[unsafe(no_mangle)]
pub extern "C" fn chaffwheel_add_string(
    vm: &mut [u64],
    lent: &[u8],
    constants: &mut [u64],
    text: &mut [u8],
    answer: &mut [u64],
) -> u32
    ensures { Emits (λ (running : Bool) (c : Counts). add_constant_of running c k.String lent.now) vm.old answer.old
        (λ (rest : Stores). constants_lent rest constants.old text.old)
        result vm.new answer.new (λ (rest : Stores). constants_lent rest constants.new text.new) }
{
    embed_tables::add_string(vm, lent, constants, text, answer)
}

// Appends a function reference to the constants.
#[unsafe(no_mangle)]
pub extern "C" fn chaffwheel_add_reference(
    vm: &mut [u64],
    lent: &[u8],
    constants: &mut [u64],
    text: &mut [u8],
    answer: &mut [u64],
) -> u32
    ensures { Emits (λ (running : Bool) (c : Counts). add_constant_of running c k.FunctionReference lent.now) vm.old answer.old
        (λ (rest : Stores). constants_lent rest constants.old text.old)
        result vm.new answer.new (λ (rest : Stores). constants_lent rest constants.new text.new) }
{
    embed_tables::add_reference(vm, lent, constants, text, answer)
}

// The number of a struct name, which is added where it is not known.
#[unsafe(no_mangle)]
pub extern "C" fn chaffwheel_add_struct_info(
    vm: &mut [u64],
    name: &[u8],
    structs: &mut [u64],
    text: &mut [u8],
    answer: &mut [u64],
) -> u32
    ensures { Emits (λ (running : Bool) (c : Counts). add_struct_of running c name.now) vm.old answer.old
        (λ (rest : Stores). structs_lent rest structs.old text.old)
        result vm.new answer.new (λ (rest : Stores). structs_lent rest structs.new text.new) }
{
    embed_tables::add_struct_info(vm, name, structs, text, answer)
}

// Begins a function, which is then current.
#[unsafe(no_mangle)]
pub extern "C" fn chaffwheel_begin_function(
    vm: &mut [u64],
    name: &[u8],
    functions: &mut [u64],
    text: &mut [u8],
    answer: &mut [u64],
) -> u32
    ensures { Emits (λ (running : Bool) (c : Counts). begin_function_of running c name.now) vm.old answer.old
        (λ (rest : Stores). names_lent rest functions.old text.old)
        result vm.new answer.new (λ (rest : Stores). names_lent rest functions.new text.new) }
{
    embed_tables::begin_function(vm, name, functions, text, answer)
}

// Makes main current.
#[unsafe(no_mangle)]
pub extern "C" fn chaffwheel_end_function(vm: &mut [u64], answer: &mut [u64]) -> u32
    ensures { record { number = result; vm = vm.new; answer = answer.new }
        ≡ through at_entry (slices_refusal vm.old 1 answer.old) vm.old answer.old
        (emitted_coded (end_function_of (vm_in vm.old).run.on (vm_in vm.old).program) vm.old answer.old) }
{
    embed_tables::end_function(vm, answer)
}

// The length of the code of the current function.
#[unsafe(no_mangle)]
pub extern "C" fn chaffwheel_current_offset(
    vm: &[u64],
    functions: &[u64],
    answer: &mut [u64],
) -> u32
    ensures { record { number = result; vm = vm.now; answer = answer.new }
        ≡ through at_entry (slices_refusal vm.now 1 answer.old) vm.now answer.old
        (told_coded (current_offset_of (vm_in vm.now).program functions.now) vm.now answer.old) }
{
    embed_code::current_offset(vm, functions, answer)
}

// The newest function of a name.
#[unsafe(no_mangle)]
pub extern "C" fn chaffwheel_get_function_idx(
    vm: &[u64],
    name: &[u8],
    functions: &[u64],
    text: &[u8],
    answer: &mut [u64],
) -> u32
    ensures { (rest : Stores) → record { number = result; vm = vm.now; answer = answer.new }
        ≡ through at_entry (slices_refusal vm.now 1 answer.old) vm.now answer.old
        (told_coded (function_idx_of (vm_in vm.now).program name.now (names_lent rest functions.now text.now))
        vm.now answer.old) }
{
    embed_tables::get_function_idx(vm, name, functions, text, answer)
}
