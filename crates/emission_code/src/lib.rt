// Code is emitted at the end of the current function, and patched inside it.
// `running`: a run is under way on the machine whose program this is, and the program stays as it is (25).
#![tactic(auto)]

ghost use Rattle.std.specs.Prelude.{◌≡◌, List, ℕ};
ghost use Rattle.model.specs.Stores.{Stores};
ghost use Rattle.model.specs.Emission.{code_order, patch_order, code_room, emit_of, add_op_of, add_op1_of, add_op2_of, add_op3_of, current_offset_of, patch_of};
ghost use Rattle.layout.specs.Links.{Is, code_lent, bytes_lent};

use layout::reads::{pack, room, second, size_of, start_of};
use layout::writes::{put_bytes, put_code};
use model::{CODE_LIMIT, Counts, Refusal};
use program::order::{counts_ok, functions_ok, inside_codes};

// How long the current function's code is.
pub fn current_offset(c: Counts, functions: &[u64]) -> Result<usize, Refusal>
    ensures { result ≡ current_offset_of c functions.now }
{
    if !(counts_ok(c) & functions_ok(c, functions)) {
        return Err(Refusal::NotInOrder);
    }
    Ok(size_of(second(functions, c.current)))
}

// Good order of what the emission of code is lent.
pub fn code_order(
    c: Counts,
    functions: &[u64],
    main: &[u8],
    main_places: &[u32],
    other: &[u8],
    other_places: &[u32],
) -> bool
    ensures { (rest : Stores) → result ≡ code_order c (code_lent rest functions.now main.now main_places.now other.now other_places.now) }
{
    counts_ok(c)
        & functions_ok(c, functions)
        & inside_codes(c, functions, main.len(), other.len())
        & inside_codes(c, functions, main_places.len(), other_places.len())
}

// The room for the current function's code.
fn code_room(
    c: Counts,
    main: &[u8],
    main_places: &[u32],
    other: &[u8],
    other_places: &[u32],
) -> usize
    ensures { (rest : Stores) (fs : List ℕ) → result ≡ code_room c (code_lent rest fs main.now main_places.now other.now other_places.now) }
{
    if c.current == 0 {
        return room(main.len(), 1).min(room(main_places.len(), 1));
    }
    room(other.len(), 1).min(room(other_places.len(), 1))
}

// An instruction at the end of the current function, each byte with the place.
fn emit(
    running: bool,
    c: Counts,
    op: u8,
    bytes: &[u8],
    place: u32,
    functions: &mut [u64],
    main: &mut [u8],
    main_places: &mut [u32],
    other: &mut [u8],
    other_places: &mut [u32],
) -> Result<(Counts, usize), Refusal>
    ensures { (rest : Stores) → Is (emit_of running c op bytes.now place (code_lent rest functions.old main.old main_places.old other.old other_places.old)) result (code_lent rest functions.new main.new main_places.new other.new other_places.new) }
{
    let ok = code_order(c, functions, main, main_places, other, other_places);
    if !ok {
        return Err(Refusal::NotInOrder);
    }
    if running {
        return Err(Refusal::RunUnderWay);
    }
    let current = c.current;
    let word = second(functions, current);
    let start = start_of(word);
    let size = size_of(word);
    let n = bytes.len();
    if CODE_LIMIT - size < n {
        return Err(Refusal::OverLimit);
    }
    let end = start + size;
    let room = code_room(c, main, main_places, other, other_places);
    if room < end + n {
        return Err(Refusal::StoreFull);
    }
    if 38 <= op {
        return Err(Refusal::UnknownOpcode);
    }
    functions[2 * current + 1] = pack(start, size + n);
    if current == 0 {
        put_code(main, main_places, end, bytes, place);
        return Ok((c, 0));
    }
    put_code(other, other_places, end, bytes, place);
    Ok((c, 0))
}

// An instruction with no operand.
pub fn add_op(
    running: bool,
    c: Counts,
    op: u8,
    place: u32,
    functions: &mut [u64],
    main: &mut [u8],
    main_places: &mut [u32],
    other: &mut [u8],
    other_places: &mut [u32],
) -> Result<(Counts, usize), Refusal>
    ensures { (rest : Stores) → Is (add_op_of running c op place (code_lent rest functions.old main.old main_places.old other.old other_places.old)) result (code_lent rest functions.new main.new main_places.new other.new other_places.new) }
{
    let bytes = [op];
    emit(
        running,
        c,
        op,
        &bytes,
        place,
        functions,
        main,
        main_places,
        other,
        other_places,
    )
}

// An instruction with one operand, low byte first.
pub fn add_op1(
    running: bool,
    c: Counts,
    op: u8,
    a: u16,
    place: u32,
    functions: &mut [u64],
    main: &mut [u8],
    main_places: &mut [u32],
    other: &mut [u8],
    other_places: &mut [u32],
) -> Result<(Counts, usize), Refusal>
    ensures { (rest : Stores) → Is (add_op1_of running c op a place (code_lent rest functions.old main.old main_places.old other.old other_places.old)) result (code_lent rest functions.new main.new main_places.new other.new other_places.new) }
{
    let [a_low, a_high] = a.to_le_bytes();
    let bytes = [op, a_low, a_high];
    emit(
        running,
        c,
        op,
        &bytes,
        place,
        functions,
        main,
        main_places,
        other,
        other_places,
    )
}

// An instruction with two operands.
pub fn add_op2(
    running: bool,
    c: Counts,
    op: u8,
    a: u16,
    b: u16,
    place: u32,
    functions: &mut [u64],
    main: &mut [u8],
    main_places: &mut [u32],
    other: &mut [u8],
    other_places: &mut [u32],
) -> Result<(Counts, usize), Refusal>
    ensures { (rest : Stores) → Is (add_op2_of running c op a b place (code_lent rest functions.old main.old main_places.old other.old other_places.old)) result (code_lent rest functions.new main.new main_places.new other.new other_places.new) }
{
    let [a_low, a_high] = a.to_le_bytes();
    let [b_low, b_high] = b.to_le_bytes();
    let bytes = [op, a_low, a_high, b_low, b_high];
    emit(
        running,
        c,
        op,
        &bytes,
        place,
        functions,
        main,
        main_places,
        other,
        other_places,
    )
}

// An instruction with three operands.
pub fn add_op3(
    running: bool,
    c: Counts,
    op: u8,
    a: u16,
    b: u16,
    d: u16,
    place: u32,
    functions: &mut [u64],
    main: &mut [u8],
    main_places: &mut [u32],
    other: &mut [u8],
    other_places: &mut [u32],
) -> Result<(Counts, usize), Refusal>
    ensures { (rest : Stores) → Is (add_op3_of running c op a b d place (code_lent rest functions.old main.old main_places.old other.old other_places.old)) result (code_lent rest functions.new main.new main_places.new other.new other_places.new) }
{
    let [a_low, a_high] = a.to_le_bytes();
    let [b_low, b_high] = b.to_le_bytes();
    let [d_low, d_high] = d.to_le_bytes();
    let bytes = [op, a_low, a_high, b_low, b_high, d_low, d_high];
    emit(
        running,
        c,
        op,
        &bytes,
        place,
        functions,
        main,
        main_places,
        other,
        other_places,
    )
}

// Good order of what a patch is lent.
pub fn patch_order(c: Counts, functions: &[u64], main: &[u8], other: &[u8]) -> bool
    ensures { (rest : Stores) → result ≡ patch_order c (bytes_lent rest functions.now main.now other.now) }
{
    counts_ok(c) & functions_ok(c, functions) & inside_codes(c, functions, main.len(), other.len())
}

// An operand written anew inside the current function's code.
pub fn patch_u16_value_at(
    running: bool,
    c: Counts,
    offset: u16,
    arg: u16,
    functions: &[u64],
    main: &mut [u8],
    other: &mut [u8],
) -> Result<(Counts, usize), Refusal>
    ensures { (rest : Stores) → Is (patch_of running c offset arg (bytes_lent rest functions.now main.old other.old)) result (bytes_lent rest functions.now main.new other.new) }
{
    let ok = patch_order(c, functions, main, other);
    if !ok {
        return Err(Refusal::NotInOrder);
    }
    if running {
        return Err(Refusal::RunUnderWay);
    }
    let current = c.current;
    let word = second(functions, current);
    let start = start_of(word);
    let size = size_of(word);
    let at = usize::from(offset);
    if size < at + 2 {
        return Err(Refusal::PatchOutsideCode);
    }
    let bytes = arg.to_le_bytes();
    if current == 0 {
        put_bytes(main, start + at, &bytes);
        return Ok((c, 0));
    }
    put_bytes(other, start + at, &bytes);
    Ok((c, 0))
}
