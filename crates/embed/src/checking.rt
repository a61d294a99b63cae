// An image is checked before its rule is installed.
ghost use Rattle.model.specs.Stores.{stores_of as lent};
ghost use Rattle.check_words.specs.Words.{CheckThrough, CheckBeside};

use check_image::check;
use check_words::{lent_functions, tell_checked};
use embed_refusals::{lent_room, out_refusal};
use frames::push_frame;
use machine::starting::first_frame;
use model::Frame;

// All but the frame: `frames` is how many places the frame store has. A run that is under way refuses 25, before all else. Where the record or the answer is too
// short, no place for a height is lent, and where no frame has a place, no function: so the check itself refuses 17 and 21, in its order.
fn check_program(
    image: &[u8],
    vm: &mut [u64],
    constants: &mut [u64],
    structs: &mut [u64],
    functions: &mut [u64],
    text: &mut [u8],
    main: &mut [u8],
    main_places: &mut [u32],
    other: &mut [u8],
    other_places: &mut [u32],
    frames: usize,
    heights: &mut [u32],
    answer: &mut [u64],
) -> u32
    ensures { CheckBeside image.now vm.old answer.old heights.old
        (lent constants.old structs.old functions.old text.old
        main.old main_places.old other.old other_places.old) frames
        (record { number = result; vm = vm.new; answer = answer.new }) heights.new
        (lent constants.new structs.new functions.new text.new
        main.new main_places.new other.new other_places.new) }
{
    let why = out_refusal(vm, 2, answer);
    if why == 25 {
        return why;
    }
    let places = lent_room(why, heights.len());
    let rows = lent_functions(frames, functions.len());
    let checked = check(
        image,
        &mut heights[..places],
        constants,
        structs,
        &mut functions[..rows],
        text,
        main,
        main_places,
        other,
        other_places,
    );
    tell_checked(checked, vm, answer)
}

// An image, checked: what passes is loaded as a fresh machine, with each function's greatest height beside it.
#[unsafe(no_mangle)]
pub extern "C" fn chaffwheel_check(
    image: &[u8],
    vm: &mut [u64],
    constants: &mut [u64],
    structs: &mut [u64],
    functions: &mut [u64],
    text: &mut [u8],
    main: &mut [u8],
    main_places: &mut [u32],
    other: &mut [u8],
    other_places: &mut [u32],
    frames: &mut [Frame],
    heights: &mut [u32],
    answer: &mut [u64],
) -> u32
    ensures { CheckThrough image.now vm.old answer.old heights.old
        (lent constants.old structs.old functions.old text.old
        main.old main_places.old other.old other_places.old) frames.old
        (record { number = result; vm = vm.new; answer = answer.new }) heights.new
        (lent constants.new structs.new functions.new text.new
        main.new main_places.new other.new other_places.new) frames.new }
{
    let n = check_program(
        image,
        vm,
        constants,
        structs,
        functions,
        text,
        main,
        main_places,
        other,
        other_places,
        frames.len(),
        heights,
        answer,
    );
    if n == 0 {
        let f = first_frame();
        push_frame(frames, 0, f);
        return n;
    }
    n
}
