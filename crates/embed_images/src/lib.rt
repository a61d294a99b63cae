// The image and the listing of a program, over a machine's record in words: what crosses is refused, or the entry's own rule makes the answer, in words too. A host in C calls it through `embed`.
#![tactic(auto)]

ghost use Rattle.std.specs.Prelude.{◌≡◌};
ghost use Rattle.model.specs.declared.Vm.{Vm};
ghost use Rattle.model.specs.Stores.{Stores};
ghost use Rattle.model.specs.Loading.{save_of, list_of};
ghost use Rattle.layout.specs.Lent.{stores_in};
ghost use Rattle.listing.specs.Links.{lent as listed};
ghost use Rattle.embed_words.specs.Coding.{slices_refusal, at_entry, at_listing, out_through};

use embed_answers::{answer_listed, answer_told};
use embed_refusals::{lent_room, slices_refusal};
use embed_words::vm_of;
use layout::lent::ProgramStores;

// The image of the program.
pub fn save(vm: &[u64], stores: &ProgramStores, out: &mut [u8], answer: &mut [u64]) -> u32
    ensures { record { coded = record { number = result; vm = vm.now; answer = answer.new }; out = out.new }
        ≡ out_through at_entry (slices_refusal vm.now 1 answer.old) vm.now answer.old out.old
        (λ (m : Vm). save_of m.program (stores_in stores.now) out.old) }
{
    let why = slices_refusal(vm, 1, answer);
    let m = vm_of(vm);
    let room = lent_room(why, out.len());
    let told = image_save::save(m.program, stores, &mut out[..room]);
    answer_told(why, told, answer)
}

// The listing of the program.
pub fn disassemble<'a>(
    vm: &[u64],
    functions: &[u64],
    text: &[u8],
    main: &'a [u8],
    other: &'a [u8],
    out: &mut [u8],
    answer: &mut [u64],
) -> u32
    ensures { (rest : Stores) → record { coded = record { number = result; vm = vm.now; answer = answer.new }; out = out.new }
        ≡ out_through at_listing (slices_refusal vm.now 1 answer.old) vm.now answer.old out.old
        (λ (m : Vm). list_of m.program (listed rest functions.now text.now main.now other.now) out.old) }
{
    let why = slices_refusal(vm, 1, answer);
    let m = vm_of(vm);
    let room = lent_room(why, out.len());
    let told = listing::disassemble(m.program, functions, text, main, other, &mut out[..room]);
    answer_listed(why, told, answer)
}
