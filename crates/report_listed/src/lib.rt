// What the lister prints of a program that was loaded, as bytes in a lent store.
#![tactic(auto)]

ghost use Rattle.std.specs.Prelude.{◌≡◌, true};
ghost use Rattle.model.specs.Listings.{listing_of};
ghost use Rattle.model.specs.Stores.{Stores, program_in};
ghost use Rattle.model.specs.Loading.{list_order};
ghost use Rattle.model.specs.Reports.{listed_text, loaded_text};
ghost use Rattle.listing.specs.Links.{lent};
ghost use Rattle.report_lines.specs.Links.{printed};
ghost use Rattle.report_listed.specs.Links.{Listable};

use listing::disassemble;
use model::{Counts, Refusal};
use report_lines::print_refused;

// The listing of a program in good order, or its refusal.
fn list_program<'a>(
    c: Counts,
    functions: &[u64],
    text: &[u8],
    main: &'a [u8],
    other: &'a [u8],
    out: &mut [u8],
) -> usize
    requires { (rest : Stores) → list_order c (lent rest functions.now text.now main.now other.now) ≡ true }
    ensures { (rest : Stores) → record { count = result; out = out.new } ≡ printed (listed_text (listing_of (program_in c (lent rest functions.now text.now main.now other.now)))) out.old }
{
    match disassemble(c, functions, text, main, other, out) {
        Ok(n) => n,
        Err(Refusal::ResultTooShort) => 0,
        Err(why) => print_refused(why, out),
    }
}

// The listing of what was loaded, or why nothing was.
pub fn list_loaded<'a>(
    loaded: Result<Counts, Refusal>,
    functions: &[u64],
    text: &[u8],
    main: &'a [u8],
    other: &'a [u8],
    out: &mut [u8],
) -> usize
    requires { (rest : Stores) → Listable loaded (lent rest functions.now text.now main.now other.now) }
    ensures { (rest : Stores) → record { count = result; out = out.new } ≡ printed (loaded_text loaded (lent rest functions.now text.now main.now other.now)) out.old }
{
    match loaded {
        Ok(c) => list_program(c, functions, text, main, other, out),
        Err(why) => print_refused(why, out),
    }
}
