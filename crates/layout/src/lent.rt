// The stores of a program, as a host lends them: what stands in each is in `ARCHITECTURE.md`, "Stores".
ghost use Rattle.std.specs.Prelude.{ℕ, ◌<◌, get_or};

// Stores that are read.
#[derive(Clone, Copy)]
pub struct ProgramStores<'a> {
    pub constants: &'a [u64],
    pub structs: &'a [u64],
    pub functions: &'a [u64],
    pub text: &'a [u8],
    pub main: &'a [u8],
    pub main_places: &'a [u32],
    pub other: &'a [u8],
    pub other_places: &'a [u32],
}

// What the type of a code store says: it does nothing.
fn are_bytes(code: &[u8])
    ensures { (j : ℕ) → get_or code.now j 0 < 256 }
{}

impl<'a> ProgramStores<'a> {
    // What the types of the code stores say: it does nothing.
    pub fn code_is_bytes(&self)
        ensures main { (j : ℕ) → get_or self.now.main.now j 0 < 256 }
        ensures other { (j : ℕ) → get_or self.now.other.now j 0 < 256 }
    {
        are_bytes(self.main);
        are_bytes(self.other);
    }
}
