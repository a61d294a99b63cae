// The stores, as large as the runner's. The console's functions take them as arrays, whose lengths are their types': a slice's would be a fact to keep.
ghost use Rattle.std.specs.Prelude.{◌≡◌};
ghost use Rattle.layout.specs.Lent.{stores_in};
ghost use Rattle.console_script.specs.Stored.{stored};

use layout::lent::ProgramStores;

pub type Space = [u8; 16384];

pub type Constants = [u64; 512];

pub type Structs = [u64; 512];

pub type Functions = [u64; 512];

pub type Text = [u8; 16384];

pub type Code = [u8; 8192];

pub type Places = [u32; 8192];

pub type Stack = [u64; 2048];

pub type Cells = [u64; 4096];

pub type Trace = [u64; 768];

pub type Frames = [u64; 1024];

// The stores of a program.
#[derive(Drop)]
pub struct Program {
    pub constants: Constants,
    pub structs: Structs,
    pub functions: Functions,
    pub text: Text,
    pub main: Code,
    pub main_places: Places,
    pub other: Code,
    pub other_places: Places,
}

// All stores of a machine, the frames in words.
#[derive(Drop)]
pub struct Stores {
    pub program: Program,
    pub stack: Stack,
    pub cells: Cells,
    pub copy: Stack,
    pub trace: Trace,
    pub frames: Frames,
}

impl Program {
    // The stores, to be read.
    #[tactic(auto, unfolding(layout::specs::Lent::program_lent))]
    pub fn lent(&self) -> ProgramStores
        ensures { stores_in result ≡ stored self.now }
    {
        ProgramStores {
            constants: &self.constants,
            structs: &self.structs,
            functions: &self.functions,
            text: &self.text,
            main: &self.main,
            main_places: &self.main_places,
            other: &self.other,
            other_places: &self.other_places,
        }
    }
}
