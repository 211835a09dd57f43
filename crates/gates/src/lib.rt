// Four-valued gates: translations, functions, and the gate g5(f(g1(a1), g2(a2), g3(a3), g4(a4))). All are taken from tables.
// Codes of a value: 0, 1, 2 (U, undefined), 3 (Z, floating). Values and codes are bytes, as C's buffers have them and as they index the
// tables; no enum is made of them.

#![tactic(auto)]

ghost use Rattle.std.specs.Prelude.{◌≡◌, ◌≤◌};
ghost use Rattle.gates.specs.Value.{Code};
ghost use Rattle.gates.specs.Translation.{is_translation, is_constant, translation};
ghost use Rattle.gates.specs.Function.{is_function, function};
ghost use Rattle.gates.specs.Gate.{gate};
ghost use Rattle.gates.specs.Legal.{Legal};
ghost use Rattle.gates.specs.Table.{FunctionTable, TranslationTable, GateTables};

mod table;

// The codes of a gate, its function and its translations, by the names of the formula g5(f(g1(a1), g2(a2), g3(a3), g4(a4))): in an array
// they would have numbers in place of these names.
#[derive(Drop)]
pub struct Gate {
    pub f: u8,
    pub g1: u8,
    pub g2: u8,
    pub g3: u8,
    pub g4: u8,
    pub g5: u8,
}

// The code of a function that is supplied. This test and the next two differ in a limit alone, and have each the name of its definition.
#[tactic(auto, unfolding(crate::specs::Function::is_function))]
pub fn is_function(code: u16) -> bool
    ensures { result ≡ is_function code }
{
    code <= 4
}

// The code of a translation that is supplied.
#[tactic(auto, unfolding(crate::specs::Translation::is_translation))]
pub fn is_translation(code: u16) -> bool
    ensures { result ≡ is_translation code }
{
    code <= 6
}

// The code of a translation that gives a constant.
#[tactic(auto, unfolding(crate::specs::Translation::is_constant))]
pub fn is_constant(code: u16) -> bool
    ensures { result ≡ is_constant code }
{
    code <= 3
}

// The table of the functions. A constant is made anew where it is named, so a caller that evaluates often makes the tables once and
// lends them.
pub fn functions() -> [u8; 1280]
    ensures { FunctionTable result }
{
    table::FUNCTIONS
}

// The table of the translations.
pub fn translations() -> [u8; 28]
    ensures { TranslationTable result }
{
    table::TRANSLATIONS
}

// The tables that gates are evaluated by: made once by a caller that evaluates often, and lent by reference. They are flat, "256 a
// function" (02), and no arrays of arrays: `translate` and `apply` alone count their indices. A caller with right tables of its own may
// lend these: the fields are public.
#[derive(Drop)]
pub struct TruthTables {
    pub functions: [u8; 1280],
    pub translations: [u8; 28],
    pub ghost right: { GateTables functions translations },
}

impl TruthTables {
    // The two tables.
    pub fn new() -> TruthTables
        ensures { GateTables result.functions result.translations }
    {
        TruthTables {
            functions: functions(),
            translations: translations(),
        }
    }

    // Translation g of the value v.
    fn translate(&self, g: u8, v: u8) -> u8
        requires g_bound { (g ≤ 6) × Code v }
        ensures { (result ≡ translation g v) × Code result }
    {
        self.translations[4 * usize::from(g) + usize::from(v)]
    }

    // Function f of four operands.
    fn apply(&self, f: u8, a: u8, b: u8, c: u8, d: u8) -> u8
        requires f_bound { (f ≤ 4) × Code a × Code b × Code c × Code d }
        ensures { (result ≡ function f a b c d) × Code result }
    {
        self.functions[256 * usize::from(f)
            + 64 * usize::from(a)
            + 16 * usize::from(b)
            + 4 * usize::from(c)
            + usize::from(d)]
    }
}

impl Gate {
    // The gate's value on four operands, which have the names of the formula, too.
    pub fn value(self, tables: &TruthTables, a1: u8, a2: u8, a3: u8, a4: u8) -> u8
        requires legal { Legal self }
        requires code { Code a1 × Code a2 × Code a3 × Code a4 }
        ensures { result ≡ gate self a1 a2 a3 a4 }
    {
        let w = tables.translate(self.g1, a1);
        let x = tables.translate(self.g2, a2);
        let y = tables.translate(self.g3, a3);
        let z = tables.translate(self.g4, a4);
        tables.translate(self.g5, tables.apply(self.f, w, x, y, z))
    }
}
