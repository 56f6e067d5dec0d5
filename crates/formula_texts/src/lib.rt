// The texts of formulas over a store (document 02, A8): terms joined by '+', factors joined by '*', digits 0 to 7 and
// round brackets.

#![tactic(auto)]

ghost use Rattle.std.specs.Prelude.{◌≤◌, length};
ghost use Rattle.formula_texts.specs.Trees.{InLanguage};
ghost use Rattle.formula_texts.specs.Reading.{Read, Stands, Decides, FormulaThen, FormulaStops, TermThen};
ghost use Rattle.formula_texts.specs.Reading.{TermStops, FactorThen, FactorStops};

// The longest text in bytes.
pub const MAX_BYTES: usize = 64;

// The most brackets that are open at once.
pub const MAX_BRACKETS: u32 = 3;

// Bytes of a text.
pub const PLUS: u8 = b'+';

pub const TIMES: u8 = b'*';

pub const OPEN: u8 = b'(';

pub const CLOSE: u8 = b')';

pub const FIRST_DIGIT: u8 = b'0';

pub const LAST_DIGIT: u8 = b'7';

// Whether the byte at p is b.
pub fn stands(text: &[u8], p: usize, b: u8) -> bool
    ensures { Stands text.now p b result }
{
    text.get(p) == Some(&b)
}

// Where the formula from `at` on ends that neither + nor * follows, with no more brackets open than the allowance; or
// that there is none.
#[cycle(factor_formula_term)]
pub fn formula(text: &[u8], at: usize, allowance: u32) -> Option<usize>
    requires { at ≤ length text.now }
    ensures { Read FormulaThen FormulaStops text.now at allowance result }
{
    let p = term(text, at, allowance)?;
    if stands(text, p, PLUS) {
        formula(text, p + 1, allowance)
    } else {
        Some(p)
    }
}

// Where the term from `at` on ends that no * follows. Kept: apart from `formula`, as its clause speaks of other trees.
#[cycle(factor_formula_term)]
pub fn term(text: &[u8], at: usize, allowance: u32) -> Option<usize>
    requires { at ≤ length text.now }
    ensures { Read TermThen TermStops text.now at allowance result }
{
    let p = factor(text, at, allowance)?;
    if stands(text, p, TIMES) {
        term(text, p + 1, allowance)
    } else {
        Some(p)
    }
}

// Where the factor from `at` on ends: a digit, or a formula in brackets.
#[cycle(factor_formula_term)]
pub fn factor(text: &[u8], at: usize, allowance: u32) -> Option<usize>
    requires { at ≤ length text.now }
    ensures { Read FactorThen FactorStops text.now at allowance result }
{
    let x = *text.get(at)?;
    if x == OPEN {
        if allowance == 0 {
            return None;
        }
        let p = formula(text, at + 1, allowance - 1)?;
        return if stands(text, p, CLOSE) {
            Some(p + 1)
        } else {
            None
        };
    }
    if (FIRST_DIGIT..=LAST_DIGIT).contains(&x) {
        Some(at + 1)
    } else {
        None
    }
}

// Whether the text is a formula of at most 64 bytes with at most three brackets open at once.
pub fn accepts(text: &[u8]) -> bool
    ensures { Decides (InLanguage text.now) result }
{
    text.len() <= MAX_BYTES && formula(text, 0, MAX_BRACKETS) == Some(text.len())
}
