//! Laws of columns.
ghost use Rattle.std.specs.Prelude.{◌≡◌, ℕ, ℤ, ◌++◌, List, length, All, FitsSigned};
ghost use Rattle.std.specs.Int.{w64};
ghost use Rattle.packed_lists.specs.Nums.{IsNums};
ghost use Rattle.column_block.specs.Rules.{IsColumnOf, KeepsRules};
ghost use Rattle.column_block.specs.Spelling.{Spells};
ghost use Rattle.column_block.specs.declared.kinds.ColumnKind.{ColumnKind};
ghost use Rattle.column_block.specs.declared.kinds.Values.{Values};

/// Values have one spelling, and so have lists of numbers.
pub fn one_spelling()
    ensures column { (vs : Values) (a b : List ℕ) → Spells vs a → Spells vs b → a ≡ b }
    ensures numbers { (vs : List ℤ) (a b : List ℕ) → IsNums vs a → IsNums vs b → a ≡ b }
{}

/// Packed numbers have 64 bits.
pub fn numbers_fit()
    ensures { (vs : List ℤ) (bytes : List ℕ) → IsNums vs bytes → All (FitsSigned w64) vs }
{}

/// Where the bytes begin with a column of a kind and a number of rows they tell its values and where it ends. The
/// same holds for lists of as many numbers.
pub fn one_value()
    ensures column { (kind : ColumnKind) (rows : ℕ) (vs ws : Values) (a b x y : List ℕ) →
        IsColumnOf kind rows vs → IsColumnOf kind rows ws → Spells vs a → Spells ws b → a ++ x ≡ b ++ y →
        (vs ≡ ws) × (a ≡ b) × (x ≡ y) }
    ensures numbers { (vs ws : List ℤ) (a b x y : List ℕ) →
        length vs ≡ length ws → IsNums vs a → IsNums ws b → a ++ x ≡ b ++ y →
        (vs ≡ ws) × (a ≡ b) × (x ≡ y) }
{}
