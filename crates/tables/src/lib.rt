// The tables that a guard file is read into: flat columns of numbers, each padded with zeros to the largest size that any
// limits allow. `specs/Layout.antt` says what each entry is.
#![tactic(auto)]

// The types. Variants of all types are counted through, type by type.
#[derive(Clone, Copy)]
pub struct TypeTable {
    pub many: usize,
    // for each type: how many variants it has, and how many the types before it have
    pub variants: [u8; 6],
    pub first: [u8; 6],
    // for each variant: how many fields it has, and their types, three places to a variant
    pub arities: [u8; 48],
    pub sorts: [u8; 144],
}

// The term rows.
#[derive(Clone, Copy)]
pub struct RowTable {
    pub many: usize,
    // 0 variable, 1 constant, 2 built, 3 field read
    pub kinds: [u8; 24],
    pub types: [u8; 24],
    // the variant built or read
    pub variants: [u8; 24],
    // three places to a row: the parts of a built row; the term and the position of a field read
    pub parts: [u8; 72],
    // the value of a constant
    pub values: [i64; 24],
}

// The literals.
#[derive(Clone, Copy)]
pub struct LiteralTable {
    pub many: usize,
    // 0 equal, 1 unequal, 2 is, 3 isn't
    pub kinds: [u8; 64],
    pub terms: [u8; 64],
    // the second term, or the variant
    pub others: [u8; 64],
}
