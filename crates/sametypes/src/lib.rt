// Whether two guards have the same type parts, by their tables.
#![tactic(auto)]

ghost use Rattle.sametypes.specs.Same.{SameTypes};

use tables::TypeTable;

// Column by column.
#[tactic(auto, using(crate::proofs::ByColumns::same_is))]
pub fn same_types(a: TypeTable, b: TypeTable) -> bool
    ensures { SameTypes a b result }
{
    a.many == b.many
        && a.variants == b.variants
        && a.first == b.first
        && a.arities == b.arities
        && a.sorts == b.sorts
}
