// Facts about the declared types, from the table of types: the questions 8 and 9, and the variant of each type's default.
// `specs/Facts.antt` says what each function computes.
#![tactic(auto)]

ghost use Rattle.std.specs.Prelude.{◌≡◌, ◌<◌};
ghost use Rattle.laws.specs.Lists.{all};
ghost use Rattle.guard.specs.Types.{variants_of};
ghost use Rattle.tables.specs.Layout.{TypesInRange, types_of};
ghost use Rattle.finite.specs.TypeColumns.{FieldsInRange, InRange, fields_at, types_in};
ghost use Rattle.datatypes.specs.Facts.{all_growing, growing, type_facts};

use guard::Question;
use tables::TypeTable;

// Question 9 for variant `w`: does it have a field of infinite type, or no field?
#[tactic(auto, using(crate::proofs::QuestionLaws::one_variant))]
fn variant_growing(arities: &[u8; 48], sorts: &[u8; 144], finite: &[u8; 6], w: usize) -> bool
    requires fields_in_range { FieldsInRange arities.now sorts.now }
    requires w_bound { w < 48 }
    ensures { result ≡ growing finite.now (fields_at arities.now sorts.now w) }
{
    let arity = arities[w] as usize;
    if arity == 0 {
        return true;
    }
    for j in 0..arity {
        let t = sorts[3 * w + j] as usize;
        if finite[t] != 1 {
            return true;
        }
    }
    false
}

// Question 9 for the variants of type `t`.
#[tactic(auto, using(crate::proofs::QuestionLaws::one_type))]
fn type_growing(
    many: usize,
    variants: &[u8; 6],
    first: &[u8; 6],
    arities: &[u8; 48],
    sorts: &[u8; 144],
    finite: &[u8; 6],
    t: usize,
) -> bool
    requires in_range { InRange many variants.now first.now arities.now sorts.now }
    requires t_lt_many { t < many }
    ensures { result ≡ all (growing finite.now) (variants_of (types_in many variants.now first.now arities.now sorts.now) t) }
{
    let n = variants[t] as usize;
    let start = first[t] as usize;
    for v in 0..n {
        if !variant_growing(arities, sorts, finite, start + v) {
            return false;
        }
    }
    true
}

// Question 9: does every variant with fields have a field of infinite type?
#[tactic(auto, using(crate::proofs::QuestionLaws::all_types))]
fn all_growing(
    many: usize,
    variants: &[u8; 6],
    first: &[u8; 6],
    arities: &[u8; 48],
    sorts: &[u8; 144],
    finite: &[u8; 6],
) -> bool
    requires { InRange many variants.now first.now arities.now sorts.now }
    ensures { result ≡ all_growing finite.now (types_in many variants.now first.now arities.now sorts.now) }
{
    for t in 0..many {
        if !type_growing(many, variants, first, arities, sorts, finite, t) {
            return false;
        }
    }
    true
}

// The questions 8 and 9, in this order, asked of the columns of a table; the variant of each type's default.
fn questions(
    many: usize,
    variants: &[u8; 6],
    first: &[u8; 6],
    arities: &[u8; 48],
    sorts: &[u8; 144],
) -> Result<[u8; 6], Question>
    requires { InRange many variants.now first.now arities.now sorts.now }
    ensures { result ≡ type_facts (types_in many variants.now first.now arities.now sorts.now) }
{
    let settled = defaults::default_variants(many, variants, first, arities, sorts);
    if !defaults::all_settled(many, &settled) {
        return Err(Question::NoDefault);
    }
    let finite = finite::finite_types(many, variants, first, arities, sorts);
    if !all_growing(many, variants, first, arities, sorts, &finite) {
        return Err(Question::NoInfiniteField);
    }
    Ok(settled)
}

// The questions 8 and 9, and the variant of each type's default where both get a yes.
pub fn type_facts(table: TypeTable) -> Result<[u8; 6], Question>
    requires { TypesInRange table }
    ensures { result ≡ type_facts (types_of table) }
{
    let variants = table.variants;
    let first = table.first;
    let arities = table.arities;
    let sorts = table.sorts;
    questions(table.many, &variants, &first, &arities, &sorts)
}
