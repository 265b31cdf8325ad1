// What the literals of a guard say, before any rule: equal terms, and labels cut down.
#![tactic(auto)]

ghost use Rattle.std.specs.Prelude.{◌≡◌, ◌≤◌, ◌<◌};
ghost use mathlib.Core.List.{foldl};
ghost use Rattle.guard.specs.Closure.{add};
ghost use Rattle.literalfacts.specs.Literals.{LiteralsFit, fact_of, literal_at, literals_by};

use classes::State;
use tables::LiteralTable;

// What a literal of this kind says: two terms are equal, or the variants that are left to a term.
fn assert_fact(state: &mut State, kind: u8, term: u8, other: u8)
    requires { (term < 96) × (other < 96) × (2 ≤ kind → other < 16) }
    ensures { state.new ≡ foldl add state.old (fact_of kind term other) }
{
    if kind == 0 {
        state.unite(term, other);
    } else if kind == 2 {
        state.restrict(term, labels::only(other as u32));
    } else if 2 < kind {
        state.restrict(term, 65535 - labels::only(other as u32));
    }
}

#[tactic(auto, unfolding(crate::specs::Literals::literal_at))]
fn assert_literal(state: &mut State, lines: &LiteralTable, j: usize)
    requires j_lt_many { j < lines.now.many }
    requires literals_fit { LiteralsFit lines.now.kinds lines.now.terms lines.now.others lines.now.many }
    ensures { state.new ≡ foldl add state.old (literal_at lines.now.kinds lines.now.terms lines.now.others j) }
{
    assert_fact(state, lines.kinds[j], lines.terms[j], lines.others[j]);
}

#[tactic(auto, using(facts::proofs::Adding::next_slot), unfolding(crate::specs::Literals::literals_by))]
pub fn assert_literals(state: &mut State, lines: &LiteralTable)
    requires { LiteralsFit lines.now.kinds lines.now.terms lines.now.others lines.now.many }
    ensures { state.new ≡ foldl add state.old (literals_by lines.now.kinds lines.now.terms lines.now.others lines.now.many) }
{
    for j in 0..lines.many {
        assert_literal(state, lines, j);
    }
}
