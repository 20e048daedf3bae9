//! The law of explanations over a case table, as a function whose contract states it.

ghost use Rattle.table_explanations.specs.Laws.{OnceLaw};

/// Where each difference has its weight, there are never two MCEs and never two MMEs.
pub fn law_once()
    ensures { OnceLaw }
{}
