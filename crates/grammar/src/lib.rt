//! The language of texts: which script a text spells, and that the reader reads exactly the lawful ones.
#![tactic(auto)]

ghost use Rattle.grammar.specs.Laws.{ReadWhereLawful, FormFaultWhereUnfit};

/// A text is read exactly where it spells a lawful script, and as that script.
pub fn read_where_lawful()
    ensures { ReadWhereLawful }
{}

/// A form fault stands at the first unfit byte.
pub fn form_fault_where_unfit()
    ensures { FormFaultWhereUnfit }
{}
