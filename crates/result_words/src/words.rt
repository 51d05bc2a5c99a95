use crate::view::View;
use atomic_table::{Table, TableRule};
use std::alloc::Global;
use std::marker::Model;

/// The rule of the result words of one stream, by the number of its result places.
pub struct ResultsRule;

impl TableRule<(), View, u64> for ResultsRule {
    ghost use Rattle.result_words.specs.Views.{fresh_result_writer};
    ghost use Rattle.result_words.specs.Rule.{KeepsResults};
    ghost use Rattle.result_words.specs.declared.view.View.TheVariants.{Writer};

    ghost holds = { KeepsResults };

    ghost first = { λ _. Writer fresh_result_writer };
}

/// The result words of one stream, which its service and its client share.
///
/// Seen as the name of the table in which they lie: the writer and the reader of these words name the same one.
#[derive(Drop)]
pub struct ResultWords {
    pub(crate) table: Table<(), View, u64, ResultsRule, Global>,
}

impl Model for ResultWords {
    ghost use Rattle.atomic_table.specs.Seated.{TableId, table_id_coded};
    ghost use Rattle.result_words.specs.Seen.{IsWide};

    ghost Value = { TableId };

    ghost coded = { table_id_coded };

    ghost view = { λ s. s.table.shared.table_id };

    ghost invariant = { λ s. IsWide s.table.shared.table_id s.table.shared.key };
}
