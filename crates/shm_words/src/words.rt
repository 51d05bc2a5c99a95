use crate::view::View;
use atomic_table::{Table, TableRule};
use gpu_plan::Plan;
use std::alloc::Global;
use std::marker::Model;

/// The rule of the words of one stream.
pub struct WordsRule;

impl TableRule<(), View, Plan> for WordsRule {
    ghost use Rattle.shm_words.specs.Rule.{KeepsWords};
    ghost use Rattle.shm_words.specs.declared.view.View.TheVariants.{Whole};

    ghost holds = { KeepsWords };

    ghost first = { Whole };
}

/// The words of one stream, which its client and the service share.
///
/// Seen as the name of the table in which they lie: passes and notes of these words name the same one.
#[derive(Drop)]
pub struct SharedWords {
    pub(crate) table: Table<(), View, Plan, WordsRule, Global>,
}

impl Model for SharedWords {
    ghost use Rattle.atomic_table.specs.Seated.{TableId, table_id_coded};

    ghost Value = { TableId };

    ghost coded = { table_id_coded };

    ghost view = { λ s. s.table.shared.table_id };
}
