use std::marker::Brand;

/// What a house and the runs that left it are of: the plans, the base of the marks, and the names of the tables of one run of the
/// program. Its members are seen by contracts alone.
pub trait Naming {
    ghost use Rattle.std.specs.Prelude.{ℕ, List};
    ghost use Rattle.atomic_table.specs.Seated.{TableId};
    ghost use Rattle.logbook.specs.Pages.{Book};
    ghost use Rattle.gpu_plan.specs.Plans.{PlansData};

    // The plans of the streams.
    ghost plans: { PlansData };

    // The base of the marks.
    ghost base: { ℕ };

    // Of each stream, in order, the table of words that it shares with its client.
    ghost words: { List TableId };

    // Of each stream, in order, its book.
    ghost books: { List TableId };

    // Of each stream, in order, the queue of its flushes on their way to the house.
    ghost queues: { List TableId };

    // Of each stream, in order, the table of result words that it shares with its client.
    ghost result_words: { List TableId };

    // The view in which the images are shown while the run goes on.
    ghost view: { Book };
}

impl Naming for Brand {
    ghost use Rattle.std.specs.Prelude.{[]};
    ghost use Rattle.gpu_house.specs.Names.{no_plans, no_view};

    ghost plans = { no_plans };

    ghost base = { 0 };

    ghost words = { [] };

    ghost books = { [] };

    ghost queues = { [] };

    ghost result_words = { [] };

    ghost view = { no_view };
}
