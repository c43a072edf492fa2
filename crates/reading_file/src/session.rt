// The tables of a session that was read, seen where they lie. What holds of tables that were read holds of every such value.
ghost use Rattle.reading_file.specs.Valid.{Valid};
ghost use Rattle.tables.specs.View.{viewed};

use tables::view::TablesView;

#[derive(Clone, Copy)]
pub struct Session<'a> {
    pub tables: TablesView<'a>,
    pub ghost valid: { Valid (viewed tables) },
}
