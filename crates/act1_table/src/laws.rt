ghost use Rattle.act1_table.specs.Laws.{TableLaw};

/// The law of tables: of a table whose test is passed (`is_clear`), a written line is one line and is read as
/// what it says; what is read of a line is what the one line says that is written for it; and no two things
/// are said by the same line. Of a number that is greater than its cap the cap alone is read.
pub fn lines_say_one_thing()
    ensures { TableLaw }
{}
