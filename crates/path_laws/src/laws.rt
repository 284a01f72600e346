ghost use Rattle.path_laws.specs.Laws.{
  OneTableIsItsOwn,
  ProductsTakeTheLeast,
  TablesMultiply,
};

/// The table of bars side by side is the product of their tables.
pub fn tables_multiply()
    ensures { TablesMultiply }
{}

/// The product of two tables takes the least sum of the costs that meet, and at equal sums the lower rank on the left.
pub fn products_take_the_least()
    ensures { ProductsTakeTheLeast }
{}

/// The table of one bar is the bar's own.
pub fn one_table_is_its_own()
    ensures { OneTableIsItsOwn }
{}
