ghost use Rattle.twice_tables.specs.Tables.{MeaningsAreAlike, TablesAreAlike, TreesAreAlike};

/// What a tree means over two tables is alike, where its names mean what is alike; so the tables of one program are, and all that its trees mean.
pub fn table_laws()
    ensures meanings { MeaningsAreAlike }
    ensures tables { TablesAreAlike }
    ensures trees { TreesAreAlike }
{}
