ghost use Rattle.token.specs.Rows.{TableStands};

// States of the node table that no token fits two of its rows, and that each row has its reverse, which undoes what it does.
pub fn table_stands()
    ensures { TableStands }
{}
