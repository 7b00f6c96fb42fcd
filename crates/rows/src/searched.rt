// What the search is worth: laws that these functions owe.
ghost use Rattle.rows.specs.SearchLaws.{RowsOfOne, RowsInOrder, RestIs, GoesOn, IsOver};

// The rows found of one last event are the definition's that end with it.
pub fn rows_of_one()
    ensures { RowsOfOne }
{}

// All rows found are all of the definition, in the order in which they are told.
pub fn rows_in_order()
    ensures { RowsInOrder }
{}

// From one last event to another: the rows that end there.
pub fn rest_is()
    ensures { RestIs }
{}

// After a row was told, the others are to come.
pub fn goes_on()
    ensures { GoesOn }
{}

// Where none is told, none is to come.
pub fn is_over()
    ensures { IsOver }
{}
