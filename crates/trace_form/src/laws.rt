ghost use Rattle.trace_form.specs.Apart.{ItemsHaveNoCause, CausesAreUnique};
ghost use Rattle.trace_form.specs.Changed.{ChangeIsADifference};

/// A law: an item has no cause why it is none.
pub fn items_have_no_cause()
    ensures { ItemsHaveNoCause }
{}

/// A law: what is no item is none for one cause.
pub fn causes_are_unique()
    ensures { CausesAreUnique }
{}

/// A law: headers count as changed exactly where they differ.
pub fn change_is_a_difference()
    ensures { ChangeIsADifference }
{}
